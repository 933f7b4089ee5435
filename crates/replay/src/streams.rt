// The calls of streams, by their names: the fields of each are in oracle/README.md.
//
// A stream is told by its fields, and so is the stream that a call gives, with `_after` behind the names.
use crate::benches::words_told;
use crate::text::Line;
use counter::{Started, Stream};

fn stream(line: Line) -> Stream {
    Stream {
        words: words_told(line, b"key", b"words"),
        nonce: line.twelve(b"nonce"),
        counter: line.number(b"counter"),
        block: line.sixteen(b"block"),
        unused: line.number(b"unused"),
        spent: line.number(b"spent"),
    }
}

fn says_stream(line: Line, s: Stream) -> bool {
    let own = s.words;
    let nonce = s.nonce;
    let block = s.block;
    line.says_bytes(b"nonce_after", &nonce)
        && line.says_bytes(b"block_after", &block)
        && line.says_one(b"counter_after", s.counter)
        && line.says_one(b"unused_after", s.unused)
        && line.says_one(b"spent_after", s.spent)
        && own == words_told(line, b"key_after", b"words_after")
}

fn started(line: Line) -> bool {
    let key = line.field(b"key");
    let nonce = line.field(b"nonce");
    let answer = counter::start(key.bytes(), nonce.bytes(), line.number(b"counter"));
    let s = Started::from(answer);
    line.says_number(s.code) && says_stream(line, s.stream)
}

fn fed(line: Line) -> bool {
    let input = line.field(b"input");
    let mut lent = line.field(b"lent");
    let mut s = stream(line);
    let code = answers::number(s.feed(input.bytes(), lent.lent_bytes()));
    line.left(lent.bytes()) && line.says_number(code) && says_stream(line, s)
}

pub(crate) fn right(name: &str, line: Line) -> Option<bool> {
    match name {
        "start_stream" => Some(started(line)),
        "stream_piece" => Some(fed(line)),
        _ => None,
    }
}
