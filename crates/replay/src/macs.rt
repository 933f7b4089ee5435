// The calls of CMAC, by their names: the fields of each are in oracle/README.md.
//
// A state is told by its fields, and so is the state that a call gives, with `_after` behind the names.
use crate::benches::words_told;
use crate::text::Line;
use answers::Refusal;
use cmac::{Checked, Fed, Mac, Started};

// ---- states

fn state(line: Line) -> Mac {
    Mac {
        words: words_told(line, b"key", b"words"),
        chain: line.sixteen(b"chain"),
        held: line.sixteen(b"held"),
        count: line.number(b"count"),
    }
}

fn says_state(line: Line, s: Mac, words: [u32; 80]) -> bool {
    let own = s.words;
    let chain = s.chain;
    let held = s.held;
    line.says_bytes(b"chain_after", &chain)
        && line.says_bytes(b"held_after", &held)
        && line.says_one(b"count_after", s.count)
        && own == words
}

// ---- calls

fn checked(line: Line) -> bool {
    let key = line.field(b"key");
    let message = line.field(b"message");
    let tag = line.field(b"tag");
    let c = Checked::from(cmac::check(key.bytes(), message.bytes(), tag.bytes()));
    line.says_number(c.code) && line.says_one(b"yes", c.yes as u32)
}

fn started(line: Line) -> bool {
    let key = line.field(b"key");
    let s = Started::from(cmac::start(key.bytes()));
    let words = words_told(line, b"key_after", b"words_after");
    line.says_number(s.code) && says_state(line, s.state, words)
}

// A piece leaves the round words.
fn fed(line: Line) -> bool {
    let s = state(line);
    let piece = line.field(b"piece");
    let f = Fed::new(s, cmac::piece(s, piece.bytes()));
    line.says_number(f.code) && says_state(line, f.state, s.words)
}

fn whole(line: Line, out: &mut [u8]) -> Result<(), Refusal> {
    let key = line.field(b"key");
    let message = line.field(b"message");
    cmac::whole(key.bytes(), message.bytes(), out)
}

// Of a whole message, or of a state.
fn tagged<F: Fn(Line, &mut [u8]) -> Result<(), Refusal>>(line: Line, tag: F) -> bool
    requires { F.IsAlwaysCallable tag }
{
    let mut lent = line.field(b"lent");
    let answer = tag(line, lent.lent_bytes());
    line.says_number(answers::number(answer)) && line.left(lent.bytes())
}

pub(crate) fn right(name: &str, line: Line) -> Option<bool> {
    match name {
        "cmac" => Some(tagged(line, whole)),
        "cmac_check" => Some(checked(line)),
        "cmac_start" => Some(started(line)),
        "cmac_piece" => Some(fed(line)),
        "cmac_tag" => Some(tagged(line, |line, out| cmac::tag(state(line), out))),
        _ => None,
    }
}
