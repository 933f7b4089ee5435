// The calls of the bench, by their names: the fields of each are in oracle/README.md.
//
// Records are told by lines of their own, before the call that leaves them so: a line tells every field of a record, and a record that has
// no line stays as it was. The call is right if it leaves all records as they are told, whole, down to each word.
use crate::text::Line;
use bench::{Answer, Bench, LANES};
use gift128::Gift128;
use lane::Lane;

// ---- records

// The first eighty words, with zeros where there are fewer.
fn eighty(from: &[u32]) -> [u32; 80] {
    let mut to = [0u32; 80];
    let n = from.len().min(80);
    to[..n].copy_from_slice(&from[..n]);
    to
}

// Eighty words that a line tells: those that a key is expanded to, or the words themselves.
pub(crate) fn words_told(line: Line, key: &[u8], words: &[u8]) -> [u32; 80] {
    let key = line.field(key);
    if key.is_empty() {
        return eighty(line.field(words).words());
    }
    Gift128::new(key.bytes()).unwrap_or_default().k
}

// A number of sixteen bits.
fn short(line: Line, name: &[u8]) -> u16 {
    (line.number(name) % 65536) as u16
}

// The record that a line tells; a field that it does not have is zero.
fn record(line: Line) -> Lane {
    Lane {
        phase: (line.number(b"phase") % 256) as u8,
        direction: (line.number(b"direction") % 256) as u8,
        owner: short(line, b"owner"),
        count: short(line, b"count"),
        order: short(line, b"order"),
        words: words_told(line, b"key", b"words"),
        state: line.four(b"state"),
    }
}

// The bench with a record more that is told.
pub(crate) fn told(b: Bench, line: Line) -> Bench {
    let i = line.number(b"lane") as usize;
    let mut bench = b;
    if i < LANES {
        bench.lanes[i] = record(line);
    }
    bench
}

// ---- calls

fn opened(b: Bench, line: Line) -> Answer {
    let key = line.field(b"key");
    let block = line.field(b"block");
    bench::open_lane(
        b,
        line.number(b"lane"),
        short(line, b"owner"),
        line.number(b"direction"),
        line.number(b"order"),
        key.bytes(),
        block.bytes(),
    )
}

fn fresh() -> Answer {
    let bench = bench::fresh();
    Answer { made: Ok(0), bench }
}

fn agrees(a: Answer, wanted: Bench, line: Line) -> bool {
    let bench = a.bench;
    line.says_number(answers::number(a.made))
        && line.says_one(b"made", a.made.unwrap_or(0))
        && line.says_one(b"last", bench.last)
        && bench.lanes == wanted.lanes
}

fn taken(b: Bench, wanted: Bench, line: Line) -> bool {
    let mut lent = line.field(b"lent");
    let lane = line.number(b"lane");
    let a = bench::take(b, lane, short(line, b"owner"), lent.lent_bytes());
    line.left(lent.bytes()) && agrees(a, wanted, line)
}

// Whether the call gives what the line says, and leaves the bench that is wanted.
pub(crate) fn right(name: &str, b: Bench, wanted: Bench, line: Line) -> bool {
    let answer = match name {
        "open_lane" => opened(b, line),
        "turn" => bench::turn(b, line.number(b"asked")),
        "close" => bench::close(b, line.number(b"lane"), short(line, b"owner")),
        "take" => return taken(b, wanted, line),
        _ => fresh(),
    };
    agrees(answer, wanted, line)
}
