// The calls on settings bundles, by their names: the fields of each are in oracle/README.md.
use crate::text::Line;
use bundle_format::{Asked, Edition, Opened, Told, Written};

// ---- what a line says of an answer

fn says_told(line: Line, t: Told) -> bool {
    line.says_one(b"state", t.state)
        && line.says_one(b"id_told", t.id)
        && line.says_one(b"kind", t.kind)
        && line.says_one(b"at", t.at)
        && line.says_one(b"len", t.len)
}

// An edition that a line tells: the first, or else the second.
fn edition(line: Line, name: &[u8]) -> Edition {
    match line.number(name) {
        1 => Edition::First,
        _ => Edition::Second,
    }
}

// ---- reading

fn asked(line: Line) -> bool {
    let key = line.field(b"key");
    let bundle = line.field(b"bundle");
    let id = line.number(b"id");
    let told = bundle_reader::ask(edition(line, b"reader"), key.bytes(), bundle.bytes(), id);
    let a = Asked::from(told);
    line.says_number(a.code) && says_told(line, a.told)
}

fn opened(line: Line) -> bool {
    let key = line.field(b"key");
    let bundle = line.field(b"bundle");
    let o = bundle_reader::open(edition(line, b"reader"), key.bytes(), bundle.bytes());
    line.says_number(o.code)
        && line.says_one(b"reader", o.reader)
        && line.says_one(b"count", o.count)
        && line.says_one(b"size", o.size)
}

// What was seen of the bundle is told by its four numbers.
fn looked<F: Fn(Opened, &[u8], u32) -> Told>(line: Line, look: F) -> bool
    requires { F.IsAlwaysCallable look }
{
    let bundle = line.field(b"bundle");
    let seen = Opened {
        code: line.number(b"code"),
        reader: line.number(b"reader"),
        count: line.number(b"count"),
        size: line.number(b"size"),
    };
    says_told(line, look(seen, bundle.bytes(), line.number(b"id")))
}

// ---- writing

fn written(line: Line) -> bool {
    let key = line.field(b"key");
    let rows = line.field(b"rows");
    let pool = line.field(b"pool");
    let mut lent = line.field(b"lent");
    let w = Written::from(bundle_writer::write(
        edition(line, b"edition"),
        key.bytes(),
        rows.words(),
        pool.bytes(),
        lent.lent_bytes(),
    ));
    line.says_number(w.code) && line.says_one(b"total", w.total) && line.left(lent.bytes())
}

pub(crate) fn right(name: &str, line: Line) -> Option<bool> {
    match name {
        "bundle_ask" => Some(asked(line)),
        "bundle_open" => Some(opened(line)),
        "bundle_look" => Some(looked(line, bundle_reader::look)),
        "bundle_entry" => Some(looked(line, bundle_reader::entry)),
        "bundle_write" => Some(written(line)),
        _ => None,
    }
}
