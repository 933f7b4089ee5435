// Where two bundles differ, by the reader of edition 2: the ids whose two answers are not the same, rising, each with both answers.
#![tactic(auto)]

ghost use Rattle.std.specs.Prelude.{◌≡◌, true, ◌++◌, ◌+◌, ◌*◌, ◌<◌, ◌≤◌, length, drop};
ghost use Rattle.std.proofs.Math.Seq.{paste};
ghost use Rattle.bundle_format.specs.Reader.{count_of, well_formed};
ghost use Rattle.differ.specs.Difference.{alike, numbers, numbers_of, lines_from, ids, Compares};
ghost use Rattle.differ.specs.Inner.{FirstFrom, line_in, Steps};

use answers::Refusal;
use bundle_format::{Edition, Opened, State, Told};

// How many ids there are: one more than the last. A cursor over them does not fit an id.
const IDS: usize = 4294967296;

// What comparing answers: 0, or the first number that applies; each bundle's number; and how many ids differ, 0 if a bundle is refused.
// Stays: numbers, and no Result, for the C interface: of a refusal too it tells both bundles' numbers, as the edit second_refusal_hidden has it.
#[repr(C)]
#[derive(Clone, Copy)]
pub struct Compared {
    pub code: u32,
    pub first: u32,
    pub second: u32,
    pub count: u32,
}

// A bundle that was accepted: what looking it through gave, and its bytes.
#[derive(Clone, Copy)]
struct Side<'a> {
    seen: Opened,
    bundle: &'a [u8],
    ghost looked: { seen ≡ record { code = 0; reader = 2; count = count_of bundle.now; size = length bundle.now } },
    ghost formed: { well_formed 2 bundle.now ≡ true },
}

// An id whose answers differ, with both.
#[derive(Clone, Copy)]
struct Found {
    id: u32,
    one: Told,
    two: Told,
}

// What an id that was looked at gave, and where to go on.
#[derive(Clone, Copy)]
struct Step {
    low: usize,
    found: Option<Found>,
}

// ---- one id

fn same_answer(one: Told, first: &[u8], two: Told, second: &[u8]) -> bool
    requires len_in_bounds { one.at + one.len ≤ length first.now }
    requires len_in_bounds_2 { two.at + two.len ≤ length second.now }
    ensures { result ≡ alike first.now one second.now two }
{
    let value = u32::from(State::Value);
    if one.state != two.state {
        return false;
    }
    if one.state != value {
        return true;
    }
    if one.kind != two.kind {
        return false;
    }
    let a = one.at as usize;
    let b = a + one.len as usize;
    let c = two.at as usize;
    let d = c + two.len as usize;
    first[a..b] == second[c..d]
}

// ---- from id to id

// The first id of a bundle's table from `low` on; past them all, if there is none.
// Stays: the end of the ids in place of an Option, for of two Options the lesser is None where either is, and advance takes the lesser id of those there are.
fn first_from(side: Side, low: usize) -> usize
    requires { low < ids }
    ensures { FirstFrom side.entry.bundle.now low result }
{
    for i in 0..side.seen.count {
        let told = bundle_reader::entry(side.seen, side.bundle, i);
        let id = told.id as usize;
        if low <= id {
            return id;
        }
    }
    IDS
}

// The next id from `low` on that either bundle has.
fn advance(one: Side, two: Side, low: usize) -> Step
    requires { low < ids }
    ensures { Steps one.entry.bundle.now two.entry.bundle.now low result }
{
    let a = first_from(one, low);
    let b = first_from(two, low);
    let next = a.min(b);
    if IDS <= next {
        return Step {
            low: IDS,
            found: None,
        };
    }
    let id = next as u32;
    let x = bundle_reader::look(one.seen, one.bundle, id);
    let y = bundle_reader::look(two.seen, two.bundle, id);
    let after = next + 1;
    if same_answer(x, one.bundle, y, two.bundle) {
        return Step {
            low: after,
            found: None,
        };
    }
    let found = Found { id, one: x, two: y };
    Step {
        low: after,
        found: Some(found),
    }
}

// ---- all ids

// Stays: a `while` from id to id, here and in `fill`, since the walk is over two tables at once, and its step says where to go on.
fn count_all(one: Side, two: Side) -> u32
    ensures { (result ≡ length (lines_from ids 0 one.entry.bundle.now two.entry.bundle.now)) × (result ≤ 512) }
{
    let mut low: usize = 0;
    let mut n: u32 = 0;
    while low < IDS {
        let s = advance(one, two, low);
        if s.found.is_some() {
            n += 1;
        }
        low = s.low;
    }
    n
}

fn numbers(line: Found) -> [u32; 9]
    ensures { result ≡ numbers (record { id = line.id; one = line.one; two = line.two }) }
{
    let one = line.one;
    let two = line.two;
    [
        line.id, one.state, one.kind, one.at, one.len, two.state, two.kind, two.at, two.len,
    ]
}

// Row k, if the id differs: the number of rows then.
fn keep(rows: &mut [u32], k: usize, found: Option<Found>) -> usize
    requires { 9 * k + 9 * length (line_in found) ≤ length rows.old }
    ensures { (result ≡ k + length (line_in found)) × (rows.new ≡ paste rows.old (9 * k) (numbers_of (line_in found)) (9 * length (line_in found))) }
{
    match found {
        None => k,
        Some(line) => {
            let p = 9 * k;
            let e = p + 9;
            rows[p..e].copy_from_slice(&numbers(line));
            k + 1
        }
    }
}

fn fill(one: Side, two: Side, rows: &mut [u32])
    requires { 9 * length (lines_from ids 0 one.bundle.now two.bundle.now) ≤ length rows.old }
    ensures { rows.new ≡ numbers_of (lines_from ids 0 one.entry.bundle.now two.entry.bundle.now) ++ drop (9 * length (lines_from ids 0 one.entry.bundle.now two.entry.bundle.now)) rows.old }
{
    let mut low: usize = 0;
    let mut k: usize = 0;
    while low < IDS {
        let s = advance(one, two, low);
        k = keep(rows, k, s.found);
        low = s.low;
    }
}

// Two bundles by one key. The rows are nine numbers for each id that differs, rising: the id, then the state, kind, place and length of its value in the first bundle, and in
// the second. Refusals: the first bundle's number, the second's, 25 if the rows are too few; then no row is written.
pub fn compare(key: &[u8], first: &[u8], second: &[u8], rows: &mut [u32]) -> Compared
    ensures { Compares key.now first.now second.now rows.old result.code result.first result.second result.count rows.new }
{
    let one = bundle_reader::open(Edition::Second, key, first);
    let two = bundle_reader::open(Edition::Second, key, second);
    if one.code != 0 {
        return Compared {
            code: one.code,
            first: one.code,
            second: two.code,
            count: 0,
        };
    }
    if two.code != 0 {
        let code = two.code;
        return Compared {
            code,
            first: 0,
            second: code,
            count: 0,
        };
    }
    let a = Side {
        seen: one,
        bundle: first,
    };
    let b = Side {
        seen: two,
        bundle: second,
    };
    let count = count_all(a, b);
    if rows.len() < 9 * count as usize {
        return Compared {
            code: u32::from(Refusal::ShortOutput),
            first: 0,
            second: 0,
            count,
        };
    }
    fill(a, b, rows);
    Compared {
        code: 0,
        first: 0,
        second: 0,
        count,
    }
}
