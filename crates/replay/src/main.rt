// Replays cases: makes each call that a line names, and compares what it gives and leaves with what the line says.
//
// A line of standard input is a case, the name of a call and fields (text.rt), or `## TEXT`, a heading, under which the cases after it are
// counted, or `# TEXT`, a remark, or it tells a record of the bench (benches.rt). The last line of the output says how many cases were
// equal and how many different. The cases that the gate replays stand in the file stdin beside src/.
#![tactic(auto)]

mod benches;
mod bundles;
mod cipher;
mod gift64s;
mod macs;
mod streams;
mod text;

use bench::{Bench, LANES};
use std::io;
use std::io::{BufReader, Read};
use text::Line;

// How long a line can be.
const LINE: usize = 4096;

// How many cases were equal and how many different, how many were equal before the last heading, the bench, and the bench as it is to be
// after the next call.
#[derive(Clone, Copy)]
struct Run {
    equal: u64,
    different: u64,
    before: u64,
    bench: Bench,
    told: Bench,
}

// Ends a heading's line with its count.
fn closed(rt: &impl Print, r: Run) -> io::Result<()> {
    if r.before < r.equal {
        println!(rt; "{} equal", r.equal - r.before)?;
    }
    Ok(())
}

fn headed(rt: &impl Print, r: Run, line: Line) -> io::Result<Run> {
    closed(rt, r)?;
    rt.write_all(line.text)?;
    rt.write_all(b": ")?;
    let mut q = r;
    q.before = r.equal;
    Ok(q)
}

fn counted(rt: &impl Print, r: Run, right: bool, line: Line) -> io::Result<Run> {
    let mut q = r;
    if right {
        q.equal = r.equal.wrapping_add(1);
        return Ok(q);
    }
    q.different = r.different.wrapping_add(1);
    rt.write_all(line.text)?;
    rt.write_all(b" differs\n")?;
    Ok(q)
}

// The records that are told become the bench, whatever the call made of it: a difference is told once.
fn on_bench(rt: &impl Print, r: Run, line: Line) -> io::Result<Run> {
    let bench = r.bench;
    let mut told = r.told;
    told.last = line.number(b"last");
    let mut q = r;
    q.bench = told;
    q.told = told;
    if line.name() == "put" {
        return Ok(q);
    }
    counted(rt, q, benches::right(line.name(), bench, told, line), line)
}

// A record that the bench does not have is a difference.
fn recorded(rt: &impl Print, r: Run, line: Line) -> io::Result<Run> {
    if LANES <= line.number(b"lane") as usize {
        return counted(rt, r, false, line);
    }
    let told = benches::told(r.told, line);
    let mut q = r;
    q.told = told;
    Ok(q)
}

// A name is one module's alone. They are asked one after another, and each looks at the name before it reads a field: most of a case's time
// is the reading of its fields.
fn right(name: &str, line: Line) -> bool {
    if let Some(right) = macs::right(name, line) {
        return right;
    }
    if let Some(right) = streams::right(name, line) {
        return right;
    }
    if let Some(right) = gift64s::right(name, line) {
        return right;
    }
    if let Some(right) = bundles::right(name, line) {
        return right;
    }
    cipher::right(name, line)
}

fn judged(rt: &impl Print, r: Run, line: Line) -> io::Result<Run> {
    match line.name() {
        "open_lane" | "turn" | "close" | "take" | "fresh" | "put" => on_bench(rt, r, line),
        "record" => recorded(rt, r, line),
        "#" => Ok(r),
        "##" => headed(rt, r, line),
        name => counted(rt, r, right(name, line), line),
    }
}

// Judges each line of an input. One that is too long is cut: the byte after the cut is passed over, and what is left of the line is no call.
fn replayed<R: Read + Drop>(rt: &impl Print, start: Run, input: R) -> io::Result<Run> {
    let mut r = start;
    let mut line = [0u8; LINE];
    let mut n = 0;
    for byte in input.bytes() {
        let byte = byte?;
        if byte == b'\n' || n == LINE {
            r = judged(rt, r, Line { text: &line[..n] })?;
            n = 0;
        } else {
            line[n] = byte;
            n += 1;
        }
    }
    if n == 0 {
        return Ok(r);
    }
    judged(rt, r, Line { text: &line[..n] })
}

fn main(rt: HostRuntime) -> io::Result<()> {
    let input = BufReader::new(rt.alloc(), rt.reader())?;
    let bench = bench::fresh();
    let start = Run {
        equal: 0,
        different: 0,
        before: 0,
        bench,
        told: bench,
    };
    let r = replayed(&rt, start, input)?;
    closed(&rt, r)?;
    println!(rt; "{} cases equal, {} different", r.equal, r.different)
}
