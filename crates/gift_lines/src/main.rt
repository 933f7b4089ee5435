// The line program: feeds the bytes of standard input to `lines`, and writes what comes. What it answers is proved there, for every input.
#![tactic(auto)]

ghost use Rattle.std.specs.Prelude.{◌^◌, ◌<◌, length, IfSome, OnOk};
ghost use Rattle.std.specs.Io.KnownBytes.{Appends};
ghost use Rattle.lines.specs.Input.{output_of};

use lines::Reader;
use std::io;
use std::io::{BufReader, Read, Write};
use std::process::ExitCode;

// Where reading or writing fails there is no closing line: it counts all lines, and here not all are known.
fn answer<R: Read + Drop, W: Write>(input: R, out: &mut W) -> io::Result<()>
    ensures { OnOk result (IfSome (R.remaining input) (λ xs. length xs < 2 ^ 64
        → Appends (W.contents out.old) (W.contents out.new) (output_of xs))) }
{
    out.write_all(lines::first_line().as_bytes())?;
    let mut reader = Reader::fresh();
    for byte in input.bytes() {
        let text = reader.feed(byte?);
        out.write_all(text.as_bytes())?;
    }
    out.write_all(reader.closing().as_bytes())
}

fn run<R: Input + Print + Alloc>(rt: &R) -> io::Result<()> {
    let input = BufReader::new(rt.alloc(), rt.reader())?;
    answer(input, &mut io::writer(rt))
}

// A failure is told on standard error, where `./gift lines` sees it.
fn main(rt: HostRuntime) -> ExitCode {
    match run(&rt) {
        Ok(()) => ExitCode::SUCCESS,
        Err(_) => {
            let _ = rt.eprintln(
                "gift-lines: reading or writing failed, so the answer is not whole",
            );
            ExitCode::FAILURE
        }
    }
}
