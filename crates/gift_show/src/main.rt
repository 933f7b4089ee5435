// gift_show EDITION KEY: what a node of that edition, 1 or 2, sees of the bundle on standard input, as a list; or the refusal's number. What it writes of a bundle is proved in `bundle_text`, of any bytes.
#![tactic(auto)]

ghost use Rattle.std.specs.Prelude.{◌≤◌, length, IfOk};

use bundle_format::{Edition, Opened};
use bundle_reader::open;
use bundle_text::LINE_MOST;
use differ_text::Page;
use inputs::{read_named, read_whole};
use std::io;
use std::io::ErrorKind;
use std::rt::{Env, Files};
use std::str::from_utf8;

fn refuse(rt: &impl Print, code: u32) -> io::Result<()> {
    let mut out = [0u8; LINE_MOST];
    let mut page = Page::new(&mut out);
    page.put_all(b"refusal ");
    page.put_decimal(code as u64);
    page.put(b'\n');
    let n = page.len();
    rt.write_all(&out[..n])
}

fn show(rt: &impl Print, seen: Opened, bundle: &[u8]) -> io::Result<()> {
    let mut out = [0u8; LINE_MOST];
    let n = bundle_text::head(bundle_text::edition(bundle), seen.reader, &mut out);
    rt.write_all(&out[..n])?;
    for i in 0..seen.count {
        let n = bundle_text::line(seen, bundle, i, &mut out);
        rt.write_all(&out[..n])?;
    }
    Ok(())
}

fn tell(rt: &impl Print, seen: Opened, bundle: &[u8]) -> io::Result<()> {
    if seen.code != 0 {
        refuse(rt, seen.code)
    } else {
        show(rt, seen, bundle)
    }
}

// The node's edition: the first where the word after the program's name begins with a 1. The byte is there too where the word is longer.
fn asked_edition(rt: &impl Env) -> Edition {
    let mut word = [0u8; 1];
    let _ = rt.arg(1, &mut word);
    match word {
        [b'1'] => Edition::First,
        _ => Edition::Second,
    }
}

// The key of the file that the second word names. No file has the name that is missing, or longer than a path can be. A path is text here: one that is not UTF-8 is an error.
fn read_key<'a>(rt: &(impl Env + Files), key: &'a mut [u8]) -> io::Result<&'a [u8]>
    ensures { IfOk result (λ s. length s.now ≤ length key.old) }
{
    let mut path = [0u8; 4096];
    let n = rt.arg(2, &mut path).unwrap_or(0);
    match from_utf8(&path[..n]) {
        Ok(name) => Ok(read_named(rt, name, key)),
        Err(_) => Err(io::Error::from(ErrorKind::InvalidFilename)),
    }
}

fn main(rt: HostRuntime) -> io::Result<()> {
    let mut bundle = [0u8; 65536];
    let mut key = [0u8; 16];
    let edition = asked_edition(&rt);
    let key = read_key(&rt, &mut key)?;
    let bundle = read_whole(&mut rt.reader(), &mut bundle);
    tell(&rt, open(edition, key, bundle), bundle)
}
