// An input read whole into a lent buffer.
#![tactic(auto)]

ghost use Rattle.std.specs.Prelude.{◌≤◌, length};

use std::fs::File;
use std::io::Read;
use std::rt::Files;

// Reads until the buffer is full, the input ends or a read fails, and tells how many bytes that gave.
// Stays: a count of what was read, for no call of the library takes a failed read for the input's end.
fn read_full<R: Read>(input: &mut R, buffer: &mut [u8]) -> usize
    ensures { result ≤ length buffer.new }
{
    let mut done = 0;
    while done < buffer.len() {
        match input.read(&mut buffer[done..]) {
            Ok(0) | Err(_) => break,
            Ok(n) => done += n,
        }
    }
    done
}

// All bytes of an input that fit; none of a longer one: a bundle of no bytes is refused with 20, and a key with 1.
pub fn read_whole<'a, R: Read>(input: &mut R, buffer: &'a mut [u8]) -> &'a [u8]
    ensures { length result.now ≤ length buffer.old }
{
    let count = read_full(input, buffer);
    let mut probe = [0u8; 1];
    match input.read(&mut probe) {
        Ok(0) => &buffer[..count],
        _ => &buffer[..0],
    }
}

// The same of a file; none of one that is missing, a folder or unreadable.
pub fn read_named<'a>(rt: &impl Files, name: &str, buffer: &'a mut [u8]) -> &'a [u8]
    ensures { length result.now ≤ length buffer.old }
{
    match File::open(rt, name) {
        Ok(mut file) => read_whole(&mut file, buffer),
        Err(_) => &buffer[..0],
    }
}
