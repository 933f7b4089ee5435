// Reads first.bundle, second.bundle and key in the folder where it is run, and writes where the two bundles differ. What it writes is proved in `differ_text`, of any bytes.
#![tactic(auto)]

ghost use Rattle.std.specs.Prelude.{◌≤◌};

use differ::Compared;
use differ_text::LINE_MOST;
use inputs::read_named;
use std::io;

fn show(
    rt: &impl Print,
    compared: Compared,
    rows: &[u32],
    first: &[u8],
    second: &[u8],
) -> io::Result<()>
    requires { compared.count ≤ 512 }
{
    let mut out = [0u8; LINE_MOST];
    for k in 0..=compared.count {
        let n = differ_text::piece(compared, rows, k, first, second, &mut out);
        rt.write_all(&out[..n])?;
    }
    Ok(())
}

fn compare(rt: &impl Print, key: &[u8], first: &[u8], second: &[u8]) -> io::Result<()> {
    let mut rows = [0u32; 4608];
    let compared = differ::compare(key, first, second, &mut rows);
    show(rt, compared, &rows, first, second)
}

fn main(rt: HostRuntime) -> io::Result<()> {
    let mut first = [0u8; 65536];
    let mut second = [0u8; 65536];
    let mut key = [0u8; 16];
    let first = read_named(&rt, "first.bundle", &mut first);
    let second = read_named(&rt, "second.bundle", &mut second);
    let key = read_named(&rt, "key", &mut key);
    compare(&rt, key, first, second)
}
