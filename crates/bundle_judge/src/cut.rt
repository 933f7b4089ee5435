// Numbers and entries cut out of a bundle's bytes.
ghost use Rattle.std.specs.Prelude.{◌≡◌, ◌+◌, ◌≤◌, length};
ghost use Rattle.bundle_format.specs.Reader.{number_at, row_of};
ghost use Rattle.bundle_judge.specs.Inner.{entries_in};

use bundle_format::Row;

// A number of two bytes, and of four.
pub(crate) fn number2(b: &[u8], at: usize) -> u16
    requires { at + 2 ≤ length b.now }
    ensures { result ≡ number_at 2 at b.now }
{
    u16::from_be_bytes([b[at], b[at + 1]])
}

pub(crate) fn number4(b: &[u8], at: usize) -> u32
    requires { at + 4 ≤ length b.now }
    ensures { result ≡ number_at 4 at b.now }
{
    u32::from_be_bytes([b[at], b[at + 1], b[at + 2], b[at + 3]])
}

// The entry that twelve bytes are.
pub fn row_of(entry: &[u8; 12]) -> Row
    ensures { result ≡ row_of entry.now }
{
    let [i0, i1, i2, i3, a0, a1, a2, a3, l0, l1, kind, must] = *entry;
    Row {
        id: u32::from_be_bytes([i0, i1, i2, i3]),
        at: u32::from_be_bytes([a0, a1, a2, a3]),
        len: u32::from(u16::from_be_bytes([l0, l1])),
        kind: u32::from(kind),
        must: u32::from(must),
    }
}

// The first `count` entries of the table, or as many as the bytes have room for after the header.
pub fn table(b: &[u8], count: usize) -> &[[u8; 12]]
    ensures { result.now ≡ entries_in count b.now }
{
    if b.len() < 8 {
        return &[];
    }
    let (entries, _) = b[8..].as_chunks::<12>();
    &entries[..count.min(entries.len())]
}
