// The parts of a bundle, written to bytes that are as many as they take.
ghost use Rattle.std.specs.Prelude.{◌≡◌, ◌++◌, ◌+◌, ◌*◌, ◌≤◌, length, take, drop};
ghost use Rattle.bundle_format.specs.Format.{header, row_bytes, table_of, first_body, untagged, tag_of};
ghost use Rattle.bundle_writer.specs.Inner.{settings_in, sizes_in, lent_rows};

use crate::judge::lent_row;
use bundle_format::Row;

fn header(edition: u32, count: u32, total: u32) -> [u8; 8]
    ensures { result ≡ header edition count total }
{
    let [_, _, e0, e1] = edition.to_be_bytes();
    let [_, _, n0, n1] = count.to_be_bytes();
    let [t0, t1, t2, t3] = total.to_be_bytes();
    [e0, e1, n0, n1, t0, t1, t2, t3]
}

fn row_bytes(row: Row) -> [u8; 12]
    ensures { result ≡ row_bytes row }
{
    let [i0, i1, i2, i3] = row.id.to_be_bytes();
    let [a0, a1, a2, a3] = row.at.to_be_bytes();
    let [_, _, l0, l1] = row.len.to_be_bytes();
    let [_, _, _, kind] = row.kind.to_be_bytes();
    let [_, _, _, must] = row.must.to_be_bytes();
    [i0, i1, i2, i3, a0, a1, a2, a3, l0, l1, kind, must]
}

// The table of rows, the first body at `first`.
fn put_table(out: &mut [u8], rows: &[[u32; 4]], first: u32)
    requires out_len { length out.old ≡ 12 * length rows.now }
    requires rows_bound { first + sizes_in rows.now ≤ 65536 }
    ensures { out.new ≡ table_of (lent_rows first rows.now) }
{
    let mut at = first;
    for (i, row) in rows.iter().enumerate() {
        let entry = lent_row(row, at);
        let p = 12 * i;
        out[p..p + 12].copy_from_slice(&row_bytes(entry));
        at += entry.len;
    }
}

// Bytes copied.
// Stays: a loop by hand. `copy_from_slice` from one lent place to another, which the compiler cannot tell apart, makes the archive call `memmove`, and a host is told
// that it calls nothing but memcpy and memset.
fn put_bytes(out: &mut [u8], bytes: &[u8])
    requires { length out.old ≡ length bytes.now }
    ensures { out.new ≡ bytes.now }
{
    for (i, b) in out.iter_mut().enumerate() {
        *b = bytes[i];
    }
}

// All before the tag.
pub(crate) fn put_untagged(out: &mut [u8], edition: u32, rows: &[[u32; 4]], pool: &[u8])
    requires rows_value { sizes_in rows.now ≡ length pool.now }
    requires out_len { length out.old ≡ first_body (length rows.now) + length pool.now }
    requires out_len_bound { length out.old ≤ 65520 }
    ensures { out.new ≡ untagged edition (settings_in rows.now pool.now) }
{
    let first = 8 + 12 * rows.len();
    let end = first + pool.len();
    let total = end + 16;
    out[0..8].copy_from_slice(&header(edition, rows.len() as u32, total as u32));
    put_table(&mut out[8..first], rows, first as u32);
    put_bytes(&mut out[first..end], pool);
}

// The tag of all before `end`, there.
pub(crate) fn put_tag(key: &[u8], out: &mut [u8], end: usize)
    requires key_len { length key.now ≡ 16 }
    requires end_in_bounds { end + 16 ≤ length out.old }
    ensures { out.new ≡ take end out.old ++ tag_of key.now (take end out.old) ++ drop (end + 16) out.old }
{
    let mut tag = [0u8; 16];
    let _ = cmac::whole(key, &out[0..end], &mut tag);
    let total = end + 16;
    out[end..total].copy_from_slice(&tag);
}
