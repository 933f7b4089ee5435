// Whether a bundle is well formed, and whether a reader knows all that must be known.
ghost use Rattle.std.specs.Prelude.{◌≡◌, not, ◌&&◌, ◌||◌, ◌≤◌, eqb, ltb, length, map};
ghost use Rattle.bundle_format.specs.Format.{knows, first_body};
ghost use Rattle.bundle_format.specs.Reader.{edition_of, end_of, row_of, body_at, in_place, in_kind, sound_rows, well_formed, all_known};

use crate::cut::{number2, row_of, table};
use bundle_format::{Row, good_value, knows_kind};

// An entry in its place.
fn in_place(end: usize, low: usize, at: usize, row: Row) -> bool
    requires { at ≤ end }
    ensures { result ≡ in_place end low at row }
{
    if (row.id as usize) < low {
        return false;
    }
    if row.at as usize != at {
        return false;
    }
    if end - at < row.len as usize {
        return false;
    }
    row.must <= 1
}

// A kind that the bundle's edition has, if that is the reader's or an earlier one.
fn own_kind(reader: u32, edition: u32, kind: u32) -> bool
    ensures { result ≡ (ltb reader edition || knows edition kind) }
{
    reader < edition || knows_kind(edition, kind)
}

fn in_kind(reader: u32, edition: u32, kind: u32, body: &[u8]) -> bool
    ensures { result ≡ in_kind reader edition kind body.now }
{
    own_kind(reader, edition, kind) && (!knows_kind(reader, kind) || good_value(kind, body))
}

fn sound_row(reader: u32, edition: u32, b: &[u8], low: usize, at: usize, row: Row) -> bool
    requires in_bounds { 16 ≤ length b.now }
    requires at_bound { at ≤ end_of b.now }
    ensures { result ≡ (in_place (end_of b.now) low at row && in_kind reader edition row.kind (body_at b.now row)) }
{
    let end = b.len() - 16;
    if !in_place(end, low, at, row) {
        return false;
    }
    let start = row.at as usize;
    let stop = start + row.len as usize;
    in_kind(reader, edition, row.kind, &b[start..stop])
}

// All entries, from the first on.
fn sound_rows(reader: u32, edition: u32, b: &[u8], entries: &[[u8; 12]]) -> bool
    requires in_bounds { 16 ≤ length b.now }
    requires count_bound { first_body (length entries.now) ≤ end_of b.now }
    requires edition_value { edition ≡ edition_of b.now }
    ensures { result ≡ sound_rows reader b.now 0 (first_body (length entries.now)) (map row_of entries.now) }
{
    let mut low: usize = 0;
    let mut at: usize = 8 + 12 * entries.len();
    for entry in entries {
        let row = row_of(entry);
        if !sound_row(reader, edition, b, low, at, row) {
            return false;
        }
        low = row.id as usize + 1;
        at += row.len as usize;
    }
    at == b.len() - 16
}

// 22: room for a header and a tag, the header's numbers, and then the entries.
pub(crate) fn well_formed(reader: u32, b: &[u8]) -> bool
    ensures { result ≡ well_formed reader b.now }
{
    if b.len() < 24 {
        return false;
    }
    let edition = u32::from(number2(b, 0));
    if edition < 1 {
        return false;
    }
    let count = number2(b, 2) as usize;
    if 256 < count {
        return false;
    }
    if b.len() - 16 < 8 + 12 * count {
        return false;
    }
    sound_rows(reader, edition, b, table(b, count))
}

fn knows_row(reader: u32, row: Row) -> bool
    ensures { result ≡ (not (eqb row.must 1) || knows reader row.kind) }
{
    row.must != 1 || knows_kind(reader, row.kind)
}

// 23: every entry that must be known.
pub(crate) fn all_known(reader: u32, entries: &[[u8; 12]]) -> bool
    ensures { result ≡ all_known reader (map row_of entries.now) }
{
    for entry in entries {
        if !knows_row(reader, row_of(entry)) {
            return false;
        }
    }
    true
}
