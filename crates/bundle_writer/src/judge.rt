// Whether lent rows and a pool are a list that a bundle of an edition can hold.
ghost use Rattle.std.specs.Prelude.{◌≡◌, ◌≤◌, length};
ghost use Rattle.bundle_format.specs.Format.{good_setting, good_from};
ghost use Rattle.bundle_format.specs.Writer.{good_rows};
ghost use Rattle.bundle_writer.specs.Inner.{settings_in, sizes_in, lent_row};

use bundle_format::{Row, good_value, knows_kind};

// The entry of a row, its body at `at`.
pub(crate) fn lent_row(row: &[u32; 4], at: u32) -> Row
    ensures { result ≡ lent_row at row.now }
{
    let [id, kind, must, len] = *row;
    Row {
        id,
        at,
        len,
        kind,
        must,
    }
}

// How many bytes rows say that they have.
fn size_of(rows: &[[u32; 4]]) -> usize
    requires { length rows.now ≤ 256 }
    ensures { result ≡ sizes_in rows.now }
{
    let mut sum: usize = 0;
    for row in rows {
        sum += row[3] as usize;
    }
    sum
}

// A setting of the edition, with an id that is `low` at least.
fn good_setting(edition: u32, low: usize, row: Row, body: &[u8]) -> bool
    ensures { result ≡ good_setting edition low (record { id = row.id; kind = row.kind; must = row.must; body = body.now }) }
{
    if (row.id as usize) < low {
        return false;
    }
    if !knows_kind(edition, row.kind) {
        return false;
    }
    if !good_value(row.kind, body) {
        return false;
    }
    row.must <= 1
}

fn good_settings(edition: u32, rows: &[[u32; 4]], pool: &[u8]) -> bool
    requires { sizes_in rows.now ≡ length pool.now }
    ensures { result ≡ good_from edition 0 (settings_in rows.now pool.now) }
{
    let mut low: usize = 0;
    let mut rest = pool;
    for row in rows {
        let setting = lent_row(row, 0);
        let (body, after) = rest.split_at(setting.len as usize);
        if !good_setting(edition, low, setting, body) {
            return false;
        }
        low = setting.id as usize + 1;
        rest = after;
    }
    true
}

// 24: whole rows, at most 256, a pool as long as they say, at most 65,536 bytes in all, and then the settings.
pub(crate) fn good_rows(edition: u32, rows: &[u32], pool: &[u8]) -> bool
    ensures { result ≡ good_rows edition rows.now pool.now }
{
    let (lent, left) = rows.as_chunks::<4>();
    if left.len() != 0 {
        return false;
    }
    if 256 < lent.len() {
        return false;
    }
    if size_of(lent) != pool.len() {
        return false;
    }
    if 65512 - 12 * lent.len() < pool.len() {
        return false;
    }
    good_settings(edition, lent, pool)
}
