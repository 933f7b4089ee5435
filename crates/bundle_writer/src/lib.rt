// A writer of each edition for settings bundles, to bytes that are lent.
#![tactic(auto)]

mod judge;
mod put;

ghost use Rattle.std.specs.Prelude.{◌≡◌, true, ◌++◌, ◌≤◌, IfOk, length, drop};
ghost use Rattle.answers.specs.Refusals.{number};
ghost use Rattle.bundle_format.specs.Answers.{edition_number, total_in};
ghost use Rattle.bundle_format.specs.Format.{total_of, encode};
ghost use Rattle.bundle_format.specs.Writer.{list_of, good_rows, write_code, Writes};

use answers::Refusal;
use bundle_format::Edition;
use judge::good_rows;
use put::{put_tag, put_untagged};

// The refusals: 1, 24, 25; and of what is not refused the total length.
fn size(edition: u32, key: &[u8], rows: &[u32], pool: &[u8], room: usize) -> Result<usize, Refusal>
    ensures is { number result ≡ write_code edition key.now rows.now pool.now room }
    ensures total { IfOk result (λ n. n ≡ total_of (list_of rows.now pool.now)) }
{
    if key.len() != 16 {
        return Err(Refusal::BadKeyLength);
    }
    if !good_rows(edition, rows, pool) {
        return Err(Refusal::BadList);
    }
    let total = 24 + 12 * (rows.len() / 4) + pool.len();
    if room < total {
        return Err(Refusal::ShortOutput);
    }
    Ok(total)
}

// The bundle, in the first bytes of the output.
// Stays: edition, rows and pool one by one, as `write` is lent them: a record of the three would be made there once and taken apart in each function below.
fn put_bundle(edition: u32, key: &[u8], rows: &[u32], pool: &[u8], out: &mut [u8])
    requires key_len { length key.now ≡ 16 }
    requires pool_value { good_rows edition rows.now pool.now ≡ true }
    requires pool_in_bounds { total_of (list_of rows.now pool.now) ≤ length out.old }
    ensures { out.new ≡ encode key.now edition (list_of rows.now pool.now) ++ drop (total_of (list_of rows.now pool.now)) out.old }
{
    let (lent, _) = rows.as_chunks::<4>();
    let end = 8 + 12 * lent.len() + pool.len();
    put_untagged(&mut out[0..end], edition, lent, pool);
    put_tag(key, out, end);
}

// A list of an edition: rows of four numbers, id, kind, must-know, length, and the bodies one after the other in a pool. The bundle's total length, or a refusal, 1, 24,
// 25, and then nothing is written; bytes past the total always stay.
pub fn write(
    edition: Edition,
    key: &[u8],
    rows: &[u32],
    pool: &[u8],
    out: &mut [u8],
) -> Result<u32, Refusal>
    ensures { Writes (edition_number edition) key.now rows.now pool.now out.old (number result) (total_in result) out.new }
{
    let edition = u32::from(edition);
    let total = size(edition, key, rows, pool, out.len())?;
    put_bundle(edition, key, rows, pool, out);
    Ok(total as u32)
}
