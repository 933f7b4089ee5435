// What some bytes are as a bundle, but for its tag: their size, the tests that come after the tag, and the entries cut out of them.
#![tactic(auto)]

mod cut;
mod layout;

ghost use Rattle.std.specs.Prelude.{◌≡◌, IfOk};
ghost use Rattle.answers.specs.Refusals.{number};
ghost use Rattle.bundle_format.specs.Reader.{count_of, right_size};
ghost use Rattle.bundle_judge.specs.Inner.{judged_code, count_in};

use answers::Refusal;
pub use cut::{row_of, table};
use cut::{number2, number4};
use layout::{all_known, well_formed};

// 20: from 24 bytes to 65,536, and as many as the header says.
pub fn right_size(b: &[u8]) -> bool
    ensures { result ≡ right_size b.now }
{
    if b.len() < 24 {
        return false;
    }
    if 65536 < b.len() {
        return false;
    }
    number4(b, 4) as usize == b.len()
}

// How many entries the header tells of, and 0 where the bytes end before.
pub fn count_of(b: &[u8]) -> u32
    ensures { result ≡ count_in b.now }
{
    if b.len() < 4 {
        return 0;
    }
    u32::from(number2(b, 2))
}

// The refusals after the tag, 22 and 23; and of what is not refused how many entries it has.
pub fn judge(reader: u32, b: &[u8]) -> Result<u32, Refusal>
    ensures is { number result ≡ judged_code reader b.now }
    ensures count { IfOk result (λ n. n ≡ count_of b.now) }
{
    if !well_formed(reader, b) {
        return Err(Refusal::Malformed);
    }
    let count = count_of(b);
    if !all_known(reader, table(b, count as usize)) {
        return Err(Refusal::MustKnow);
    }
    Ok(count)
}
