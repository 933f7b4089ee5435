// Eighty round words and the forty pairs U, V that they stand for: the four rearrangements of key_schedule.rs, and, for whoever makes its own words, each as the other.
#![tactic(auto)]

ghost use Rattle.std.specs.Prelude.{◌≡◌, ◌<◌, length, ⊤, MatchResult};
ghost use Rattle.answers.specs.Outcome.{Gives};
ghost use Rattle.answers.specs.Refusals.{number};
ghost use Rattle.round_words.specs.Arranged.{arranged};
ghost use Rattle.round_words.specs.Calls.{row_code, TellsPairs, TellsWords};
ghost use Rattle.round_words.specs.Inner.{place_in, rearranged, swapped_by};

use answers::Refusal;
use primitives::swapmovesingle;

// Exchanges of bits, one after the other: those under each mask with those so many places above.
fn swapped(x: u32, swaps: &[(u32, u32)]) -> u32
    ensures { result ≡ swapped_by swaps.now x }
{
    swaps.iter().fold(x, |w, s| swapmovesingle(w, s.0, s.1))
}

// Stays: the four names, each a table for `swapped`, as what may not change: docs/CLAIMS.md has `rearrange_rkey_0` .. `3`.
pub fn rearrange_rkey_0(x: u32) -> u32
    ensures { result ≡ arranged 1 x }
{
    swapped(
        x,
        &[
            (0x00550055, 9),
            (0x000f000f, 12),
            (0x00003333, 18),
            (0x000000ff, 24),
        ],
    )
}

pub fn rearrange_rkey_1(x: u32) -> u32
    ensures { result ≡ arranged 2 x }
{
    swapped(
        x,
        &[
            (0x11111111, 3),
            (0x03030303, 6),
            (0x000f000f, 12),
            (0x000000ff, 24),
        ],
    )
}

pub fn rearrange_rkey_2(x: u32) -> u32
    ensures { result ≡ arranged 3 x }
{
    swapped(
        x,
        &[
            (0x0000aaaa, 15),
            (0x00003333, 18),
            (0x0000f0f0, 12),
            (0x000000ff, 24),
        ],
    )
}

pub fn rearrange_rkey_3(x: u32) -> u32
    ensures { result ≡ arranged 4 x }
{
    swapped(
        x,
        &[
            (0x0a0a0a0a, 3),
            (0x00cc00cc, 6),
            (0x0000f0f0, 12),
            (0x000000ff, 24),
        ],
    )
}

// Stays: a switch on the arrangement's number, since the new form is no plainer: an enum of five would be made of `i / 2 % 5` and taken apart by the same match.
// A word put into arrangement k. Before the first round and after the fifth it is kept as it is.
fn arrange(k: usize, w: u32) -> u32
    requires { k < 6 }
    ensures { result ≡ arranged k w }
{
    match k {
        1 => rearrange_rkey_0(w),
        2 => rearrange_rkey_1(w),
        3 => rearrange_rkey_2(w),
        4 => rearrange_rkey_3(w),
        _ => w,
    }
}

// The arrangement that makes word i of the number in its place, and the one that makes the number of the word: the two add up to five.
#[tactic(auto, unfolding(crate::specs::Inner::place_in))]
fn place(back: bool, i: usize) -> usize
    ensures { result ≡ place_in back i }
{
    if back {
        return 4 - i / 2 % 5;
    }
    i / 2 % 5 + 1
}

fn rearrange(back: bool, given: &[u32; 80], out: &mut [u32; 80])
    ensures { out.new ≡ rearranged back given.now }
{
    for (i, word) in out.iter_mut().enumerate() {
        *word = arrange(place(back, i), given[i]);
    }
}

// The eighty numbers, where neither they nor the room for as many are refused: 4, 3.
#[tactic(auto, unfolding(crate::specs::Calls::row_code))]
fn row_code(given: &[u32], out: usize) -> Result<&[u32; 80], Refusal>
    ensures code { number result ≡ row_code (length given.now) out }
    ensures kept { MatchResult result (λ kept. kept.now ≡ given.now) (λ _. ⊤) }
{
    let kept = given.as_array().ok_or(Refusal::BadWordCount)?;
    if out != 80 {
        return Err(Refusal::BadOutputLength);
    }
    Ok(kept)
}

// Eighty numbers rearranged, two for each of the forty rounds.
#[tactic(auto, unfolding(crate::specs::Calls::row_code))]
fn row(back: bool, given: &[u32], out: &mut [u32]) -> Result<(), Refusal>
    ensures { Gives (row_code (length given.now) (length out.old)) (rearranged back given.now) out.old (number result) out.new }
{
    let given = row_code(given, out.len())?;
    // There are eighty places, as `row_code` has seen.
    if let Some(out) = out.as_mut_array() {
        rearrange(back, given, out);
    }
    Ok(())
}

// The forty pairs that eighty words stand for, V and then U of each round. Refusals: 4, 3.
pub fn pairs(words: &[u32], out: &mut [u32]) -> Result<(), Refusal>
    ensures { TellsPairs words.now out.old (number result) out.new }
{
    row(true, words, out)
}

// The eighty words that stand for forty pairs, V and then U of each round. Refusals: 4, 3.
pub fn words(pairs: &[u32], out: &mut [u32]) -> Result<(), Refusal>
    ensures { TellsWords pairs.now out.old (number result) out.new }
{
    row(false, pairs, out)
}
