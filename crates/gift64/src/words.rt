// The 28 round words of a key: V in the low half and U in the upper one, those of every other round turned. The key state is stepped as GIFT-128's is.
ghost use Rattle.std.specs.Prelude.{◌≡◌, length};
ghost use Rattle.published.specs.Gift64.{pairs_of64};
ghost use Rattle.primitives.specs.Words.{permuted};
ghost use Rattle.gift64.specs.Inner.{turn, two_later, pairs_in};

use key_schedule::{Four, key_update, key_words};
use primitives::swapmovesingle;

// Rows for columns, in each half.
fn turned(w: u32) -> u32
    ensures { result ≡ permuted turn w }
{
    let a = swapmovesingle(w, 0x0a0a0a0a, 3);
    swapmovesingle(a, 0x00cc00cc, 6)
}

// The words of a key state k: k1 ‖ k0 and k5 ‖ k4, then k3 ‖ k2 and k7 ‖ k6. Two rounds later:
fn two_later(k: Four) -> Four
    ensures { result ≡ two_later k }
{
    let a = key_update(k.v0);
    let b = key_update(k.v1);
    Four {
        v0: k.u0,
        u0: a,
        v1: k.u1,
        u1: b,
    }
}

pub(crate) fn expand(key: &[u8]) -> [u32; 28]
    requires { length key.now ≡ 16 }
    ensures { pairs_in 28 0 result ≡ pairs_of64 key.now }
{
    let mut k = key_words(key);
    let mut words = [0u32; 28];
    // Stays: an index, since two words are written at a turn, and after a write through `as_chunks_mut` a proof knows no element.
    for i in 0..14 {
        words[2 * i] = turned(k.v0);
        words[2 * i + 1] = k.v1;
        k = two_later(k);
    }
    words
}
