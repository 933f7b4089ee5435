// The sliced rounds of GIFT-64, by 28 round words: four words, of which the low sixteen bits count; bit i of word j is bit j of nibble i. The boxes are those of GIFT-128.
// Sixteen nibbles are four rows of four. In word j, P turns rows into columns and then exchanges row h with row j - h, counted round. The turning is the same in all four words,
// so it is left out: after every other round the words stand turned, and the exchange is of columns there and of rows on the way back.
ghost use Rattle.std.specs.Prelude.{◌≡◌, cond, ltb, length};
ghost use Rattle.published.specs.Gift64.{rounds64, unrounds64};
ghost use Rattle.primitives.specs.Packed.{block_of64};
ghost use Rattle.gift64.specs.Inner.{moved_by, keyed_of, standing, subround, unsubround, constant_word, pairs_in, rounds_by};

use primitives::{State, swapmovesingle};
use quintuple::{exchanged, inv_sbox, sbox};

// Each column h exchanged with column j - h in word j.
fn columns(s: State) -> State
    ensures { result ≡ moved_by 0 s }
{
    let s0 = swapmovesingle(s.s0, 0x2222, 2);
    let s1 = swapmovesingle(s.s1, 0x5555, 1);
    let s2 = swapmovesingle(s.s2, 0x1111, 2);
    let t3 = swapmovesingle(s.s3, 0x5555, 1);
    let s3 = swapmovesingle(t3, 0x3333, 2);
    State { s0, s1, s2, s3 }
}

// Each row h exchanged with row j - h in word j.
fn rows(s: State) -> State
    ensures { result ≡ moved_by 1 s }
{
    let s0 = swapmovesingle(s.s0, 0x00f0, 8);
    let s1 = swapmovesingle(s.s1, 0x0f0f, 4);
    let s2 = swapmovesingle(s.s2, 0x000f, 8);
    let t3 = swapmovesingle(s.s3, 0x0f0f, 4);
    let s3 = swapmovesingle(t3, 0x00ff, 8);
    State { s0, s1, s2, s3 }
}

// A round word has V in its low half and U in the upper one.
fn keyed(s: State, w: u32, c: u32) -> State
    ensures { result ≡ keyed_of s w c }
{
    State {
        s0: s.s0 ^ w,
        s1: s.s1 ^ (w >> 16),
        s2: s.s2,
        s3: s.s3 ^ c,
    }
}

// How the words stand before a round; after it they stand the other way.
#[derive(Clone, Copy)]
enum Stand {
    Packed,
    Turned,
}

impl Stand {
    fn exchange(self, s: State) -> State
        ensures { result ≡ moved_by (standing self) s }
    {
        match self {
            Stand::Packed => columns(s),
            Stand::Turned => rows(s),
        }
    }

    fn round(self, s: State, w: u32, c: u32) -> State
        ensures { result ≡ subround (standing self) s w c }
    {
        keyed(self.exchange(exchanged(sbox(s))), w, c)
    }

    // The same undone: each exchange undoes itself.
    fn unround(self, s: State, w: u32, c: u32) -> State
        ensures { result ≡ unsubround (standing self) s w c }
    {
        exchanged(inv_sbox(self.exchange(keyed(s, w, c))))
    }
}

// The round constants as words: the flipped bit on top, and turned in every other round.
const CONSTANTS: [u32; 28] = [
    0x8001, 0x8003, 0x8111, 0x800f, 0x9113, 0x803e, 0x9123, 0x803b, 0x8133, 0x802f, 0x9112, 0x803c,
    0x9023, 0x8033, 0x8131, 0x800e, 0x9103, 0x803a, 0x8123, 0x802b, 0x8112, 0x802c, 0x9002, 0x8030,
    0x8021, 0x8002, 0x8101, 0x800b,
];

// The word of round r, from 0. Past the last there is none, and the answer is 0.
fn round_constant(r: usize) -> u32
    ensures { result ≡ cond (ltb r 28) (constant_word r) 0 }
{
    if r < 28 { CONSTANTS[r] } else { 0 }
}

// The twenty-eight rounds, two at a time.
fn encrypt_state(s: State, words: &[u32; 28]) -> State
    ensures { block_of64 result ≡ rounds64 (pairs_in 28 0 words.now) 0 (block_of64 s) }
{
    let mut state = s;
    // Stays: an index, here and on the way back, since two rounds are a turn, each with its own word and constant.
    for i in 0..14 {
        let c = round_constant(2 * i);
        let d = round_constant(2 * i + 1);
        let t = Stand::Packed.round(state, words[2 * i], c);
        state = Stand::Turned.round(t, words[2 * i + 1], d);
    }
    state
}

// And undone, the last first.
fn decrypt_state(s: State, words: &[u32; 28]) -> State
    ensures { block_of64 result ≡ unrounds64 (pairs_in 28 0 words.now) 0 (block_of64 s) }
{
    let mut state = s;
    for i in (0..14).rev() {
        let c = round_constant(2 * i);
        let d = round_constant(2 * i + 1);
        let t = Stand::Turned.unround(state, words[2 * i + 1], d);
        state = Stand::Packed.unround(t, words[2 * i], c);
    }
    state
}

// Encrypting and decrypting differ in this alone: whether the rounds are done or undone.
pub(crate) fn through(s: State, words: &[u32; 28], back: bool) -> State
    ensures { block_of64 result ≡ rounds_by back words.now (block_of64 s) }
{
    if back {
        return decrypt_state(s, words);
    }
    encrypt_state(s, words)
}
