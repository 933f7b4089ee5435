// Sixty-four blocks at once, in slices: word q has bit q of every block. Nothing is arranged here: these are the published rounds, bit by bit, as document 01
// has them, on 64 blocks at a time; P is a matter of which word is written, and the key's bits are masks.
#![tactic(auto)]

ghost use Rattle.std.specs.Prelude.{◌≡◌, cond, ℕ, [], ◌+◌, ◌-◌, ◌*◌, ◌/◌, ◌%◌, ◌^◌, ◌<◌, length, get_or, eqb};
ghost use Rattle.published.specs.Blocks.{all_of};
ghost use Rattle.published.specs.Gift128.{rounds128, unrounds128, rounds_all};
ghost use Rattle.published.specs.Rounds.{P, entry, xored, constant_bit, constant, round, unround};
ghost use Rattle.published.specs.Inner.{unentry};
ghost use Rattle.published.specs.Seen.{seen};
ghost use Rattle.round_words.specs.Arranged.{pairs_from, nibble_at};
ghost use Rattle.eight.specs.Groups.{in_groups};
ghost use Rattle.slices.specs.InnerMasks.{masks_of, pair_in, pair_of, pairs_in, by_masks};
ghost use Rattle.slices.specs.Inner.{Lanes, Boxed, Scattered, keyed, Gathered, unkeyed, constant_bits, mask_by, MasksBy};

use eight::{groups, in_groups};
use turning::{from_slices, to_slices};

// ---- 1. the S-box

// Four slices: a nibble in every lane, s0 its lowest bit.
#[derive(Clone, Copy)]
struct Nibble {
    s0: u64,
    s1: u64,
    s2: u64,
    s3: u64,
}

fn sbox(s: Nibble) -> Nibble
    ensures { Boxed entry s result }
{
    let mut s0 = s.s0;
    let mut s1 = s.s1;
    let mut s2 = s.s2;
    let mut s3 = s.s3;
    s1 ^= s0 & s2;
    s0 ^= s1 & s3;
    s2 ^= s0 | s1;
    s3 ^= s2;
    s1 ^= s3;
    s3 ^= 0xffffffffffffffff;
    s2 ^= s0 & s1;
    Nibble {
        s0: s3,
        s1,
        s2,
        s3: s0,
    }
}

fn inv_sbox(s: Nibble) -> Nibble
    ensures { Boxed unentry s result }
{
    let mut s0 = s.s0;
    let mut s1 = s.s1;
    let mut s2 = s.s2;
    let mut s3 = s.s3;
    s2 ^= s3 & s1;
    s0 ^= 0xffffffffffffffff;
    s1 ^= s0;
    s0 ^= s2;
    s2 ^= s3 | s1;
    s3 ^= s1 & s0;
    s1 ^= s3 & s2;
    Nibble {
        s0: s3,
        s1,
        s2,
        s3: s0,
    }
}

// ---- 1, 2 and 3: nibble n through the box, and its bits to four nibbles, keyed by V at b(4i+1) and by U at b(4i+2)

// Where P takes the bits of nibble n: bit 0 to nibble a, bit 1 to nibble b, bit 2 to nibble c and bit 3 to nibble d.
#[derive(Clone, Copy)]
struct Move {
    n: usize,
    a: usize,
    b: usize,
    c: usize,
    d: usize,
    ghost within: { (n < 32) × (a < 32) × (b < 32) × (c < 32) × (d < 32) },
    ghost goes: { (4 * a ≡ P 128 (4 * n)) × (4 * b + 1 ≡ P 128 (4 * n + 1)) × (4 * c + 2 ≡ P 128 (4 * n + 2)) × (4 * d + 3 ≡ P 128 (4 * n + 3)) },
}

// P: bit j of nibble 4g + h goes to nibble g + 8 * ((3h + j) mod 4). Written out for each h, because the compiler then sees four places and no arithmetic.
fn move_of(g: usize, h: usize) -> Move
    requires { (g < 8) × (h < 4) }
    ensures { result.n ≡ 4 * g + h }
{
    let (a, b, c, d) = (g, g + 8, g + 16, g + 24);
    match h {
        0 => Move {
            n: 4 * g,
            a,
            b,
            c,
            d,
        },
        1 => Move {
            n: 4 * g + 1,
            a: d,
            b: a,
            c: b,
            d: c,
        },
        2 => Move {
            n: 4 * g + 2,
            a: c,
            b: d,
            c: a,
            d: b,
        },
        _ => Move {
            n: 4 * g + 3,
            a: b,
            b: c,
            c: d,
            d: a,
        },
    }
}

fn scatter_nibble(x: &[u64; 128], y: &mut [u64; 128], key: &[u64; 64], m: Move)
    ensures { Scattered x.now key.now (4 * m.n) y.old → Scattered x.now key.now (4 * m.n + 4) y.new }
{
    let at = 4 * m.n;
    let s = Nibble {
        s0: x[at],
        s1: x[at + 1],
        s2: x[at + 2],
        s3: x[at + 3],
    };
    let t = sbox(s);
    // The key is read before the stores: for all that the compiler knows, they might change it.
    let v = key[m.b];
    let u = key[32 + m.c];
    y[4 * m.a] = t.s0;
    y[4 * m.b + 1] = t.s1 ^ v;
    y[4 * m.c + 2] = t.s2 ^ u;
    y[4 * m.d + 3] = t.s3;
}

fn scatter(x: &[u64; 128], y: &mut [u64; 128], key: &[u64; 64])
    ensures { Lanes (keyed key.now) x.now y.new }
{
    for g in 0..8 {
        for h in 0..4 {
            scatter_nibble(x, y, key, move_of(g, h));
        }
    }
}

// And undone: nibble n from the bits of the four.
fn gather_nibble(x: &[u64; 128], y: &mut [u64; 128], key: &[u64; 64], m: Move)
    ensures { Gathered x.now key.now (4 * m.n) y.old → Gathered x.now key.now (4 * m.n + 4) y.new }
{
    let s = Nibble {
        s0: x[4 * m.a],
        s1: x[4 * m.b + 1] ^ key[m.b],
        s2: x[4 * m.c + 2] ^ key[32 + m.c],
        s3: x[4 * m.d + 3],
    };
    let t = inv_sbox(s);
    let at = 4 * m.n;
    y[at] = t.s0;
    y[at + 1] = t.s1;
    y[at + 2] = t.s2;
    y[at + 3] = t.s3;
}

fn gather(x: &[u64; 128], y: &mut [u64; 128], key: &[u64; 64])
    ensures { Lanes (unkeyed key.now) x.now y.new }
{
    for g in 0..8 {
        for h in 0..4 {
            gather_nibble(x, y, key, move_of(g, h));
        }
    }
}

// ---- 4. the constant

// All ones if the word has the bit, which is given by its value; else all zeros.
fn mask(word: u32, one: u32) -> u64
    ensures { result ≡ mask_by word one }
{
    if word & one == 0 {
        0
    } else {
        0xffffffffffffffff
    }
}

// b23, b19, b15, b11, b7 and b3 are xored with c5 to c0.
// Stays: an index, since i is the bit of the constant as well as the place of its slice.
fn six_bits(y: &mut [u64; 128], c: u32)
    ensures { Lanes (λ b. xored 128 (constant_bits 6 c)) y.old y.new }
{
    for i in 0..6 {
        y[4 * i + 3] ^= mask(c, 1 << i);
    }
}

// b127 is flipped.
fn highest(y: &mut [u64; 128])
    ensures { Lanes (λ b. xored 128 (λ q. eqb q 127)) y.old y.new }
{
    y[127] ^= 0xffffffffffffffff;
}

fn add_constant(y: &mut [u64; 128], c: u32)
    ensures { Lanes (λ b. xored 128 (constant_bit 128 c)) y.old y.new }
{
    six_bits(y, c);
    highest(y);
}

// ---- a round, and a round undone; x is used up
// Stays: a function each way, above and below: the box, the places that are read and the order of the steps are others, and document 01 has two calls.

fn round(x: &mut [u64; 128], y: &mut [u64; 128], key: &[u64; 64], c: u32)
    ensures { Lanes (λ b. round 128 1 (pair_in key.now b) c) x.old y.new }
{
    scatter(x, y, key);
    add_constant(y, c);
}

fn unround(x: &mut [u64; 128], y: &mut [u64; 128], key: &[u64; 64], c: u32)
    ensures { Lanes (λ b. unround 128 1 (pair_in key.now b) c) x.old y.new }
{
    add_constant(x, c);
    gather(x, y, key);
}

// ---- forty rounds, two at a time, by way of y and back to x

// The 40 constants as document 01 has them.
const CONSTANTS: [u32; 40] = [
    0x01, 0x03, 0x07, 0x0f, 0x1f, 0x3e, 0x3d, 0x3b, 0x37, 0x2f, 0x1e, 0x3c, 0x39, 0x33, 0x27, 0x0e,
    0x1d, 0x3a, 0x35, 0x2b, 0x16, 0x2c, 0x18, 0x30, 0x21, 0x02, 0x05, 0x0b, 0x17, 0x2e, 0x1c, 0x38,
    0x31, 0x23, 0x06, 0x0d, 0x1b, 0x36, 0x2d, 0x1a,
];

// The masks of a round are 64: of V, then of U.
// Stays: an index, since a turn is of two rounds, each with its own masks and constant, and x and y change places between them.
fn forty(x: &mut [u64; 128], y: &mut [u64; 128], masks: &[u64; 2560])
    ensures { Lanes (λ b. rounds128 (pairs_in masks.now b 40 0) 0) x.old x.new }
{
    let (keys, _) = masks.as_chunks::<64>();
    for n in 0..20 {
        let r = 2 * n;
        round(x, y, &keys[r], CONSTANTS[r]);
        round(y, x, &keys[r + 1], CONSTANTS[r + 1]);
    }
}

fn unforty(x: &mut [u64; 128], y: &mut [u64; 128], masks: &[u64; 2560])
    ensures { Lanes (λ b. unrounds128 (pairs_in masks.now b 40 0) 0) x.old x.new }
{
    let (keys, _) = masks.as_chunks::<64>();
    for n in (0..20).rev() {
        let r = 2 * n;
        unround(x, y, &keys[r + 1], CONSTANTS[r + 1]);
        unround(y, x, &keys[r], CONSTANTS[r]);
    }
}

fn through(x: &mut [u64; 128], y: &mut [u64; 128], masks: &[u64; 2560], back: bool)
    ensures { Lanes (λ b. rounds_all back (pairs_in masks.now b 40 0)) x.old x.new }
{
    if back {
        unforty(x, y, masks);
    } else {
        forty(x, y, masks);
    }
}

// ---- the key's bits

// The value of the bit that is bit i of a word which is kept k + 1 rounds in, at place i of row k: five rows, one for each arrangement.
const PLACES: [[u32; 32]; 5] = [
    [
        0x00000008, 0x00000080, 0x00000800, 0x00008000, 0x00080000, 0x00800000, 0x08000000,
        0x80000000, 0x00000004, 0x00000040, 0x00000400, 0x00004000, 0x00040000, 0x00400000,
        0x04000000, 0x40000000, 0x00000002, 0x00000020, 0x00000200, 0x00002000, 0x00020000,
        0x00200000, 0x02000000, 0x20000000, 0x00000001, 0x00000010, 0x00000100, 0x00001000,
        0x00010000, 0x00100000, 0x01000000, 0x10000000,
    ],
    [
        0x00008000, 0x80000000, 0x00004000, 0x40000000, 0x00002000, 0x20000000, 0x00001000,
        0x10000000, 0x00000800, 0x08000000, 0x00000400, 0x04000000, 0x00000200, 0x02000000,
        0x00000100, 0x01000000, 0x00000080, 0x00800000, 0x00000040, 0x00400000, 0x00000020,
        0x00200000, 0x00000010, 0x00100000, 0x00000008, 0x00080000, 0x00000004, 0x00040000,
        0x00000002, 0x00020000, 0x00000001, 0x00010000,
    ],
    [
        0x40000000, 0x10000000, 0x04000000, 0x01000000, 0x00400000, 0x00100000, 0x00040000,
        0x00010000, 0x00004000, 0x00001000, 0x00000400, 0x00000100, 0x00000040, 0x00000010,
        0x00000004, 0x00000001, 0x80000000, 0x20000000, 0x08000000, 0x02000000, 0x00800000,
        0x00200000, 0x00080000, 0x00020000, 0x00008000, 0x00002000, 0x00000800, 0x00000200,
        0x00000080, 0x00000020, 0x00000008, 0x00000002,
    ],
    [
        0x01000000, 0x00010000, 0x00000100, 0x00000001, 0x02000000, 0x00020000, 0x00000200,
        0x00000002, 0x04000000, 0x00040000, 0x00000400, 0x00000004, 0x08000000, 0x00080000,
        0x00000800, 0x00000008, 0x10000000, 0x00100000, 0x00001000, 0x00000010, 0x20000000,
        0x00200000, 0x00002000, 0x00000020, 0x40000000, 0x00400000, 0x00004000, 0x00000040,
        0x80000000, 0x00800000, 0x00008000, 0x00000080,
    ],
    [
        0x00000001, 0x00000002, 0x00000004, 0x00000008, 0x00000010, 0x00000020, 0x00000040,
        0x00000080, 0x00000100, 0x00000200, 0x00000400, 0x00000800, 0x00001000, 0x00002000,
        0x00004000, 0x00008000, 0x00010000, 0x00020000, 0x00040000, 0x00080000, 0x00100000,
        0x00200000, 0x00400000, 0x00800000, 0x01000000, 0x02000000, 0x04000000, 0x08000000,
        0x10000000, 0x20000000, 0x40000000, 0x80000000,
    ],
];

// Stays: an index into the places, since after an `iter_mut` in a `zip` a proof knows no element; with `map` and a copy, 1,024 bytes took three times as long.
fn masks_at(word: u32, places: &[u32; 32], out: &mut [u64])
    requires { length out.old ≡ 32 }
    ensures { MasksBy word places.now out.new }
{
    for (i, m) in out.iter_mut().enumerate() {
        *m = mask(word, places[i]);
    }
}

// Words 2r and 2r + 1 are those of round r + 1.
fn fill_masks(rkey: &[u32; 80], places: &[[u32; 32]; 5], masks: &mut [u64; 2560])
    requires { (m : ℕ) → m < 160 → get_or (get_or places.now (m / 32) []) (m % 32) 0 ≡ 2 ^ nibble_at (4 - m / 32) (m % 32) }
    ensures { masks.new ≡ masks_of rkey.now }
{
    for (r, word) in rkey.iter().enumerate() {
        let a = 32 * r;
        let e = a + 32;
        masks_at(*word, &places[r / 2 % 5], &mut masks[a..e]);
    }
}

fn key_masks(rkey: &[u32; 80], masks: &mut [u64; 2560])
    ensures { masks.new ≡ masks_of rkey.now }
{
    fill_masks(rkey, &PLACES, masks);
}

// ---- sixty-four blocks

// Stays: the order's number, which `to_slices`, `from_slices` and `groups` take.
fn sixty_four(order: u32, masks: &[u64; 2560], input: &[u8], output: &mut [u8], back: bool)
    requires { (length input.now ≡ 1024) × (length output.old ≡ 1024) }
    ensures { output.new ≡ by_masks order back masks.now input.now }
{
    let mut x = [0u64; 128];
    let mut y = [0u64; 128];
    to_slices(order, input, &mut x);
    through(&mut x, &mut y, masks, back);
    from_slices(order, &x, output);
}

// Groups of sixty-four blocks; the masks are made once for all of them.
fn wide_groups(order: u32, rkey: &[u32; 80], input: &[u8], output: &mut [u8], back: bool)
    requires input_len { length input.now % 1024 ≡ 0 }
    requires output_len { length output.old ≡ length input.now }
    ensures { output.new ≡ all_of 16 (seen order (rounds_all back (pairs_from 0 rkey.now))) input.now }
{
    let mut masks = [0u64; 2560];
    key_masks(rkey, &mut masks);
    // Stays: an index, since after a write through `chunks_exact_mut` a proof knows no element of the output.
    for n in 0..input.len() / 1024 {
        let a = 1024 * n;
        let e = a + 1024;
        sixty_four(order, &masks, &input[a..e], &mut output[a..e], back);
    }
}

// ---- four blocks and more

// What `eight::groups` does, to the same promise: sixty-four blocks at once while there are as many, and then the lanes.
// The lanes begin after the groups of sixty-four, or 64 bytes before the end where fewer are left.
pub fn all_groups(order: u32, rkey: &[u32], input: &[u8], output: &mut [u8], back: bool)
    ensures { output.new ≡ cond (in_groups order (length rkey.now) (length input.now) (length output.old)) (all_of 16 (seen order (rounds_all back (pairs_from 0 rkey.now))) input.now) output.old }
{
    if input.len() < 1024 {
        groups(order, rkey, input, output, back);
        return;
    }
    if !in_groups(order, rkey.len(), input.len(), output.len()) {
        return;
    }
    let Some(words) = rkey.as_array::<80>() else {
        return;
    };
    let m = input.len() - input.len() % 1024;
    wide_groups(order, words, &input[0..m], &mut output[0..m], back);
    if m < input.len() {
        let e = m.min(input.len() - 64);
        groups(order, rkey, &input[e..], &mut output[e..], back);
    }
}
