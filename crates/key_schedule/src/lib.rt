// key_schedule.rs: the eighty round words of a key, V and U of each round, each kept in its round's arrangement.
#![tactic(auto, unfolding(crate::specs::Expand::expand_code, crate::specs::InnerTens::key_words))]

ghost use Rattle.std.specs.Prelude.{◌≡◌, ◌%◌, length, ⊤, MatchResult};
ghost use Rattle.answers.specs.Refusals.{number};
ghost use Rattle.key_schedule.specs.Expand.{expand_code, expanded, Expands};
ghost use Rattle.key_schedule.specs.InnerUpdate.{updated};
ghost use Rattle.key_schedule.specs.InnerHalves.{low_of, high_of, joined, swapped};
ghost use Rattle.key_schedule.specs.InnerMoves.{part_of, moved, exchanged};
ghost use Rattle.key_schedule.specs.InnerTens.{first_words, key_words, five_rounds, five_later, ten_later, ten_further};
ghost use Rattle.key_schedule.specs.InnerTwenty.{joined_tens, in_both_tens, words_in};

use answers::Refusal;

// (k1 rotated right 2) ‖ (k0 rotated right 12).
pub fn key_update(x: u32) -> u32
    ensures { result ≡ updated x }
{
    ((x >> 12) & 0x0000000f)
        | ((x & 0x00000fff) << 4)
        | ((x >> 2) & 0x3fff0000)
        | ((x & 0x00030000) << 14)
}

// ---- two words in one number, one in its low half and one in its high half: a step that moves the bits of both alike costs what it costs for one

// Stays: by hand, since the library has no method that takes a number of 64 bits by its halves.
fn join(low: u32, high: u32) -> u64
    ensures { result ≡ joined low high }
{
    (high as u64) * 0x100000000 + (low as u64)
}

// The low half of x, and the high half of y above it.
fn low_high(x: u64, y: u64) -> u64
    ensures { result ≡ joined (low_of x) (high_of y) }
{
    y / 0x100000000 * 0x100000000 + x % 0x100000000
}

// The high half of x, and the low half of y above it.
fn high_low(x: u64, y: u64) -> u64
    ensures { result ≡ joined (high_of x) (low_of y) }
{
    y % 0x100000000 * 0x100000000 + x / 0x100000000
}

// ---- moves of bits in both halves alike: each mask stands in both

// Some bits of a number: those that a mask leaves, after they went so far down, or before they go so far up.
#[derive(Clone, Copy)]
enum Part {
    Down(u32, u64),
    Up(u64, u32),
}

use Part::{Down, Up};

impl Part {
    fn of(self, x: u64) -> u64
        ensures { result ≡ part_of self x }
    {
        match self {
            Down(n, mask) => (x >> (n % 64)) & mask,
            Up(mask, n) => (x & mask) << (n % 64),
        }
    }
}

// The parts side by side.
fn moved<const N: usize>(x: u64, parts: [Part; N]) -> u64
    ensures { result ≡ moved parts.entry x }
{
    let mut y = 0;
    for part in parts {
        y |= part.of(x);
    }
    y
}

// swapmovesingle, in a number of 64 bits.
fn swap_both(x: u64, mask: u64, n: u32) -> u64
    ensures { result ≡ swapped x mask (n % 32) }
{
    let k = n % 32;
    let t = (x ^ (x >> k)) & mask;
    x ^ t ^ (t << k)
}

// Exchanges, one after the other, each by its mask and its distance.
fn exchanged<const N: usize>(x: u64, swaps: [(u64, u32); N]) -> u64
    ensures { result ≡ exchanged swaps.entry x }
{
    let mut y = x;
    for (mask, n) in swaps {
        y = swap_both(y, mask, n);
    }
    y
}

// The update of a word.
const UPDATE: [Part; 4] = [
    Down(12, 0x0000000f0000000f),
    Up(0x00000fff00000fff, 4),
    Down(2, 0x3fff00003fff0000),
    Up(0x0003000000030000, 14),
];

// The rearrangements of round_words.
const REARRANGE_0: [(u64, u32); 4] = [
    (0x0055005500550055, 9),
    (0x000f000f000f000f, 12),
    (0x0000333300003333, 18),
    (0x000000ff000000ff, 24),
];

const REARRANGE_1: [(u64, u32); 4] = [
    (0x1111111111111111, 3),
    (0x0303030303030303, 6),
    (0x000f000f000f000f, 12),
    (0x000000ff000000ff, 24),
];

const REARRANGE_2: [(u64, u32); 4] = [
    (0x0000aaaa0000aaaa, 15),
    (0x0000333300003333, 18),
    (0x0000f0f00000f0f0, 12),
    (0x000000ff000000ff, 24),
];

const REARRANGE_3: [(u64, u32); 4] = [
    (0x0a0a0a0a0a0a0a0a, 3),
    (0x00cc00cc00cc00cc, 6),
    (0x0000f0f00000f0f0, 12),
    (0x000000ff000000ff, 24),
];

// The Rust's double and triple updates in each arrangement. What the Rust rotates in a word becomes two shifts.
const DOUBLE_0: [(u64, u32); 2] = [(0x0000333300003333, 16), (0x5555444455554444, 1)];

const TRIPLE_0: [Part; 6] = [
    Down(16, 0x0000cccc0000cccc),
    Down(24, 0x0000003300000033),
    Up(0x0022222200222222, 7),
    Up(0x0011111100111111, 9),
    Up(0x0000888800008888, 15),
    Up(0x0000444400004444, 17),
];

const DOUBLE_1: [Part; 4] = [
    Down(4, 0x0f000f000f000f00),
    Up(0x0f000f000f000f00, 4),
    Down(6, 0x0003000300030003),
    Up(0x003f003f003f003f, 2),
];

const TRIPLE_1: [Part; 4] = [
    Down(6, 0x0300030003000300),
    Up(0x3f003f003f003f00, 2),
    Down(5, 0x0007000700070007),
    Up(0x001f001f001f001f, 3),
];

const DOUBLE_2: [Part; 4] = [
    Down(16, 0x0000555500005555),
    Down(24, 0x000000aa000000aa),
    Up(0x00aaaaaa00aaaaaa, 8),
    Up(0x0000555500005555, 16),
];

const TRIPLE_2: [Part; 4] = [
    Down(20, 0x00000aaa00000aaa),
    Down(24, 0x0000005500000055),
    Up(0x0055555500555555, 8),
    Up(0x000aaaaa000aaaaa, 12),
];

const DOUBLE_3: [Part; 4] = [
    Down(2, 0x0303030303030303),
    Up(0x0303030303030303, 2),
    Down(1, 0x7070707070707070),
    Up(0x1010101010101010, 3),
];

const TRIPLE_3: [Part; 6] = [
    Down(18, 0x0000303000003030),
    Up(0x0101010101010101, 3),
    Down(14, 0x0000c0c00000c0c0),
    Up(0x0000e0e00000e0e0, 15),
    Down(1, 0x0707070707070707),
    Up(0x0000101000001010, 19),
];

const DOUBLE_4: [Part; 4] = [
    Down(4, 0x0fff00000fff0000),
    Up(0x000f0000000f0000, 12),
    Down(8, 0x000000ff000000ff),
    Up(0x000000ff000000ff, 8),
];

const TRIPLE_4: [Part; 4] = [
    Down(6, 0x03ff000003ff0000),
    Up(0x003f0000003f0000, 10),
    Down(4, 0x00000fff00000fff),
    Up(0x0000000f0000000f, 12),
];

// Five updates in each arrangement: V and U alike, so that the compiler puts both into one wide register.
const FIVE_0: [Part; 6] = [
    Up(0x0000003300000033, 24),
    Up(0x0000cccc0000cccc, 16),
    Down(7, 0x0022222200222222),
    Down(9, 0x0011111100111111),
    Down(15, 0x0000888800008888),
    Down(17, 0x0000444400004444),
];

const FIVE_1: [Part; 4] = [
    Up(0x0300030003000300, 6),
    Up(0x0007000700070007, 5),
    Down(2, 0x3f003f003f003f00),
    Down(3, 0x001f001f001f001f),
];

const FIVE_2: [Part; 4] = [
    Up(0x0000005500000055, 24),
    Up(0x00000aaa00000aaa, 20),
    Down(8, 0x0055555500555555),
    Down(12, 0x000aaaaa000aaaaa),
];

const FIVE_3: [Part; 6] = [
    Up(0x0000303000003030, 18),
    Up(0x0000c0c00000c0c0, 14),
    Up(0x0707070707070707, 1),
    Down(3, 0x0101010101010101),
    Down(15, 0x0000e0e00000e0e0),
    Down(19, 0x0000101000001010),
];

const FIVE_4: [Part; 4] = [
    Up(0x03ff000003ff0000, 6),
    Up(0x00000fff00000fff, 4),
    Down(10, 0x003f0000003f0000),
    Down(12, 0x0000000f0000000f),
];

// V and U of two rounds.
#[repr(C)]
#[derive(Clone, Copy, Default)]
pub struct Four {
    pub v0: u32,
    pub u0: u32,
    pub v1: u32,
    pub u1: u32,
}

// V and U of five rounds, and, in the high halves, of the five rounds after them.
#[repr(C)]
#[derive(Clone, Copy)]
struct Twenty {
    v0: u64,
    u0: u64,
    v1: u64,
    u1: u64,
    v2: u64,
    u2: u64,
    v3: u64,
    u3: u64,
    v4: u64,
    u4: u64,
}

fn first_words(key: &[u8; 16]) -> Four
    ensures { result ≡ first_words key.now }
{
    let (words, _) = key.as_chunks::<4>();
    Four {
        v0: u32::from_be_bytes(words[3]),
        u0: u32::from_be_bytes(words[1]),
        v1: u32::from_be_bytes(words[2]),
        u1: u32::from_be_bytes(words[0]),
    }
}

// The four words of a key; of a key of another length, four zero words.
pub fn key_words(key: &[u8]) -> Four
    ensures { result ≡ key_words key.now }
{
    match key.as_array() {
        Some(key) => first_words(key),
        None => Four::default(),
    }
}

// As the Rust's first two loops do: two rounds further V is U and U is V updated; then all but the fifth round's words are rearranged.
// x has V of the first two rounds and y their U; x1, x2 and y1, y2 are these words updated once and twice. All words of the first ten rounds are among them.
fn first_twenty(w: Four) -> Twenty
    ensures { result ≡ joined_tens (five_rounds w) (five_rounds (five_later w)) }
{
    let x = join(w.v0, w.v1);
    let y = join(w.u0, w.u1);
    let x1 = moved(x, UPDATE);
    let y1 = moved(y, UPDATE);
    let x2 = moved(x1, UPDATE);
    let y2 = moved(y1, UPDATE);
    let u0 = low_high(y, y1);
    let u1 = high_low(y, x2);
    let u2 = low_high(x1, x2);
    Twenty {
        v0: exchanged(low_high(x, x1), REARRANGE_0),
        u0: exchanged(u0, REARRANGE_0),
        v1: exchanged(high_low(x, y1), REARRANGE_1),
        u1: exchanged(u1, REARRANGE_1),
        v2: exchanged(u0, REARRANGE_2),
        u2: exchanged(u2, REARRANGE_2),
        v3: exchanged(u1, REARRANGE_3),
        u3: exchanged(high_low(x1, y2), REARRANGE_3),
        v4: u2,
        u4: low_high(y1, y2),
    }
}

// The words that stand twenty further.
fn twenty_later(t: Twenty) -> Twenty
    ensures { result ≡ in_both_tens ten_later t }
{
    Twenty {
        v0: exchanged(t.u0, DOUBLE_0),
        u0: moved(t.v0, TRIPLE_0),
        v1: moved(t.u1, DOUBLE_1),
        u1: moved(t.v1, TRIPLE_1),
        v2: moved(t.u2, DOUBLE_2),
        u2: moved(t.v2, TRIPLE_2),
        v3: moved(t.u3, DOUBLE_3),
        u3: moved(t.v3, TRIPLE_3),
        v4: moved(t.u4, DOUBLE_4),
        u4: moved(t.v4, TRIPLE_4),
    }
}

// The words that stand forty further.
fn forty_later(t: Twenty) -> Twenty
    ensures { result ≡ in_both_tens ten_further t }
{
    Twenty {
        v0: moved(t.v0, FIVE_0),
        u0: moved(t.u0, FIVE_0),
        v1: moved(t.v1, FIVE_1),
        u1: moved(t.u1, FIVE_1),
        v2: moved(t.v2, FIVE_2),
        u2: moved(t.u2, FIVE_2),
        v3: moved(t.v3, FIVE_3),
        u3: moved(t.u3, FIVE_3),
        v4: moved(t.v4, FIVE_4),
        u4: moved(t.u4, FIVE_4),
    }
}

// Stays: an array of ten numbers, stored by a loop, was tried and is slower: 182.4 cycles for an expansion, and 181.3 by these fields.
fn store(ws: &mut [u32], t: Twenty)
    requires { length ws.old ≡ 20 }
    ensures { ws.new ≡ words_in t }
{
    ws[0] = (t.v0 % 0x100000000) as u32;
    ws[1] = (t.u0 % 0x100000000) as u32;
    ws[2] = (t.v1 % 0x100000000) as u32;
    ws[3] = (t.u1 % 0x100000000) as u32;
    ws[4] = (t.v2 % 0x100000000) as u32;
    ws[5] = (t.u2 % 0x100000000) as u32;
    ws[6] = (t.v3 % 0x100000000) as u32;
    ws[7] = (t.u3 % 0x100000000) as u32;
    ws[8] = (t.v4 % 0x100000000) as u32;
    ws[9] = (t.u4 % 0x100000000) as u32;
    ws[10] = (t.v0 >> 32) as u32;
    ws[11] = (t.u0 >> 32) as u32;
    ws[12] = (t.v1 >> 32) as u32;
    ws[13] = (t.u1 >> 32) as u32;
    ws[14] = (t.v2 >> 32) as u32;
    ws[15] = (t.u2 >> 32) as u32;
    ws[16] = (t.v3 >> 32) as u32;
    ws[17] = (t.u3 >> 32) as u32;
    ws[18] = (t.v4 >> 32) as u32;
    ws[19] = (t.u4 >> 32) as u32;
}

// Called at two places, and so kept apart by the compiler: by itself it is put into wide registers from end to end.
fn store_later(ws: &mut [u32], t: Twenty)
    requires { length ws.old ≡ 20 }
    ensures { ws.new ≡ words_in (in_both_tens ten_further t) }
{
    store(ws, forty_later(t));
}

fn expand(key: &[u8; 16], rkey: &mut [u32])
    requires { length rkey.old ≡ 80 }
    ensures { rkey.new ≡ expanded key.now }
{
    let a = first_twenty(first_words(key));
    store(&mut rkey[0..20], a);
    let b = twenty_later(a);
    store(&mut rkey[20..40], b);
    store_later(&mut rkey[40..60], a);
    store_later(&mut rkey[60..80], b);
}

// The key, where expansion is not refused: 1, 4.
fn expand_code(key: &[u8], words: usize) -> Result<&[u8; 16], Refusal>
    ensures code { number result ≡ expand_code (length key.now) words }
    ensures kept { MatchResult result (λ kept. kept.now ≡ key.now) (λ _. ⊤) }
{
    let key = key.as_array().ok_or(Refusal::BadKeyLength)?;
    if words != 80 {
        return Err(Refusal::BadWordCount);
    }
    Ok(key)
}

pub fn precompute_rkeys(key: &[u8], rkey: &mut [u32]) -> Result<(), Refusal>
    ensures { Expands key.now rkey.old (number result) rkey.new }
{
    let key = expand_code(key, rkey.len())?;
    expand(key, rkey);
    Ok(())
}
