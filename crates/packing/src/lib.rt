// Packing and unpacking of primitives.rs: the sixteen bytes of a block, in either order, and the four words in which its bits are kept: bit i of word j is bit 4i + j of the block.
// In order 0 a block is two halves of 64 bits. Bit 4i + j of a half goes to place 16j + i, so that the half's sixteen bits of word j stand together, as its piece j;
// word j is piece j of the upper half above piece j of the lower.
#![tactic(auto)]

ghost use Rattle.std.specs.Prelude.{◌≡◌, ◌+◌, ◌*◌, ◌^◌, ◌<◌, ◌++◌, length};
ghost use Rattle.bits.specs.Digit.{digit};
ghost use Rattle.published.specs.Bytes.{to_bytes};
ghost use Rattle.published.specs.Seen.{is_order, read_in, write_in};
ghost use Rattle.primitives.specs.Packed.{block_of, state_of};
ghost use Rattle.packing.specs.Packing.{packed, unpacked, packed64, unpacked64};
ghost use Rattle.packing.specs.Orders.{order_number, Names};
ghost use Rattle.packing.specs.Inner.{reordered, crossed, rising, gathered_from, scattered_from, word_from, half_from};

use answers::Refusal;
use primitives::State;

// The place of a bit in a half has six binary figures. This exchanges figures k and k + 2 of every place: the mask has the places where figure k is 1 and figure k + 2 is 0,
// a bit there changes places with the one 3 * 2^k above it, and where the two figures are equal nothing moves.
// Stays: `swapmovesingle` has these three lines on 32 bits; one function over both widths would need a trait with a method and a law for each of four operators.
fn cross(x: u64, k: u32, mask: u64) -> u64
    requires { (k < 4) × (mask ≡ rising k) }
    ensures { result ≡ reordered (crossed k) x }
{
    let n: u32 = 3 << k;
    let t = (x ^ (x >> n)) & mask;
    x ^ t ^ (t << n)
}

// From 4i + j to 16j + i: of a place's figures, 0 and 1 are j and the four above them are i. Figure 0 climbs to 2 and on to 4,
// figure 1 to 3 and on to 5, and each figure of i is passed once and comes down by two.
#[tactic(auto, unfolding(crate::specs::Inner::rising, bits::specs::Digit::of_bits, bits::specs::Digit::number))]
fn gather(x: u64) -> u64
    ensures { result ≡ reordered gathered_from x }
{
    let x0 = cross(x, 0, 0x0a0a0a0a0a0a0a0a);
    let x1 = cross(x0, 1, 0x00cc00cc00cc00cc);
    let x2 = cross(x1, 2, 0x0000f0f00000f0f0);
    cross(x2, 3, 0x00000000ff00ff00)
}

// Each step undoes itself: the same four, the last first, go back.
#[tactic(auto, unfolding(crate::specs::Inner::rising, bits::specs::Digit::of_bits, bits::specs::Digit::number))]
fn scatter(x: u64) -> u64
    ensures { result ≡ reordered scattered_from x }
{
    let x3 = cross(x, 3, 0x00000000ff00ff00);
    let x2 = cross(x3, 2, 0x0000f0f00000f0f0);
    let x1 = cross(x2, 1, 0x00cc00cc00cc00cc);
    cross(x1, 0, 0x0a0a0a0a0a0a0a0a)
}

// Piece j of a number: its bits 16j to 16j + 15.
fn piece(x: u64, j: u32) -> u16
    requires { j < 4 }
    ensures { result ≡ digit 65536 x j }
{
    ((x >> (16 * j)) % 65536) as u16
}

// Word j, of two halves whose bits are gathered.
fn word(high: u64, low: u64, j: u32) -> u32
    requires { j < 4 }
    ensures { result ≡ word_from high low j }
{
    (piece(high, j) as u32) * 65536 + (piece(low, j) as u32)
}

// Half h, the upper one being 1, its bits still gathered: piece h of each word, that of word 3 on top.
#[tactic(auto, unfolding(bits::specs::Digit::number))]
fn half(s: State, h: u32) -> u64
    requires { h < 2 }
    ensures { result ≡ half_from s h }
{
    let p3 = piece(s.s3 as u64, h) as u64;
    let p2 = piece(s.s2 as u64, h) as u64;
    let p1 = piece(s.s1 as u64, h) as u64;
    let p0 = piece(s.s0 as u64, h) as u64;
    p3 * 0x1000000000000 + (p2 * 0x100000000 + (p1 * 0x10000 + p0))
}

// The eight bytes of a half, the first the most significant.
pub fn bytes(x: u64) -> [u8; 8]
    ensures { result ≡ to_bytes 8 x }
{
    x.to_be_bytes()
}

// ---- the orders

// How the bytes of a block are seen.
#[derive(Clone, Copy, Debug, PartialEq, Eq)]
pub enum Order {
    // As one number, the most significant byte first.
    Number,
    // As the four words, the most significant byte first in each.
    Words,
}

// The orders' numbers, as the documents have them and C gives them.
// Stays: numbers by name beside the enum, as what may not change: `packing`, `groups`, `encrypt_by_words` and others take an order by its number, and refuse those that are none.
pub const NUMBER: u32 = 0;

pub const WORDS: u32 = 1;

impl From<Order> for u32 {
    ghost from_gives = { λ order n. n ≡ order_number order };

    fn from(order: Order) -> u32 {
        match order {
            Order::Number => NUMBER,
            Order::Words => WORDS,
        }
    }
}

impl TryFrom<u32> for Order {
    type Error = Refusal;

    ghost try_from_gives = { Names };

    fn try_from(number: u32) -> Result<Order, Refusal> {
        match number {
            NUMBER => Ok(Order::Number),
            WORDS => Ok(Order::Words),
            _ => Err(Refusal::BadOrder),
        }
    }
}

impl Order {
    fn pack(self, block: &[u8; 16]) -> State
        ensures { result ≡ state_of (read_in (order_number self) block.now) }
    {
        match self {
            Order::Number => from_number(block),
            Order::Words => from_words(block),
        }
    }
}

pub fn is_order(order: u32) -> bool
    ensures { result ≡ is_order order }
{
    Order::try_from(order).is_ok()
}

// A block from its two halves, the upper one first. Half by half, because the compiler makes one store of the bytes of a number of 64 bits, and of one of 128 bits sixteen.
fn put(high: u64, low: u64, output: &mut [u8])
    requires { length output.old ≡ 16 }
    ensures { output.new ≡ to_bytes 8 high ++ to_bytes 8 low }
{
    output[..8].copy_from_slice(&bytes(high));
    output[8..].copy_from_slice(&bytes(low));
}

// ---- order 0: the block is one number

fn from_number(block: &[u8; 16]) -> State
    ensures { result ≡ state_of (read_in 0 block.now) }
{
    let x = u128::from_be_bytes(*block);
    let high = gather((x / 0x10000000000000000) as u64);
    let low = gather((x % 0x10000000000000000) as u64);
    State {
        s0: word(high, low, 0),
        s1: word(high, low, 1),
        s2: word(high, low, 2),
        s3: word(high, low, 3),
    }
}

fn to_number(state: State, output: &mut [u8])
    requires { length output.old ≡ 16 }
    ensures { output.new ≡ write_in 0 (block_of state) }
{
    put(scatter(half(state, 1)), scatter(half(state, 0)), output);
}

// ---- order 1: the block is its four words, and no bit has to move

fn from_words(block: &[u8; 16]) -> State
    ensures { result ≡ state_of (read_in 1 block.now) }
{
    let (words, _) = block.as_chunks::<4>();
    State {
        s0: u32::from_be_bytes(words[0]),
        s1: u32::from_be_bytes(words[1]),
        s2: u32::from_be_bytes(words[2]),
        s3: u32::from_be_bytes(words[3]),
    }
}

// Two words side by side, the first on top.
fn pair(high: u32, low: u32) -> u64
    ensures { result ≡ high * 2 ^ 32 + low }
{
    (high as u64) * 0x100000000 + (low as u64)
}

fn to_words(state: State, output: &mut [u8])
    requires { length output.old ≡ 16 }
    ensures { output.new ≡ write_in 1 (block_of state) }
{
    put(pair(state.s0, state.s1), pair(state.s2, state.s3), output);
}

// ---- either

// Sixteen bytes are packed, as the order has them; of any other number of bytes, and in any other order, come four zero words.
pub fn packing(order: u32, input: &[u8]) -> State
    ensures { result ≡ packed order input.now }
{
    match (Order::try_from(order), input.as_array::<16>()) {
        (Ok(order), Some(block)) => order.pack(block),
        _ => State::default(),
    }
}

// Sixteen bytes are written, as the order has them; a buffer of another length stays as it is, and so does any in another order.
pub fn unpacking(order: u32, state: State, output: &mut [u8])
    ensures { output.new ≡ unpacked order state output.old }
{
    if let Ok(order) = Order::try_from(order) {
        if output.len() == 16 {
            match order {
                Order::Number => to_number(state, output),
                Order::Words => to_words(state, output),
            }
        }
    }
}

// ---- order 1 alone, for the one who packs several blocks and moves their bits afterwards

pub fn packing_words(input: &[u8]) -> State
    ensures { result ≡ packed 1 input.now }
{
    match input.as_array() {
        Some(block) => from_words(block),
        None => State::default(),
    }
}

pub fn unpacking_words(state: State, output: &mut [u8])
    ensures { output.new ≡ unpacked 1 state output.old }
{
    if 16 == output.len() {
        to_words(state, output);
    }
}

// ---- GIFT-64: a block is one half, and word j its piece j

// Eight bytes are packed, into the low halves of the words; of any other number of bytes come four zero words.
pub fn packing_64(input: &[u8]) -> State
    ensures { result ≡ packed64 input.now }
{
    let Some(block) = input.as_array() else {
        return State::default();
    };
    let x = gather(u64::from_be_bytes(*block));
    State {
        s0: piece(x, 0) as u32,
        s1: piece(x, 1) as u32,
        s2: piece(x, 2) as u32,
        s3: piece(x, 3) as u32,
    }
}

// Eight bytes are written; a buffer of another length stays as it is.
pub fn unpacking_64(state: State, output: &mut [u8])
    ensures { output.new ≡ unpacked64 state output.old }
{
    if output.len() == 8 {
        output.copy_from_slice(&bytes(scatter(half(state, 0))));
    }
}
