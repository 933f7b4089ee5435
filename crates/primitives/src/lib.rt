// The bit part of primitives.rs: rotations inside words, halves, bytes and nibbles, swaps of bits, and the four words of a state.
#![tactic(auto)]

ghost use Rattle.std.specs.Prelude.{◌≡◌, ◌∷◌, [], ◌%◌, IsTrue};
ghost use Rattle.published.specs.Bytes.{from_bytes};
ghost use Rattle.primitives.specs.Words.{permuted, ror_in, is_turn, swapped_low, swapped_high, swapped_single};

// The four words of a state.
#[repr(C)]
#[derive(Clone, Copy, Debug, PartialEq, Eq, Default)]
pub struct State {
    pub s0: u32,
    pub s1: u32,
    pub s2: u32,
    pub s3: u32,
}

// Four bytes, the first the most significant.
// Stays: four parameters and not an array, since `u32big` is public and docs/CLAIMS.md names it with its promise of the four.
#[tactic(auto, unfolding(published::specs::Bytes::from_bytes))]
pub fn u32big(x0: u8, x1: u8, x2: u8, x3: u8) -> u32
    ensures { result ≡ from_bytes (x0 ∷ x1 ∷ x2 ∷ x3 ∷ []) }
{
    u32::from_be_bytes([x0, x1, x2, x3])
}

// Rotated right by any number of places.
pub fn ror(x: u32, y: u32) -> u32
    ensures { result ≡ permuted (ror_in 32 (y % 32)) x }
{
    x.rotate_right(y)
}

// Each group of so many bits rotated right by k: the bits that stay in their group come down, and those that leave it below come in at its top.
fn ror_within(group: u32, k: u32, x: u32) -> u32
    requires { IsTrue (is_turn group k) }
    ensures { result ≡ permuted (ror_in group k) x }
{
    // the lowest bit of each group
    let ones = 0xffffffff / ((1 << group) - 1);
    let stay = ones * ((1 << (group - k)) - 1);
    let leave = ones * ((1 << k) - 1);
    ((x >> k) & stay) | ((x & leave) << (group - k))
}

// Stays: the nine names, each an instance of `ror_within`, as what may not change: they are the crate's, which document 01 wants, and docs/CLAIMS.md has their contracts.
pub fn byte_ror_2(x: u32) -> u32
    ensures { result ≡ permuted (ror_in 8 2) x }
{
    ror_within(8, 2, x)
}

pub fn byte_ror_4(x: u32) -> u32
    ensures { result ≡ permuted (ror_in 8 4) x }
{
    ror_within(8, 4, x)
}

pub fn byte_ror_6(x: u32) -> u32
    ensures { result ≡ permuted (ror_in 8 6) x }
{
    ror_within(8, 6, x)
}

pub fn half_ror_4(x: u32) -> u32
    ensures { result ≡ permuted (ror_in 16 4) x }
{
    ror_within(16, 4, x)
}

pub fn half_ror_8(x: u32) -> u32
    ensures { result ≡ permuted (ror_in 16 8) x }
{
    ror_within(16, 8, x)
}

pub fn half_ror_12(x: u32) -> u32
    ensures { result ≡ permuted (ror_in 16 12) x }
{
    ror_within(16, 12, x)
}

pub fn nibble_ror_1(x: u32) -> u32
    ensures { result ≡ permuted (ror_in 4 1) x }
{
    ror_within(4, 1, x)
}

pub fn nibble_ror_2(x: u32) -> u32
    ensures { result ≡ permuted (ror_in 4 2) x }
{
    ror_within(4, 2, x)
}

pub fn nibble_ror_3(x: u32) -> u32
    ensures { result ≡ permuted (ror_in 4 3) x }
{
    ror_within(4, 3, x)
}

// The two words of a swap.
// Stays: a struct and not a tuple, as document 01 has it of `swapmove`.
#[derive(Clone, Copy)]
pub struct Two {
    pub a: u32,
    pub b: u32,
}

// As in the Rust's optimised builds, a number of places is taken modulo 32.
pub fn swapmove(a: u32, b: u32, mask: u32, n: u32) -> Two
    ensures { (result.a ≡ swapped_high a b mask (n % 32)) × (result.b ≡ swapped_low a b mask (n % 32)) }
{
    let k = n % 32;
    let tmp = (b ^ (a >> k)) & mask;
    Two {
        a: a ^ (tmp << k),
        b: b ^ tmp,
    }
}

pub fn swapmovesingle(a: u32, mask: u32, n: u32) -> u32
    ensures { result ≡ swapped_single a mask (n % 32) }
{
    let k = n % 32;
    let tmp = (a ^ (a >> k)) & mask;
    a ^ tmp ^ (tmp << k)
}
