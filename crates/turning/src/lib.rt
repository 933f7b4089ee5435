// Sixty-four blocks turned into slices and back: 128 words of 64 bits, word q having bit q of every block, that of block b at its place b.
// A transposition of bits in two passes over 128 words, each of three levels on eight words at a time, which stay in registers.
#![tactic(auto)]

ghost use Rattle.std.specs.Prelude.{◌≡◌, cond, ◌++◌, ℕ, ◌+◌, ◌-◌, ◌*◌, ◌/◌, ◌%◌, ◌<◌, min, IsTrue, length, get_or};
ghost use Rattle.bits.specs.Digit.{bit};
ghost use Rattle.published.specs.Bytes.{to_bytes};
ghost use Rattle.published.specs.Blocks.{joined};
ghost use Rattle.published.specs.Seen.{read_in, write_in};
ghost use Rattle.turning.specs.Slices.{lane, block_at, whole, Loaded};
ghost use Rattle.packing.specs.Orders.{order_number};
ghost use Rattle.turning.specs.Inner.{is_level, Crossed, EightTurned, is_step, from_in, to_in, eight_at, eight_put, Passed, Turned, Halves, Placed, inward_in, outward_in, pairwise};

use packing::{Order, bytes};

// ---- the transposition

#[derive(Clone, Copy)]
struct Two {
    a: u64,
    b: u64,
}

// Stays: `swapmove` has these lines on 32 bits; one function over both widths would need a trait with a method and a law for each of four operators.
// Each bit of `a` at an odd multiple of n places changes places with the bit of `b` that stands n lower.
fn cross(a: u64, b: u64, n: u32) -> Two
    requires { IsTrue (is_level n) }
    ensures { Crossed n a b result }
{
    // the places at even multiples
    let mask = 0xffffffffffffffff / ((1 << n) + 1);
    let t = ((a >> n) ^ b) & mask;
    Two {
        a: a ^ (t << n),
        b: b ^ t,
    }
}

// Stays: eight names and not an array, since no loop goes over them: each level would name its words by the same numbers in brackets.
#[derive(Clone, Copy)]
struct Eight {
    w0: u64,
    w1: u64,
    w2: u64,
    w3: u64,
    w4: u64,
    w5: u64,
    w6: u64,
    w7: u64,
}

// In each level, words four apart go side by side, so that all levels have the same shape. Bytes are turned by steps of 8 places, which are 32, 16 and 8 apart in the
// three levels, and the bits of bytes by steps of 1, which are 4, 2 and 1 apart.
fn turned<const STEP: u32>(e: Eight) -> Eight
    requires { IsTrue (is_step STEP) }
    ensures { EightTurned (from_in STEP) (to_in STEP) e result }
{
    let a0 = cross(e.w0, e.w4, 4 * STEP);
    let a1 = cross(e.w1, e.w5, 4 * STEP);
    let a2 = cross(e.w2, e.w6, 4 * STEP);
    let a3 = cross(e.w3, e.w7, 4 * STEP);
    let b0 = cross(a0.a, a2.a, 2 * STEP);
    let b1 = cross(a0.b, a2.b, 2 * STEP);
    let b2 = cross(a1.a, a3.a, 2 * STEP);
    let b3 = cross(a1.b, a3.b, 2 * STEP);
    let c0 = cross(b0.a, b2.a, STEP);
    let c1 = cross(b0.b, b2.b, STEP);
    let c2 = cross(b1.a, b3.a, STEP);
    let c3 = cross(b1.b, b3.b, STEP);
    Eight {
        w0: c0.a,
        w1: c0.b,
        w2: c1.a,
        w3: c1.b,
        w4: c2.a,
        w5: c2.b,
        w6: c3.a,
        w7: c3.b,
    }
}

fn eight_at(x: &[u64; 128], i: usize) -> Eight
    requires { i < 16 }
    ensures { result ≡ eight_at x.now i }
{
    Eight {
        w0: x[i],
        w1: x[i + 16],
        w2: x[i + 32],
        w3: x[i + 48],
        w4: x[i + 64],
        w5: x[i + 80],
        w6: x[i + 96],
        w7: x[i + 112],
    }
}

#[tactic(auto, unfolding(crate::specs::Inner::eight_put))]
fn put_eight(t: Eight, y: &mut [u64; 128], at: usize)
    requires { at + 7 < 128 }
    ensures { y.new ≡ eight_put y.old at t }
{
    y[at] = t.w0;
    y[at + 1] = t.w1;
    y[at + 2] = t.w2;
    y[at + 3] = t.w3;
    y[at + 4] = t.w4;
    y[at + 5] = t.w5;
    y[at + 6] = t.w6;
    y[at + 7] = t.w7;
}

// Sixteen times eight words, from places sixteen apart to places side by side.
fn pass<const STEP: u32>(x: &[u64; 128], y: &mut [u64; 128])
    requires { IsTrue (is_step STEP) }
    ensures { Passed (from_in STEP) (to_in STEP) x.now y.new }
{
    // Stays: eight places of y at a turn, lent by `as_chunks_mut`, are known to a proof by their number alone once they are written.
    for i in 0..16 {
        let t = turned::<STEP>(eight_at(x, i));
        put_eight(t, y, 8 * i);
    }
}

// Both passes, by way of y and back to x.
fn turn(x: &mut [u64; 128], y: &mut [u64; 128])
    ensures { Turned x.old x.new }
{
    pass::<8>(x, y);
    pass::<1>(y, x);
}

// ---- bytes

// Of each block the lower half, and beside it the upper.
fn load(input: &[u8; 1024], x: &mut [u64; 128])
    ensures { Halves input.now x.new }
{
    let (halves, _) = input.as_chunks::<8>();
    for (r, half) in x.iter_mut().enumerate() {
        *half = u64::from_be_bytes(halves[r / 2 * 2 + (1 - r % 2)]);
    }
}

fn put_block(high: u64, low: u64, output: &mut [u8])
    requires { length output.old ≡ 16 }
    ensures { output.new ≡ to_bytes 8 high ++ to_bytes 8 low }
{
    output[..8].copy_from_slice(&bytes(high));
    output[8..].copy_from_slice(&bytes(low));
}

// Block b from its upper half, at 64 + b, and its lower, at b.
fn save(x: &[u64; 128], output: &mut [u8; 1024])
    ensures { output.new ≡ joined 64 (λ b. to_bytes 8 (get_or x.now (b + 64) 0) ++ to_bytes 8 (get_or x.now b 0)) }
{
    // Stays: sixteen bytes at a turn, lent by `as_chunks_mut`, are known to a proof by their number alone once they are written.
    for b in 0..64 {
        let at = 16 * b;
        put_block(x[b + 64], x[b], &mut output[at..at + 16]);
    }
}

// ---- orders: the slices of a block that is one number, and those of a block as an order reads it, are the same words at other places

fn inward(order: Order, q: usize) -> usize
    requires { q < 128 }
    ensures { (result ≡ inward_in (order_number order) q) × (result < 128) }
{
    match order {
        Order::Number => q,
        Order::Words => 32 * (3 - q % 4) + q / 4,
    }
}

fn outward(order: Order, p: usize) -> usize
    requires { p < 128 }
    ensures { (result ≡ outward_in (order_number order) p) × (result < 128) }
{
    match order {
        Order::Number => p,
        Order::Words => 4 * (p % 32) + (3 - p / 32),
    }
}

fn arrive(order: Order, x: &[u64; 128], y: &mut [u64; 128])
    ensures { Placed (inward_in (order_number order)) x.now y.new }
{
    for (q, word) in y.iter_mut().enumerate() {
        *word = x[inward(order, q)];
    }
}

// On the way out the halves go side by side, as the transposition wants them.
// Stays: beside `arrive`, since one loop with the place as a closure is as long as both, with what the closure promises.
fn leave(order: Order, x: &[u64; 128], y: &mut [u64; 128])
    ensures { Placed (λ i. outward_in (order_number order) (pairwise i)) x.now y.new }
{
    for (i, word) in y.iter_mut().enumerate() {
        *word = x[outward(order, i / 2 + 64 * (i % 2))];
    }
}

// ---- blocks and slices

// A group of 64 blocks and 128 words.
fn slice(order: Order, input: &[u8; 1024], x: &mut [u64; 128])
    ensures { (b : ℕ) → b < 64 → lane x.new b ≡ read_in (order_number order) (block_at input.now b) }
{
    let mut y = [0u64; 128];
    load(input, &mut y);
    turn(&mut y, x);
    arrive(order, &y, x);
}

fn unslice(order: Order, x: &[u64; 128], output: &mut [u8; 1024])
    ensures { output.new ≡ joined 64 (λ b. write_in (order_number order) (lane x.now b)) }
{
    let mut y = [0u64; 128];
    let mut z = [0u64; 128];
    leave(order, x, &mut y);
    turn(&mut y, &mut z);
    save(&y, output);
}

// Every number but 0 is order 1's here.
fn order_of(number: u32) -> Order
    ensures { order_number result ≡ min number 1 }
{
    Order::try_from(number).unwrap_or(Order::Words)
}

// The slices of 64 blocks, seen through an order: 1 is order 1, and so is every number above it. Of other lengths nothing is written.
pub fn to_slices(order: u32, input: &[u8], x: &mut [u64])
    ensures { Loaded order input.now x.old x.new }
{
    if let Some(input) = input.as_array() {
        if let Some(x) = x.as_mut_array() {
            slice(order_of(order), input, x);
        }
    }
}

// The blocks of 128 slices, seen through an order.
pub fn from_slices(order: u32, x: &[u64], output: &mut [u8])
    ensures { output.new ≡ cond (whole (length output.old) (length x.now)) (joined 64 (λ b. write_in order (lane x.now b))) output.old }
{
    if let Some(x) = x.as_array() {
        if let Some(output) = output.as_mut_array() {
            unslice(order_of(order), x, output);
        }
    }
}
