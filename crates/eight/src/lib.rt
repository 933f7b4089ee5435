// Many blocks at once: the cipher's rounds in four lanes, which the compiler puts into wide registers, and two or three such fours side by side, which the processor
// overlaps. Each loop here is a function of its own whose body calls one function at one place: so it is that the compiler makes it wide.
#![tactic(auto)]

ghost use Rattle.std.specs.Prelude.{◌≡◌, true, false, cond, ◌*◌, ◌%◌, ◌≤◌, leb, length, take, drop};
ghost use Rattle.published.specs.Blocks.{all_of, joined};
ghost use Rattle.published.specs.Gift128.{rounds_all};
ghost use Rattle.published.specs.Seen.{is_order, write_in, seen};
ghost use Rattle.primitives.specs.Packed.{block_of};
ghost use Rattle.round_words.specs.Arranged.{pairs_from};
ghost use Rattle.packing.specs.Orders.{order_number};
ghost use Rattle.packing.specs.Packing.{packed};
ghost use Rattle.eight.specs.Groups.{in_groups};
ghost use Rattle.eight.specs.Inner.{Holds, EachBy, EveryBy, Each, Through, lane_at, rewritten, arriving, leaving, forty, crossed};

use packing::{Order, is_order, packing_words, unpacking_words};
use primitives::{State, swapmove};
use quintuple::{Part, by_part, inv_by_part, part_at};

// Four states, word by word: the words s0 of all of them, s1, s2 and s3. Four arrays, because a wide register then has the same word of several lanes.
// Stays: arrays side by side, for the compiler, as the line above says.
#[derive(Clone, Copy)]
struct Lanes {
    a: [u32; 4],
    b: [u32; 4],
    c: [u32; 4],
    d: [u32; 4],
}

// ---- order 0: the bits of a block that was read as four words move to their places

// Between two neighbouring words, and the other two: each bit of the second for which the mask has one changes places with the bit n above it of the first.
fn cross(s: State, mask: u32, n: u32) -> State
    ensures { result ≡ crossed mask (n % 32) s }
{
    let low = swapmove(s.s0, s.s1, mask, n);
    let high = swapmove(s.s2, s.s3, mask, n);
    State {
        s0: low.a,
        s1: low.b,
        s2: high.a,
        s3: high.b,
    }
}

// A bit's place has seven figures, the word's two above the five within it. Five steps exchange the lower figure of the word with one of the others each, and once
// the word's two figures change places, which is a naming of words.
fn gather(s: State) -> State
    ensures { result ≡ rewritten 1 0 s }
{
    let t = State {
        s0: s.s3,
        s1: s.s2,
        s2: s.s1,
        s3: s.s0,
    };
    let x3 = cross(t, 0x00ff00ff, 8);
    let x1 = cross(x3, 0x33333333, 2);
    let y = State {
        s0: x1.s0,
        s1: x1.s2,
        s2: x1.s1,
        s3: x1.s3,
    };
    let x4 = cross(y, 0x0000ffff, 16);
    let x2 = cross(x4, 0x0f0f0f0f, 4);
    cross(x2, 0x55555555, 1)
}

// Each step undoes itself: the same, the last first.
fn scatter(s: State) -> State
    ensures { result ≡ rewritten 0 1 s }
{
    let x0 = cross(s, 0x55555555, 1);
    let x2 = cross(x0, 0x0f0f0f0f, 4);
    let x4 = cross(x2, 0x0000ffff, 16);
    let y = State {
        s0: x4.s0,
        s1: x4.s2,
        s2: x4.s1,
        s3: x4.s3,
    };
    let x1 = cross(y, 0x33333333, 2);
    let x3 = cross(x1, 0x00ff00ff, 8);
    State {
        s0: x3.s3,
        s1: x3.s2,
        s2: x3.s1,
        s3: x3.s0,
    }
}

// ---- in every lane the same

// For each closure the compiler makes a function of its own, with one call in the loop's body. The arrays are the function's own while it works, and are stored once.
// Stays: an index, since the loop reads and writes four arrays at the same place, and after an `iter_mut` in a `zip` a proof knows no element.
fn each<F: Fn(State) -> State>(s: &mut Lanes, f: F)
    requires { F.IsAlwaysCallable f }
    ensures { EachBy (F.post f) s.old s.new }
{
    let mut a = s.a;
    let mut b = s.b;
    let mut c = s.c;
    let mut d = s.d;
    for l in 0..4 {
        let t = f(State {
            s0: a[l],
            s1: b[l],
            s2: c[l],
            s3: d[l],
        });
        a[l] = t.s0;
        b[l] = t.s1;
        c[l] = t.s2;
        d[l] = t.s3;
    }
    *s = Lanes { a, b, c, d };
}

// ---- two fours or three

#[derive(Clone, Copy)]
struct Fours {
    x: Lanes,
    y: Lanes,
    z: Option<Lanes>,
}

fn every<F: Fn(State) -> State>(s: &mut Fours, f: F)
    requires { F.IsAlwaysCallable f }
    ensures { EveryBy (F.post f) s.old s.new }
{
    each(&mut s.x, &f);
    each(&mut s.y, &f);
    if let Some(z) = &mut s.z {
        each(z, &f);
    }
}

// ---- the forty rounds

// The words of a quintuple and its constants are read once for all lanes.
// Stays: a function each way; they share `every`, and what is left differs in the step and in the end that the count begins at.
fn encrypt_lanes(s: &mut Fours, rkey: &[u32; 80])
    ensures { Through (forty false rkey.now) s.old s.new }
{
    for n in 0..8 {
        let p = part_at(&rkey[10 * n..], 5 * n);
        every(s, |x| by_part(x, p));
    }
}

fn decrypt_lanes(s: &mut Fours, rkey: &[u32; 80])
    ensures { Through (forty true rkey.now) s.old s.new }
{
    for n in (0..8).rev() {
        let q = part_at(&rkey[10 * n..], 5 * n);
        every(s, |x| inv_by_part(x, q));
    }
}

fn through(s: &mut Fours, rkey: &[u32; 80], back: bool)
    ensures { Through (forty back rkey.now) s.old s.new }
{
    if back {
        decrypt_lanes(s, rkey);
    } else {
        encrypt_lanes(s, rkey);
    }
}

// ---- bytes: read and put as order 1 has them, in which no bit moves

// Stays: an index, here and in `put`, since it is the place of the bytes and of a word in each of four arrays.
fn read(input: &[u8]) -> Lanes
    requires { length input.now ≡ 64 }
    ensures { Holds (λ k. packed 1 (take 16 (drop (16 * k) input.now))) result }
{
    let mut a = [0u32; 4];
    let mut b = [0u32; 4];
    let mut c = [0u32; 4];
    let mut d = [0u32; 4];
    for l in 0..4 {
        let at = 16 * l;
        let e = at + 16;
        let t = packing_words(&input[at..e]);
        a[l] = t.s0;
        b[l] = t.s1;
        c[l] = t.s2;
        d[l] = t.s3;
    }
    Lanes { a, b, c, d }
}

fn put(s: Lanes, output: &mut [u8])
    requires { length output.old ≡ 64 }
    ensures { output.new ≡ joined 4 (λ k. write_in 1 (block_of (lane_at s k))) }
{
    let a = s.a;
    let b = s.b;
    let c = s.c;
    let d = s.d;
    for n in 0..4 {
        let x = State {
            s0: a[n],
            s1: b[n],
            s2: c[n],
            s3: d[n],
        };
        let at = 16 * n;
        let e = at + 16;
        unpacking_words(x, &mut output[at..e]);
    }
}

// Four blocks of the input, as the order has them, and put.
fn taken(order: Order, input: &[u8]) -> Lanes
    requires { length input.now ≡ 64 }
    ensures { Holds (λ k. arriving (order_number order) (packed 1 (take 16 (drop (16 * k) input.now)))) result }
{
    let mut s = read(input);
    if let Order::Number = order {
        each(&mut s, gather);
    }
    s
}

fn given(order: Order, s: Lanes, output: &mut [u8])
    requires { length output.old ≡ 64 }
    ensures { output.new ≡ joined 4 (λ k. write_in 1 (block_of (leaving (order_number order) (lane_at s k)))) }
{
    let mut t = s;
    if let Order::Number = order {
        each(&mut t, scatter);
    }
    put(t, output);
}

// ---- groups

// From four to twelve blocks: the first four, the last four and, if there are more than eight, the four after the first. What they have in common is done twice,
// to the same bytes.
fn group(order: Order, rkey: &[u32; 80], input: &[u8], output: &mut [u8], back: bool)
    requires input_len { (length input.now % 16 ≡ 0) × (64 ≤ length input.now) × (length input.now ≤ 192) }
    requires output_len { length output.old ≡ length input.now }
    ensures { output.new ≡ all_of 16 (seen (order_number order) (rounds_all back (pairs_from 0 rkey.now))) input.now }
{
    let e = input.len() - 64;
    let x = taken(order, &input[0..64]);
    let y = taken(order, &input[e..]);
    let z = if 128 < input.len() {
        Some(taken(order, &input[64..128]))
    } else {
        None
    };
    let mut t = Fours { x, y, z };
    through(&mut t, rkey, back);
    given(order, t.x, &mut output[0..64]);
    if let Some(z) = t.z {
        given(order, z, &mut output[64..128]);
    }
    given(order, t.y, &mut output[e..]);
}

// Whether there is such an order, there are eighty words, the input is four whole blocks or more and the output as long.
pub fn in_groups(order: u32, words: usize, input: usize, output: usize) -> bool
    ensures { result ≡ in_groups order words input output }
{
    is_order(order) && words == 80 && input % 16 == 0 && 64 <= input && output == input
}

// How many bytes the next group is, of those that are left: eight blocks, and at the end all, so that never less than four are left.
fn width(left: usize) -> usize
    ensures { result ≡ cond (leb left 192) left 128 }
{
    if left <= 192 { left } else { 128 }
}

// All the blocks, if there are four or more, by any eighty words, forty rounds done or undone. An output for which the lengths or the order are not right stays as it is.
pub fn groups(order: u32, rkey: &[u32], input: &[u8], output: &mut [u8], back: bool)
    ensures { output.new ≡ cond (in_groups order (length rkey.now) (length input.now) (length output.old)) (all_of 16 (seen order (rounds_all back (pairs_from 0 rkey.now))) input.now) output.old }
{
    if !in_groups(order, rkey.len(), input.len(), output.len()) {
        return;
    }
    let (Ok(named), Some(words)) = (Order::try_from(order), rkey.as_array::<80>()) else {
        return;
    };
    // Stays: a `while`, since the groups are not of one length, and after a write through `chunks_mut` a proof knows no element of the output.
    let mut a: usize = 0;
    while a < input.len() {
        let e = a + width(input.len() - a);
        group(named, words, &input[a..e], &mut output[a..e], back);
        a = e;
    }
}
