// The boxes and rounds of primitives.rs: the S-box and its inverse, five rounds and their undoing.
#![tactic(auto)]

ghost use Rattle.std.specs.Prelude.{◌≡◌, cond, ◌%◌, ◌<◌, ◌≤◌, length};
ghost use Rattle.published.specs.Rounds.{entry};
ghost use Rattle.published.specs.Inner.{unentry};
ghost use Rattle.primitives.specs.Packed.{block_of, state_of};
ghost use Rattle.round_words.specs.Arranged.{stands};
ghost use Rattle.quintuple.specs.Boxes.{boxed};
ghost use Rattle.quintuple.specs.Quintuple.{good, quintupled, unquintupled, reach, several, unseveral, first_round};
ghost use Rattle.quintuple.specs.Inner.{exchanged_of, moved_in, unmoved_in, subround, unsubround, constants_of, part_of, part_in, five_of, unfive_of};

use consts::round_constant;
use primitives::{
    State, byte_ror_2, byte_ror_4, byte_ror_6, half_ror_4, half_ror_8, half_ror_12, nibble_ror_1,
    nibble_ror_2, nibble_ror_3, ror, swapmovesingle,
};

pub mod consts;

// The table on every column. It leaves s0 and s3 exchanged.
// Stays: `slices` has these steps on 64 bits, here and in the inverse; one box over both widths would need a trait with a method and a law for each of four operators.
pub fn sbox(s: State) -> State
    ensures { result ≡ boxed entry s }
{
    let State {
        mut s0,
        mut s1,
        mut s2,
        mut s3,
    } = s;
    s1 ^= s0 & s2;
    s0 ^= s1 & s3;
    s2 ^= s0 | s1;
    s3 ^= s2;
    s1 ^= s3;
    s3 ^= 0xffffffff;
    s2 ^= s0 & s1;
    State { s0, s1, s2, s3 }
}

// The inverse table on every column. It too leaves s0 and s3 exchanged.
pub fn inv_sbox(s: State) -> State
    ensures { result ≡ boxed unentry s }
{
    let State {
        mut s0,
        mut s1,
        mut s2,
        mut s3,
    } = s;
    s2 ^= s3 & s1;
    s0 ^= 0xffffffff;
    s1 ^= s0;
    s0 ^= s2;
    s2 ^= s3 | s1;
    s3 ^= s1 & s0;
    s1 ^= s3 & s2;
    State { s0, s1, s2, s3 }
}

pub fn exchanged(s: State) -> State
    ensures { result ≡ exchanged_of s }
{
    State {
        s0: s.s3,
        s1: s.s1,
        s2: s.s2,
        s3: s.s0,
    }
}

// What a round goes by: its words for V and U, and its constant.
#[derive(Clone, Copy, Default)]
pub struct RoundKey {
    pub v: u32,
    pub u: u32,
    pub c: u32,
}

// The moves of a quintuple's round K, from 0, in the words as the box leaves them: s0 has the bits that stay.
fn moved<const K: usize>(t: State) -> State
    requires { K < 5 }
    ensures { result ≡ moved_in K t }
{
    let s0 = t.s0;
    match K {
        0 => State {
            s0,
            s1: nibble_ror_2(t.s1),
            s2: nibble_ror_3(t.s2),
            s3: nibble_ror_1(t.s3),
        },
        1 => State {
            s0,
            s1: half_ror_8(t.s1),
            s2: half_ror_12(t.s2),
            s3: half_ror_4(t.s3),
        },
        2 => {
            let s1 = swapmovesingle(t.s1, 0x55555555, 1);
            // Turned after the swap and not before it: else the compiler pairs s1 and s2 in a wide register, and takes them apart again at once.
            let x2 = swapmovesingle(t.s2, 0x55550000, 1);
            let x3 = swapmovesingle(t.s3, 0x00005555, 1);
            let s2 = ror(x2, 16);
            let s3 = ror(x3, 16);
            State { s0, s1, s2, s3 }
        }
        3 => State {
            s0,
            s1: byte_ror_4(t.s1),
            s2: byte_ror_2(t.s2),
            s3: byte_ror_6(t.s3),
        },
        _ => State {
            s0,
            s1: ror(t.s1, 16),
            s2: ror(t.s2, 8),
            s3: ror(t.s3, 24),
        },
    }
}

// The same moves undone, in words whose exchange is undone: here s3 has the bits that stay.
fn unmoved<const K: usize>(s: State) -> State
    requires { K < 5 }
    ensures { result ≡ unmoved_in K s }
{
    let s3 = s.s3;
    match K {
        0 => State {
            s0: nibble_ror_3(s.s0),
            s1: nibble_ror_2(s.s1),
            s2: nibble_ror_1(s.s2),
            s3,
        },
        1 => State {
            s0: half_ror_12(s.s0),
            s1: half_ror_8(s.s1),
            s2: half_ror_4(s.s2),
            s3,
        },
        2 => {
            let y0 = swapmovesingle(s.s0, 0x55550000, 1);
            let s1 = swapmovesingle(s.s1, 0x55555555, 1);
            let y2 = swapmovesingle(s.s2, 0x00005555, 1);
            let s0 = ror(y0, 16);
            let s2 = ror(y2, 16);
            State { s0, s1, s2, s3 }
        }
        3 => State {
            s0: byte_ror_2(s.s0),
            s1: byte_ror_4(s.s1),
            s2: byte_ror_6(s.s2),
            s3,
        },
        _ => State {
            s0: ror(s.s0, 8),
            s1: ror(s.s1, 16),
            s2: ror(s.s2, 24),
            s3,
        },
    }
}

// Round K of a quintuple. Like the box, it leaves s0 and s3 exchanged.
fn round<const K: usize>(s: State, key: RoundKey) -> State
    requires { K < 5 }
    ensures { result ≡ subround K s key.v key.u key.c }
{
    let t = moved::<K>(sbox(s));
    State {
        s0: t.s0 ^ key.c,
        s1: t.s1 ^ key.v,
        s2: t.s2 ^ key.u,
        s3: t.s3,
    }
}

// The same round undone, from exchanged words. It gives the words back in their places.
fn inv_round<const K: usize>(s: State, key: RoundKey) -> State
    requires { K < 5 }
    ensures { result ≡ unsubround K s key.v key.u key.c }
{
    let t = State {
        s0: s.s3,
        s1: s.s1 ^ key.v,
        s2: s.s2 ^ key.u,
        s3: s.s0 ^ key.c,
    };
    exchanged(inv_sbox(unmoved::<K>(t)))
}

// Whether a quintuple can start at i, with these words.
fn starts(rkey: &[u32], i: usize) -> bool
    ensures { result ≡ good rkey.now i }
{
    10 <= rkey.len() && i <= 35 && i % 5 == 0
}

// What a quintuple goes by, all read before its first round: the key of each of its five.
#[derive(Clone, Copy, Default)]
pub struct Part {
    pub k0: RoundKey,
    pub k1: RoundKey,
    pub k2: RoundKey,
    pub k3: RoundKey,
    pub k4: RoundKey,
}

// The five entries of GIFT_RC from i on, written out: a constant array that is indexed is copied at every use, and what was just copied is slow to read again.
fn constants(i: usize) -> [u32; 5]
    requires i_bound { i ≤ 35 }
    requires i_value { i % 5 ≡ 0 }
    ensures { result ≡ constants_of i }
{
    match i {
        0 => [0x10000008, 0x80018000, 0x54000002, 0x01010181, 0x8000001f],
        5 => [0x10888880, 0x6001e000, 0x51500002, 0x03030180, 0x8000002f],
        10 => [0x10088880, 0x60016000, 0x41500002, 0x03030080, 0x80000027],
        15 => [0x10008880, 0x4001e000, 0x11500002, 0x03020180, 0x8000002b],
        20 => [0x10080880, 0x60014000, 0x01400002, 0x02020080, 0x80000021],
        25 => [0x10000080, 0x0001c000, 0x51000002, 0x03010180, 0x8000002e],
        30 => [0x10088800, 0x60012000, 0x40500002, 0x01030080, 0x80000006],
        _ => [0x10008808, 0xc001a000, 0x14500002, 0x01020181, 0x8000001a],
    }
}

fn read_part(rkey: &[u32], i: usize) -> Part
    requires in_bounds { 10 ≤ length rkey.now }
    requires i_bound { i ≤ 35 }
    requires i_value { i % 5 ≡ 0 }
    ensures { result ≡ part_of rkey.now i }
{
    let [c0, c1, c2, c3, c4] = constants(i);
    Part {
        k0: RoundKey {
            v: rkey[0],
            u: rkey[1],
            c: c0,
        },
        k1: RoundKey {
            v: rkey[2],
            u: rkey[3],
            c: c1,
        },
        k2: RoundKey {
            v: rkey[4],
            u: rkey[5],
            c: c2,
        },
        k3: RoundKey {
            v: rkey[6],
            u: rkey[7],
            c: c3,
        },
        k4: RoundKey {
            v: rkey[8],
            u: rkey[9],
            c: c4,
        },
    }
}

// What the quintuple at i goes by, for callers that take several states through it; nothing where none starts.
pub fn part_at(rkey: &[u32], i: usize) -> Part
    ensures { result ≡ part_in rkey.now i }
{
    if !starts(rkey, i) {
        return Part::default();
    }
    read_part(rkey, i)
}

// The five rounds by a part that was read. Put into every caller: a quintuple is slow where it is a call.
#[inline(always)]
pub fn by_part(s: State, p: Part) -> State
    ensures { result ≡ five_of p s }
{
    let a = round::<0>(s, p.k0);
    let b = round::<1>(exchanged(a), p.k1);
    let c = round::<2>(exchanged(b), p.k2);
    let d = round::<3>(exchanged(c), p.k3);
    let e = round::<4>(exchanged(d), p.k4);
    exchanged(e)
}

// The same rounds undone, the last first. The exchange of s0 and s3 is undone first of all.
#[inline(always)]
pub fn inv_by_part(s: State, p: Part) -> State
    ensures { result ≡ unfive_of p (state_of (block_of s)) }
{
    let a = inv_round::<4>(exchanged(s), p.k4);
    let b = inv_round::<3>(exchanged(a), p.k3);
    let c = inv_round::<2>(exchanged(b), p.k2);
    let d = inv_round::<1>(exchanged(c), p.k1);
    inv_round::<0>(exchanged(d), p.k0)
}

// Rounds i + 1 to i + 5, by the first ten of the words. With fewer words, or where no quintuple starts at i, the state stays.
pub fn quintuple_round(state: State, rkey: &[u32], i: usize) -> State
    ensures { result ≡ quintupled state rkey.now i }
{
    if !starts(rkey, i) {
        return state;
    }
    by_part(state, read_part(rkey, i))
}

// The same rounds undone.
// Stays: a function each way, as what may not change: both names are the crate's, and docs/CLAIMS.md has their contracts.
pub fn inv_quintuple_round(state: State, rkey: &[u32], i: usize) -> State
    ensures { result ≡ unquintupled state rkey.now i }
{
    if !starts(rkey, i) {
        return state;
    }
    inv_by_part(state, read_part(rkey, i))
}

// Whether eighty words and forty rounds have n quintuples from this offset on.
fn reaches(rkey: &[u32], from: usize, n: usize) -> bool
    ensures { result ≡ reach rkey.now from n }
{
    rkey.len() == 80 && from <= 40 && n <= 8 && from + 5 * n <= 40
}

// n quintuples from an offset on, over the words of all forty rounds. Where there are not so many the state stays. What goes through a block asks for its
// quintuples here, one or eight: the compiler puts a quintuple's text into its caller only where it is called at one place.
pub fn quintuples(s: State, rkey: &[u32], from: usize, n: usize) -> State
    ensures { result ≡ cond (reach rkey.now from n) (several rkey.now n from s) s }
{
    if !reaches(rkey, from, n) {
        return s;
    }
    let mut state = s;
    for k in 0..n {
        let i = from + 5 * k;
        state = quintuple_round(state, &rkey[2 * i..], i);
    }
    state
}

pub fn inv_quintuples(s: State, rkey: &[u32], from: usize, n: usize) -> State
    ensures { result ≡ cond (reach rkey.now from n) (unseveral rkey.now n from s) s }
{
    if !reaches(rkey, from, n) {
        return s;
    }
    let mut state = s;
    for k in (0..n).rev() {
        let i = from + 5 * k;
        state = inv_quintuple_round(state, &rkey[2 * i..], i);
    }
    state
}

// A word that was kept one round in, put in place again: the swaps of the crate's rearrange_rkey_0, the last first.
fn unarranged(x: u32) -> u32
    ensures { result ≡ stands 1 x }
{
    let a = swapmovesingle(x, 0x000000ff, 24);
    let b = swapmovesingle(a, 0x00003333, 18);
    let c = swapmovesingle(b, 0x000f000f, 12);
    swapmovesingle(c, 0x00550055, 9)
}

// Round 1 alone, by the first two of the words, with the words put in place again. With fewer words the state stays.
pub fn first_round(state: State, rkey: &[u32]) -> State
    ensures { result ≡ first_round state rkey.now }
{
    if rkey.len() < 2 {
        return state;
    }
    let key = RoundKey {
        v: rkey[0],
        u: rkey[1],
        c: round_constant(0),
    };
    let x = exchanged(round::<0>(state, key));
    let s0 = unarranged(x.s0);
    let s1 = unarranged(x.s1);
    let s2 = unarranged(x.s2);
    let s3 = unarranged(x.s3);
    State { s0, s1, s2, s3 }
}
