// The key's part of the plain engine: what the members differ in, the pairs that a round takes of a key state, its update, and the number that a call by a key gives.
#![tactic(auto, unfolding(published::specs::Calls::block_code, published::specs::Calls::key_code, published::specs::Calls64::key_code64))]

ghost use Rattle.std.specs.Prelude.{◌≡◌, ◌<◌};
ghost use Rattle.answers.specs.Refusals.{number};
ghost use Rattle.published.specs.Key.{ror16, update};
ghost use Rattle.published.specs.Calls.{key_code};
ghost use Rattle.published.specs.Calls64.{key_code64};
ghost use Rattle.plain_key.specs.Inner.{key_of, count_of, place_of, uv_of};

use answers::Refusal;

// ---- what the members differ in, by the number of nibbles: GIFT-64 has sixteen, GIFT-128 thirty-two
// Stays: a function for each thing, since the new form is no plainer: `of(n, 28, 40)`, `of(n, 0, 1)` would put the numbers where they are used, and the documents say U and V apart.

pub const SMALL: usize = 16;

pub fn rounds_of(n: usize) -> usize
    ensures { result ≡ count_of n }
{
    if n == SMALL { 28 } else { 40 }
}

// Where V's bits go in each nibble; U's go to the next place.
pub fn v_place(n: usize) -> usize
    ensures { result ≡ place_of n }
{
    if n == SMALL { 0 } else { 1 }
}

// 3. U = k5 ‖ k4 and V = k1 ‖ k0; in GIFT-64 U = k1 and V = k0.
pub fn u_of(k: [u16; 8], n: usize) -> u32
    ensures { result ≡ (uv_of n (key_of k)).u }
{
    if n == SMALL {
        return k[1] as u32;
    }
    k[5] as u32 * 65536 + k[4] as u32
}

pub fn v_of(k: [u16; 8], n: usize) -> u32
    ensures { result ≡ (uv_of n (key_of k)).v }
{
    if n == SMALL {
        return k[0] as u32;
    }
    k[1] as u32 * 65536 + k[0] as u32
}

// ---- the key state, ki at place i

fn rotated_right(k: u16, r: u32) -> u16
    requires { (0 < r) × (r < 16) }
    ensures { result ≡ ror16 r k }
{
    k >> r | k << (16 - r)
}

// 5. The key state becomes (k1 rotated right 2) ‖ (k0 rotated right 12) ‖ k7 ‖ k6 ‖ k5 ‖ k4 ‖ k3 ‖ k2. It is listed from k0 on.
pub fn update_key(k: [u16; 8]) -> [u16; 8]
    ensures { key_of result ≡ update (key_of k) }
{
    [
        k[2],
        k[3],
        k[4],
        k[5],
        k[6],
        k[7],
        rotated_right(k[0], 12),
        rotated_right(k[1], 2),
    ]
}

// ---- the refusals of a call: 1, 2

pub fn key_code(key: usize, block: usize) -> Result<(), Refusal>
    ensures { number result ≡ key_code key block }
{
    if key != 16 {
        return Err(Refusal::BadKeyLength);
    }
    if block != 16 {
        return Err(Refusal::BadBlockLength);
    }
    Ok(())
}

// ---- GIFT-64's, the same
// Stays: two of five lines, each by its own definition, since the new form is no plainer: `code(key, block, 8)` would be called by both names and be as long.

pub fn key_code_64(key: usize, block: usize) -> Result<(), Refusal>
    ensures { number result ≡ key_code64 key block }
{
    if key != 16 {
        return Err(Refusal::BadKeyLength);
    }
    if block != 8 {
        return Err(Refusal::BadBlockLength);
    }
    Ok(())
}
