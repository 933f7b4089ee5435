// The plain engine: GIFT as documents 01 and 02 write it, to be read beside them. Nothing of the sliced engines is used.
#![tactic(auto, unfolding(published::specs::Calls::block_code, published::specs::Calls::key_code, published::specs::Calls64::key_code64, published::specs::Gift128::encrypted, published::specs::Gift128::decrypted, published::specs::Gift128::pairs_of, published::specs::Gift64::encrypted64, published::specs::Gift64::decrypted64, published::specs::Gift64::pairs_of64))]

mod steps;

ghost use Rattle.std.specs.Prelude.{◌≡◌, true, false, ◌*◌, ◌%◌, ◌≤◌, length};
ghost use Rattle.answers.specs.Refusals.{number};
ghost use Rattle.published.specs.Bytes.{from_bytes, to_bytes};
ghost use Rattle.published.specs.Rounds.{constant};
ghost use Rattle.published.specs.Calls.{CiphersByKey};
ghost use Rattle.published.specs.Calls64.{CiphersByKey64};
ghost use Rattle.plain_key.specs.Inner.{key_of, count_of};
ghost use Rattle.plain.specs.Inner.{state_of, nibbles_of, Nibbles, rounds_from, unrounds_from, rounds_by};

use answers::Refusal;
use plain_key::{key_code, key_code_64, rounds_of, u_of, update_key, v_of, v_place};
use steps::{round, step_constant, unround};

// ---- the rounds

// After r rounds, those that follow: the constant is stepped before its use; steps 1 to 4; then 5, the key.
fn encrypt(s: &mut [u8], k: [u16; 8], c: u8, r: usize)
    requires nibbles { Nibbles s.old }
    requires r_bound { (r ≤ count_of (length s.old)) × (c ≡ constant r) }
    ensures { s.new ≡ nibbles_of (length s.old) (rounds_from (length s.old) (key_of k) r (state_of s.old)) }
{
    let n = s.len();
    if r < rounds_of(n) {
        let next = step_constant(c);
        round(s, v_place(n), u_of(k, n), v_of(k, n), next);
        encrypt(s, update_key(k), next, r + 1);
    }
}

// The same rounds undone, the last first.
fn decrypt(s: &mut [u8], k: [u16; 8], c: u8, r: usize)
    requires nibbles { Nibbles s.old }
    requires r_bound { (r ≤ count_of (length s.old)) × (c ≡ constant r) }
    ensures { s.new ≡ nibbles_of (length s.old) (unrounds_from (length s.old) (key_of k) r (state_of s.old)) }
{
    let n = s.len();
    if r < rounds_of(n) {
        let next = step_constant(c);
        decrypt(s, update_key(k), next, r + 1);
        unround(s, v_place(n), u_of(k, n), v_of(k, n), next);
    }
}

// Encrypting and decrypting differ in this alone: whether the rounds are done or undone.
fn through(s: &mut [u8], k: [u16; 8], back: bool)
    requires { Nibbles s.old }
    ensures { s.new ≡ nibbles_of (length s.old) (rounds_by back (length s.old) (key_of k) (state_of s.old)) }
{
    if back {
        decrypt(s, k, 0, 0);
        return;
    }
    encrypt(s, k, 0, 0);
}

// ---- bytes, the first the most significant

// Bytes 0 and 1 are k7.
fn read_key(key: &[u8]) -> [u16; 8]
    requires { length key.now ≡ 16 }
    ensures { key_of result ≡ from_bytes key.now }
{
    let mut k = [0; 8];
    // Stays: no plainer by zip, since k7 comes first in the bytes and last in k.
    for i in 0..8 {
        k[7 - i] = u16::from_be_bytes([key[2 * i], key[2 * i + 1]]);
    }
    k
}

// Nibbles 2i and 2i+1 are those of byte i from the end.
fn read_block(block: &[u8], s: &mut [u8])
    requires { length s.old ≡ 2 * length block.now }
    ensures { s.new ≡ nibbles_of (length s.old) (from_bytes block.now) }
{
    // Stays: `chunks_exact_mut` promises nothing of what s holds afterwards, so that no proof could close.
    for i in 0..block.len() {
        let b = block[block.len() - 1 - i];
        s[2 * i] = b % 16;
        s[2 * i + 1] = b / 16;
    }
}

fn write_block(s: &[u8], block: &mut [u8])
    requires { Nibbles s.now × (length s.now ≡ 2 * length block.old) }
    ensures { block.new ≡ to_bytes (length block.old) (state_of s.now) }
{
    // Stays: `iter_mut().rev()` promises nothing of what the block holds afterwards, so that no proof could close.
    for i in 0..block.len() {
        let at = block.len() - 1 - i;
        block[at] = s[2 * i + 1] * 16 + s[2 * i];
    }
}

// A block, by way of its N nibbles: a number that the compiler knows, and with it how far each loop of a round goes. Else it widens these loops, and a round, which stands on the stack once for each round, takes more stack and more time.
fn cross<const N: usize>(key: &[u8], block: &mut [u8], back: bool)
    requires key_len { length key.now ≡ 16 }
    requires nibbles { N ≡ 2 * length block.old }
    requires block_len { (length block.old % 2 ≡ 0) × (4 ≤ length block.old) × (length block.old ≤ 16) }
    ensures { block.new ≡ to_bytes (length block.old) (rounds_by back (2 * length block.old) (from_bytes key.now) (from_bytes block.old)) }
{
    let mut s = [0u8; N];
    read_block(block, &mut s);
    through(&mut s, read_key(key), back);
    write_block(&s, block);
}

// ---- the calls: refusals 1, 2
// Stays: a call each way and for each member, a rule of the project: separate calls in document 01, the number of each by its own definition (`key_code`, `key_code64`).

pub fn encrypt_by_key(key: &[u8], block: &mut [u8]) -> Result<(), Refusal>
    ensures { CiphersByKey false key.now block.old (number result) block.new }
{
    key_code(key.len(), block.len())?;
    cross::<32>(key, block, false);
    Ok(())
}

pub fn decrypt_by_key(key: &[u8], block: &mut [u8]) -> Result<(), Refusal>
    ensures { CiphersByKey true key.now block.old (number result) block.new }
{
    key_code(key.len(), block.len())?;
    cross::<32>(key, block, true);
    Ok(())
}

// ---- GIFT-64's, the same

pub fn encrypt_64_by_key(key: &[u8], block: &mut [u8]) -> Result<(), Refusal>
    ensures { CiphersByKey64 false key.now block.old (number result) block.new }
{
    key_code_64(key.len(), block.len())?;
    cross::<16>(key, block, false);
    Ok(())
}

pub fn decrypt_64_by_key(key: &[u8], block: &mut [u8]) -> Result<(), Refusal>
    ensures { CiphersByKey64 true key.now block.old (number result) block.new }
{
    key_code_64(key.len(), block.len())?;
    cross::<16>(key, block, true);
    Ok(())
}
