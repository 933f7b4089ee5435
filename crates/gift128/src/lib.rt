// GIFT-128: one block and many, by a key, by round words and by a `Gift128`, in either order. The two block functions of lib.rs, with refusals.
#![tactic(auto, unfolding(crate::specs::Calls::order_code, crate::specs::Calls::words_code, crate::specs::Calls::many_words_code, published::specs::Calls::block_code, published::specs::Calls::key_code, published::specs::Calls::many_code, key_schedule::specs::Expand::expand_code))]

mod orders;

ghost use Rattle.std.specs.Prelude.{◌≡◌, true, false, ◌+◌, ◌%◌, ◌≤◌, length, replicate};
ghost use Rattle.answers.specs.Refusals.{number};
ghost use Rattle.published.specs.Seen.{seen};
ghost use Rattle.packing.specs.Orders.{order_number};
ghost use Rattle.primitives.specs.Packed.{block_of, state_of};
ghost use Rattle.key_schedule.specs.Expand.{Expands};
ghost use Rattle.gift128.specs.Calls.{rounds_by, all_blocks, words_made};
ghost use Rattle.gift128.specs.Calls.{CiphersByKeyIn, CiphersByWordsIn, CiphersBlocksIn, CiphersBlocksByWordsIn};
ghost use Rattle.gift128.specs.Calls.{MakesOneRound, CiphersBlockIn};

use answers::Refusal;
use key_schedule::precompute_rkeys;
use orders::{in_order, key_code, many_code, many_words_code, words_code};
use packing::{NUMBER, Order, packing, unpacking};
use primitives::State;
use quintuple::{first_round, inv_quintuples, quintuples};
use slices::all_groups;

// A cipher instance: its eighty round words. A refused key stands for the one by default, whose words are eighty zeros, which are those of the all-zero key.
#[repr(C)]
#[derive(Clone, Copy)]
pub struct Gift128 {
    pub k: [u32; 80],
}

// What a refused key stands for.
impl Default for Gift128 {
    ghost is_default = { λ cipher. cipher.k ≡ replicate 80 0 };

    fn default() -> Gift128 {
        Gift128 { k: [0; 80] }
    }
}

impl Gift128 {
    pub const BLOCK_SIZE: usize = 16;

    pub const KEY_SIZE: usize = 16;

    pub const ROUNDS: usize = 40;

    // Refusal: 1.
    pub fn new(key: &[u8]) -> Result<Gift128, Refusal>
        ensures { Expands key.now (replicate 80 0) (number result) (words_made result) }
    {
        let mut k = [0; 80];
        precompute_rkeys(key, &mut k)?;
        Ok(Gift128 { k })
    }

    // One block. Refusals: 13, 2.
    // Stays: a call each way, here and below, a rule of the project: "Encrypting and decrypting are separate calls" (document 01); `Way` is what both are made of.
    pub fn encrypt_block(self, order: u32, block: &mut [u8]) -> Result<(), Refusal>
        ensures { CiphersBlockIn false order self.k block.old (number result) block.new }
    {
        encrypt_by_words(order, &self.k, block)
    }

    pub fn decrypt_block(self, order: u32, block: &mut [u8]) -> Result<(), Refusal>
        ensures { CiphersBlockIn true order self.k block.old (number result) block.new }
    {
        decrypt_by_words(order, &self.k, block)
    }
}

// ---- the rounds

// A way through the rounds: by these words, done or (back) undone, on blocks that are seen in this order. Encrypting and decrypting differ in `back` alone.
#[derive(Clone, Copy)]
struct Way<'a> {
    order: Order,
    words: &'a [u32; 80],
    back: bool,
}

impl Way<'_> {
    // The forty rounds, five at a time; undone, the last first.
    fn through(self, s: State) -> State
        ensures { result ≡ state_of (rounds_by self.entry.back self.entry.words.now (block_of s)) }
    {
        let words = self.words;
        if self.back {
            return inv_quintuples(s, words, 0, 8);
        }
        quintuples(s, words, 0, 8)
    }

    // One block, in place.
    fn in_place(self, block: &mut [u8])
        requires block_len { length block.old ≡ 16 }
        ensures { block.new ≡ seen (order_number self.entry.order) (rounds_by self.entry.back self.entry.words.now) block.old }
    {
        let order = u32::from(self.order);
        let s = packing(order, block);
        let t = self.through(s);
        unpacking(order, t, block);
    }

    // One block, from one buffer to another.
    fn into(self, input: &[u8], output: &mut [u8])
        requires input_len { length input.now ≡ 16 }
        requires output_len { length output.old ≡ 16 }
        ensures { output.new ≡ seen (order_number self.entry.order) (rounds_by self.entry.back self.entry.words.now) input.now }
    {
        let order = u32::from(self.order);
        let s = packing(order, input);
        let t = self.through(s);
        unpacking(order, t, output);
    }

    // Block n of the output from block n of the input, one after the other.
    fn singles(self, input: &[u8], output: &mut [u8])
        requires input_len { length input.now % 16 ≡ 0 }
        requires output_len { length output.old ≡ length input.now }
        ensures { output.new ≡ all_blocks (seen (order_number self.entry.order) (rounds_by self.entry.back self.entry.words.now)) input.now }
    {
        // Stays: `chunks_exact_mut` promises nothing of what the output holds afterwards, so that no proof could close.
        for n in 0..input.len() / 16 {
            let a = 16 * n;
            let e = a + 16;
            self.into(&input[a..e], &mut output[a..e]);
        }
    }

    // Many at once where there are four and more, and singly what is alone.
    fn all(self, input: &[u8], output: &mut [u8])
        requires input_len { length input.now % 16 ≡ 0 }
        requires output_len { length output.old ≡ length input.now }
        ensures { output.new ≡ all_blocks (seen (order_number self.entry.order) (rounds_by self.entry.back self.entry.words.now)) input.now }
    {
        if input.len() < 64 {
            self.singles(input, output);
            return;
        }
        let m = input.len() - alone(input.len());
        let words = self.words;
        all_groups(
            self.order.into(),
            words,
            &input[0..m],
            &mut output[0..m],
            self.back,
        );
        self.singles(&input[m..], &mut output[m..]);
    }
}

// How many bytes at the end go singly: one block, where the lanes would go through four for it.
fn alone(n: usize) -> usize
    ensures { (result % 16 ≡ 0) × (64 ≤ n → result + 64 ≤ n) }
{
    if n % 128 == 16 {
        return 16;
    }
    0
}

// ---- one block

fn by_words(order: u32, rkey: &[u32], block: &mut [u8], back: bool) -> Result<(), Refusal>
    ensures { CiphersByWordsIn back order rkey.now block.old (number result) block.new }
{
    let (order, words) = in_order(order, words_code(rkey, block.len()))?;
    Way { order, words, back }.in_place(block);
    Ok(())
}

// One block by round words, any eighty. Refusals: 13, 4, 2.
pub fn encrypt_by_words(order: u32, rkey: &[u32], block: &mut [u8]) -> Result<(), Refusal>
    ensures { CiphersByWordsIn false order rkey.now block.old (number result) block.new }
{
    by_words(order, rkey, block, false)
}

pub fn decrypt_by_words(order: u32, rkey: &[u32], block: &mut [u8]) -> Result<(), Refusal>
    ensures { CiphersByWordsIn true order rkey.now block.old (number result) block.new }
{
    by_words(order, rkey, block, true)
}

fn by_key(order: u32, key: &[u8], block: &mut [u8], back: bool) -> Result<(), Refusal>
    ensures { CiphersByKeyIn back order key.now block.old (number result) block.new }
{
    let (order, _) = in_order(order, key_code(key.len(), block.len()))?;
    // Words of its own, and no `Gift128::new`: an answer that holds a cipher is copied to where it is used, and the header promises hosts less than 1 KiB of stack here.
    let mut words = [0; 80];
    precompute_rkeys(key, &mut words)?;
    let words = &words;
    Way { order, words, back }.in_place(block);
    Ok(())
}

// One block by a key. Refusals: 13, 1, 2.
pub fn encrypt_by_key(order: u32, key: &[u8], block: &mut [u8]) -> Result<(), Refusal>
    ensures { CiphersByKeyIn false order key.now block.old (number result) block.new }
{
    by_key(order, key, block, false)
}

pub fn decrypt_by_key(order: u32, key: &[u8], block: &mut [u8]) -> Result<(), Refusal>
    ensures { CiphersByKeyIn true order key.now block.old (number result) block.new }
{
    by_key(order, key, block, true)
}

// The state after round 1, by a key, in order 0. Refusals: 1, 2.
pub fn one_round(key: &[u8], block: &mut [u8]) -> Result<(), Refusal>
    ensures { MakesOneRound key.now block.old (number result) block.new }
{
    key_code(key.len(), block.len())?;
    let cipher = Gift128::new(key)?;
    let s = packing(NUMBER, block);
    let once = first_round(s, &cipher.k);
    unpacking(NUMBER, once, block);
    Ok(())
}

// ---- many blocks

fn many_by_words(
    order: u32,
    rkey: &[u32],
    input: &[u8],
    output: &mut [u8],
    back: bool,
) -> Result<(), Refusal>
    ensures { CiphersBlocksByWordsIn back order rkey.now input.now output.old (number result) output.new }
{
    let own = many_words_code(rkey, input.len(), output.len());
    let (order, words) = in_order(order, own)?;
    Way { order, words, back }.all(input, output);
    Ok(())
}

// Many blocks by round words, any eighty. Refusals: 13, 4, 2, 3.
pub fn encrypt_blocks_by_words(
    order: u32,
    rkey: &[u32],
    input: &[u8],
    output: &mut [u8],
) -> Result<(), Refusal>
    ensures { CiphersBlocksByWordsIn false order rkey.now input.now output.old (number result) output.new }
{
    many_by_words(order, rkey, input, output, false)
}

pub fn decrypt_blocks_by_words(
    order: u32,
    rkey: &[u32],
    input: &[u8],
    output: &mut [u8],
) -> Result<(), Refusal>
    ensures { CiphersBlocksByWordsIn true order rkey.now input.now output.old (number result) output.new }
{
    many_by_words(order, rkey, input, output, true)
}

fn many_by_key(
    order: u32,
    key: &[u8],
    input: &[u8],
    output: &mut [u8],
    back: bool,
) -> Result<(), Refusal>
    ensures { CiphersBlocksIn back order key.now input.now output.old (number result) output.new }
{
    let own = many_code(key.len(), input.len(), output.len());
    let (order, _) = in_order(order, own)?;
    let mut words = [0; 80];
    precompute_rkeys(key, &mut words)?;
    let words = &words;
    Way { order, words, back }.all(input, output);
    Ok(())
}

// Many blocks by a key. Refusals: 13, 1, 2, 3.
pub fn encrypt_blocks(
    order: u32,
    key: &[u8],
    input: &[u8],
    output: &mut [u8],
) -> Result<(), Refusal>
    ensures { CiphersBlocksIn false order key.now input.now output.old (number result) output.new }
{
    many_by_key(order, key, input, output, false)
}

pub fn decrypt_blocks(
    order: u32,
    key: &[u8],
    input: &[u8],
    output: &mut [u8],
) -> Result<(), Refusal>
    ensures { CiphersBlocksIn true order key.now input.now output.old (number result) output.new }
{
    many_by_key(order, key, input, output, true)
}
