// GIFT-64: one block and many, by a key. Sliced rounds over the boxes of GIFT-128, by 28 round words.
#![tactic(auto, unfolding(published::specs::Calls::many_code, published::specs::Calls64::key_code64))]

mod orders;
mod rounds;
mod words;

ghost use Rattle.std.specs.Prelude.{◌≡◌, true, false, ◌%◌, length};
ghost use Rattle.answers.specs.Outcome.{Gives};
ghost use Rattle.answers.specs.Refusals.{number};
ghost use Rattle.published.specs.Blocks.{all_of};
ghost use Rattle.published.specs.Calls.{many_code};
ghost use Rattle.published.specs.Calls64.{key_code64, CiphersByKey64, CiphersBlocks64};
ghost use Rattle.gift64.specs.Inner.{crossed_by, crossed};

use answers::Refusal;
use orders::{key_code, many_code};
use packing::{packing_64, unpacking_64};
use rounds::through;
use words::expand;

// ---- one block

fn by_key(key: &[u8], block: &mut [u8], back: bool) -> Result<(), Refusal>
    ensures { Gives (key_code64 (length key.now) (length block.old)) (crossed back key.now block.old) block.old (number result) block.new }
{
    key_code(key.len(), block.len())?;
    let words = expand(key);
    let s = packing_64(block);
    let t = through(s, &words, back);
    unpacking_64(t, block);
    Ok(())
}

// One block by a key, in place. Refusals: 1, 2.
// Stays: a call each way, here and below, a rule of the project: "Encrypting and decrypting are separate calls" (document 01).
pub fn encrypt_by_key(key: &[u8], block: &mut [u8]) -> Result<(), Refusal>
    ensures { CiphersByKey64 false key.now block.old (number result) block.new }
{
    by_key(key, block, false)
}

pub fn decrypt_by_key(key: &[u8], block: &mut [u8]) -> Result<(), Refusal>
    ensures { CiphersByKey64 true key.now block.old (number result) block.new }
{
    by_key(key, block, true)
}

// ---- many blocks

// One block from one buffer to another.
fn into(words: &[u32; 28], input: &[u8], output: &mut [u8], back: bool)
    requires input_len { length input.now ≡ 8 }
    requires output_len { length output.old ≡ 8 }
    ensures { output.new ≡ crossed_by back words.now input.now }
{
    let s = packing_64(input);
    let t = through(s, words, back);
    unpacking_64(t, output);
}

// Block n of the output from block n of the input.
fn all(words: &[u32; 28], input: &[u8], output: &mut [u8], back: bool)
    requires input_len { length input.now % 8 ≡ 0 }
    requires output_len { length output.old ≡ length input.now }
    ensures { output.new ≡ all_of 8 (crossed_by back words.now) input.now }
{
    // Stays: `chunks_exact_mut` promises nothing of what the output holds afterwards, so that no proof could close.
    for n in 0..input.len() / 8 {
        let a = 8 * n;
        let e = a + 8;
        into(words, &input[a..e], &mut output[a..e], back);
    }
}

fn many_by_key(key: &[u8], input: &[u8], output: &mut [u8], back: bool) -> Result<(), Refusal>
    ensures { Gives (many_code 8 (length key.now) (length input.now) (length output.old)) (all_of 8 (crossed back key.now) input.now) output.old (number result) output.new }
{
    many_code(key.len(), input.len(), output.len())?;
    let words = expand(key);
    all(&words, input, output, back);
    Ok(())
}

// Many blocks by a key. Refusals: 1, 2, 3.
pub fn encrypt_blocks(key: &[u8], input: &[u8], output: &mut [u8]) -> Result<(), Refusal>
    ensures { CiphersBlocks64 false key.now input.now output.old (number result) output.new }
{
    many_by_key(key, input, output, false)
}

pub fn decrypt_blocks(key: &[u8], input: &[u8], output: &mut [u8]) -> Result<(), Refusal>
    ensures { CiphersBlocks64 true key.now input.now output.old (number result) output.new }
{
    many_by_key(key, input, output, true)
}
