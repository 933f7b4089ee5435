// The number that each call gives: its refusals, tried in the documents' order by the order's number and the lengths of what is lent, and nothing else; and beside it what the call then goes on with.
ghost use Rattle.std.specs.Prelude.{◌≡◌, eqb, length, ⊤};
ghost use Rattle.std.specs.Result.{MatchResult};
ghost use Rattle.std.specs.declared.result.Result.TheVariants.{Ok};
ghost use Rattle.answers.specs.Numbers.{BAD_WORD_COUNT};
ghost use Rattle.answers.specs.Order.{unless};
ghost use Rattle.answers.specs.Refusals.{number};
ghost use Rattle.packing.specs.Orders.{order_number};
ghost use Rattle.published.specs.Calls.{block_code, key_code, blocks_code, many_code};
ghost use Rattle.gift128.specs.Calls.{order_code, words_code, many_words_code};

use crate::Gift128;
use answers::Refusal;
use packing::Order;

// 13, and then the call's own number; with the order, what the call's own test gave.
pub(crate) fn in_order<T: Copy>(order: u32, own: Result<T, Refusal>) -> Result<(Order, T), Refusal>
    ensures code { number result ≡ order_code order (number own) }
    ensures kept { MatchResult result (λ kept. (order_number kept.0 ≡ order) × (own ≡ Ok kept.1)) (λ _. ⊤) }
{
    let order = Order::try_from(order)?;
    Ok((order, own?))
}

// Round words, before what is asked of the blocks: 4.
fn eighty(words: &[u32]) -> Result<&[u32; 80], Refusal>
    ensures code { number result ≡ unless (eqb (length words.now) 80) BAD_WORD_COUNT 0 }
    ensures kept { MatchResult result (λ kept. kept.now ≡ words.now) (λ _. ⊤) }
{
    words.as_array().ok_or(Refusal::BadWordCount)
}

// One block by a `Gift128`: 2.
fn block_code(block: usize) -> Result<(), Refusal>
    ensures { number result ≡ block_code block }
{
    if block != Gift128::BLOCK_SIZE {
        return Err(Refusal::BadBlockLength);
    }
    Ok(())
}

// By a key: 1, 2.
pub(crate) fn key_code(key: usize, block: usize) -> Result<(), Refusal>
    ensures { number result ≡ key_code key block }
{
    if key != Gift128::KEY_SIZE {
        return Err(Refusal::BadKeyLength);
    }
    block_code(block)
}

// By round words: 4, 2.
pub(crate) fn words_code(words: &[u32], block: usize) -> Result<&[u32; 80], Refusal>
    ensures code { number result ≡ words_code (length words.now) block }
    ensures kept { MatchResult result (λ kept. kept.now ≡ words.now) (λ _. ⊤) }
{
    let kept = eighty(words)?;
    block_code(block)?;
    Ok(kept)
}

// Many blocks: 2, 3.
fn blocks_code(input: usize, output: usize) -> Result<(), Refusal>
    ensures { number result ≡ blocks_code 16 input output }
{
    if input % Gift128::BLOCK_SIZE != 0 {
        return Err(Refusal::BadBlockLength);
    }
    if output != input {
        return Err(Refusal::BadOutputLength);
    }
    Ok(())
}

// Many blocks by a key: 1, 2, 3.
pub(crate) fn many_code(key: usize, input: usize, output: usize) -> Result<(), Refusal>
    ensures { number result ≡ many_code 16 key input output }
{
    if key != Gift128::KEY_SIZE {
        return Err(Refusal::BadKeyLength);
    }
    blocks_code(input, output)
}

// Many blocks by round words: 4, 2, 3.
pub(crate) fn many_words_code(
    words: &[u32],
    input: usize,
    output: usize,
) -> Result<&[u32; 80], Refusal>
    ensures code { number result ≡ many_words_code (length words.now) input output }
    ensures kept { MatchResult result (λ kept. kept.now ≡ words.now) (λ _. ⊤) }
{
    let kept = eighty(words)?;
    blocks_code(input, output)?;
    Ok(kept)
}
