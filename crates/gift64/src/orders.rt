// The refusals of each call, by the lengths of what is lent, tried in document 01's order, and nothing else.
ghost use Rattle.std.specs.Prelude.{◌≡◌};
ghost use Rattle.answers.specs.Refusals.{number};
ghost use Rattle.published.specs.Calls.{many_code};
ghost use Rattle.published.specs.Calls64.{key_code64};

use answers::Refusal;

const BLOCK_SIZE: usize = 8;

const KEY_SIZE: usize = 16;

// One block by a key: 1, 2.
pub(crate) fn key_code(key: usize, block: usize) -> Result<(), Refusal>
    ensures { number result ≡ key_code64 key block }
{
    if key != KEY_SIZE {
        return Err(Refusal::BadKeyLength);
    }
    if block != BLOCK_SIZE {
        return Err(Refusal::BadBlockLength);
    }
    Ok(())
}

// Many blocks by a key: 1, 2, 3.
pub(crate) fn many_code(key: usize, input: usize, output: usize) -> Result<(), Refusal>
    ensures { number result ≡ many_code 8 key input output }
{
    if key != KEY_SIZE {
        return Err(Refusal::BadKeyLength);
    }
    if input % BLOCK_SIZE != 0 {
        return Err(Refusal::BadBlockLength);
    }
    if output != input {
        return Err(Refusal::BadOutputLength);
    }
    Ok(())
}
