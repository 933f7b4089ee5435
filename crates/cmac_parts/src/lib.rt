// What CMAC's calls are made of: what each answers by lengths and the state's count, its refusals in the order that document 02 gives them; and the subkeys.
#![tactic(auto)]

ghost use Rattle.std.specs.Prelude.{◌≡◌};
ghost use Rattle.answers.specs.Refusals.{number};
ghost use Rattle.published.specs.Calls.{block_code, key_code};
ghost use Rattle.cmac_parts.specs.Standard.{shifted, subkey};
ghost use Rattle.cmac_parts.specs.Orders.{piece_code, tag_code};
ghost use Rattle.cmac_parts.specs.Inner.{subkey_of};

use answers::Refusal;

// ---- the refusals

// A tag that is lent: 2.
#[tactic(auto, unfolding(published::specs::Calls::block_code))]
fn length_code(tag: usize) -> Result<(), Refusal>
    ensures { number result ≡ block_code tag }
{
    if tag != 16 {
        return Err(Refusal::BadBlockLength);
    }
    Ok(())
}

// A whole message, and a check: 1, 2.
#[tactic(auto, unfolding(published::specs::Calls::key_code))]
pub fn key_code(key: usize, tag: usize) -> Result<(), Refusal>
    ensures { number result ≡ key_code key tag }
{
    if key != 16 {
        return Err(Refusal::BadKeyLength);
    }
    length_code(tag)
}

// A piece: 10.
#[tactic(auto, unfolding(crate::specs::Orders::piece_code))]
pub fn piece_code(count: u32) -> Result<(), Refusal>
    ensures { number result ≡ piece_code count }
{
    if 16 < count {
        return Err(Refusal::BadState);
    }
    Ok(())
}

// The tag of a state: 10, 2.
#[tactic(auto, unfolding(crate::specs::Orders::piece_code, crate::specs::Orders::tag_code))]
pub fn tag_code(count: u32, tag: usize) -> Result<(), Refusal>
    ensures { number result ≡ tag_code count tag }
{
    piece_code(count)?;
    length_code(tag)
}

// ---- the subkeys

// All bits one place up.
fn shift(block: [u8; 16]) -> [u8; 16]
    ensures { result ≡ shifted block }
{
    (u128::from_be_bytes(block) << 1).to_be_bytes()
}

// K1 from L, and K2 from K1. No test of the bit that is shifted out, since the blocks are secret.
fn next(block: [u8; 16]) -> [u8; 16]
    ensures { result ≡ subkey block }
{
    let mut key = shift(block);
    key[15] ^= block[0] / 128 * 135;
    key
}

// The next subkey in the place of a block; another length than 16 is left as it is.
pub fn double(block: &mut [u8])
    ensures { block.new ≡ subkey_of block.old }
{
    if let Ok(own) = <[u8; 16]>::try_from(&*block) {
        block.copy_from_slice(&next(own));
    }
}
