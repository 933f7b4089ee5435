// The answer that each call gives: its refusals, tried in document 01's order, and nothing else. The bench by value and the lent bench both ask here.
#![tactic(auto)]

ghost use Rattle.std.specs.Prelude.{◌≡◌};
ghost use Rattle.answers.specs.Refusals.{number};
ghost use Rattle.bench_orders.specs.Orders.{open_code, turn_code, take_code, close_code};

use answers::Refusal;
use gift128::Gift128;
use lane::{Direction, Phase};
use packing::Order;

// How many lanes a bench has.
pub const LANES: usize = 16;

// How many turns one call may ask for.
const MOST_TURNS: u32 = 1024;

// What a look at a bench tells a call: whether the bench is sound, and of the lane that is named its phase and whether it is open to the caller.
// Stays: the phase is the record's number and soundness stands beside it, as what may not change: `open_code` and `take_code` take any, of records that are not sound too.
#[derive(Clone, Copy)]
pub struct Seen {
    pub sound: bool,
    pub phase: u8,
    pub admitted: bool,
}

// 10, 5, 6, 11, 9, 13, 1, 2.
#[tactic(auto, unfolding(crate::specs::Orders::open_code, crate::specs::Orders::lane_count))]
pub fn open_code(
    seen: Seen,
    lane: u32,
    owner: u16,
    direction: u32,
    order: u32,
    key: usize,
    block: usize,
) -> Result<(), Refusal>
    ensures { number result ≡ open_code seen.sound lane seen.phase owner direction order key block }
{
    if !seen.sound {
        return Err(Refusal::BadBench);
    }
    if LANES <= (lane as usize) {
        return Err(Refusal::BadLane);
    }
    if seen.phase != Phase::Idle as u8 {
        return Err(Refusal::LaneNotIdle);
    }
    if owner == 0 {
        return Err(Refusal::NotTheOwner);
    }
    Direction::try_from(direction)?;
    Order::try_from(order)?;
    if key != Gift128::KEY_SIZE {
        return Err(Refusal::BadKeyLength);
    }
    if block != Gift128::BLOCK_SIZE {
        return Err(Refusal::BadBlockLength);
    }
    Ok(())
}

// 10, 8.
#[tactic(auto, unfolding(crate::specs::Orders::turn_code))]
pub fn turn_code(sound: bool, asked: u32) -> Result<(), Refusal>
    ensures { number result ≡ turn_code sound asked }
{
    if !sound {
        return Err(Refusal::BadBench);
    }
    if MOST_TURNS < asked {
        return Err(Refusal::TooManyTurns);
    }
    Ok(())
}

// 10, 5, 11, 7, 2.
#[tactic(auto, unfolding(crate::specs::Orders::take_code, crate::specs::Orders::close_code, crate::specs::Orders::lane_count))]
pub fn take_code(seen: Seen, lane: u32, out: usize) -> Result<(), Refusal>
    ensures { number result ≡ take_code seen.sound lane seen.admitted seen.phase out }
{
    close_code(seen, lane)?;
    if seen.phase != Phase::Finished as u8 {
        return Err(Refusal::LaneNotFinished);
    }
    if out != Gift128::BLOCK_SIZE {
        return Err(Refusal::BadBlockLength);
    }
    Ok(())
}

// 10, 5, 11.
#[tactic(auto, unfolding(crate::specs::Orders::close_code, crate::specs::Orders::lane_count))]
pub fn close_code(seen: Seen, lane: u32) -> Result<(), Refusal>
    ensures { number result ≡ close_code seen.sound lane seen.admitted }
{
    if !seen.sound {
        return Err(Refusal::BadBench);
    }
    if LANES <= (lane as usize) {
        return Err(Refusal::BadLane);
    }
    if !seen.admitted {
        return Err(Refusal::NotTheOwner);
    }
    Ok(())
}
