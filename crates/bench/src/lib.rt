// Lanes that take turns on one cipher, by value: a call is given a bench and gives back the bench after it, with the turns made or why it was refused.
#![tactic(auto)]

ghost use Rattle.std.specs.Prelude.{◌≡◌, ◌<◌};
ghost use Rattle.bench_orders.specs.Orders.{lane_count};
ghost use Rattle.bench.specs.Calls.{told, fresh_bench, put, open_of, turn_of, take_of, taken_bytes, close_of};

use answers::Refusal;
pub use bench_orders::LANES;
use bench_orders::{close_code, open_code, take_code, turn_code};
pub use bench_turns::Bench;
use bench_turns::{seen, sound, turns};
use lane::{Lane, idle_lane};
use lane_turns::{opened, yielded};

const LAST: usize = LANES - 1;

// What every call gives back: the turns made, which only a call for turns makes, or its refusal; and the bench after it.
// Stays: the bench stands beside the result, a rule of the project: after a refusal, too, the bench returned is the bench given (document 01).
#[derive(Clone, Copy)]
pub struct Answer {
    pub made: Result<u32, Refusal>,
    pub bench: Bench,
}

// Another record put into a lane.
#[tactic(auto, unfolding(crate::specs::Calls::put, bench_orders::specs::Orders::lane_count))]
fn put(b: Bench, i: usize, l: Lane) -> Bench
    requires { i < lane_count }
    ensures { result ≡ put b i l }
{
    let mut bench = b;
    bench.lanes[i] = l;
    bench
}

// ---- the calls

// All idle, all zero, the last lane the one last served.
#[tactic(auto, unfolding(crate::specs::Calls::fresh_bench, bench_orders::specs::Orders::lane_count))]
pub fn fresh() -> Bench
    ensures { result ≡ fresh_bench }
{
    let lanes = [idle_lane(); LANES];
    Bench {
        lanes,
        last: LAST as u32,
    }
}

pub fn open_lane(
    b: Bench,
    lane: u32,
    owner: u16,
    direction: u32,
    order: u32,
    key: &[u8],
    block: &[u8],
) -> Answer
    ensures { told result ≡ open_of b lane owner direction order key.now block.now }
{
    let seen = seen(&b.lanes, sound(b), lane, owner);
    if let Err(refusal) = open_code(seen, lane, owner, direction, order, key.len(), block.len()) {
        return Answer {
            made: Err(refusal),
            bench: b,
        };
    }
    let l = opened(owner, direction as u8, order as u16, key, block);
    let bench = put(b, lane as usize, l);
    Answer { made: Ok(0), bench }
}

pub fn turn(b: Bench, asked: u32) -> Answer
    ensures { told result ≡ turn_of b asked }
{
    if let Err(refusal) = turn_code(sound(b), asked) {
        return Answer {
            made: Err(refusal),
            bench: b,
        };
    }
    let many = turns(b, asked);
    let bench = many.bench;
    Answer {
        made: Ok(many.made),
        bench,
    }
}

pub fn take(b: Bench, lane: u32, owner: u16, out: &mut [u8]) -> Answer
    ensures { (told result ≡ take_of b lane owner out.old) × (out.new ≡ taken_bytes b lane owner out.old) }
{
    let seen = seen(&b.lanes, sound(b), lane, owner);
    if let Err(refusal) = take_code(seen, lane, out.len()) {
        return Answer {
            made: Err(refusal),
            bench: b,
        };
    }
    let i = lane as usize;
    yielded(b.lanes[i], out);
    let bench = put(b, i, idle_lane());
    Answer { made: Ok(0), bench }
}

pub fn close(b: Bench, lane: u32, owner: u16) -> Answer
    ensures { told result ≡ close_of b lane owner }
{
    let seen = seen(&b.lanes, sound(b), lane, owner);
    if let Err(refusal) = close_code(seen, lane) {
        return Answer {
            made: Err(refusal),
            bench: b,
        };
    }
    let bench = put(b, lane as usize, idle_lane());
    Answer { made: Ok(0), bench }
}
