// What a lane does: its opening, a turn of its own, and what it yields.
#![tactic(auto)]

ghost use Rattle.std.specs.Prelude.{◌≡◌, ◌<◌};
ghost use Rattle.lane_turns.specs.Turns.{opened, advanced, served, yielded};

use gift128::Gift128;
use lane::{Direction, Lane, Phase, TURNS};
use packing::{packing, unpacking};
use primitives::State;
use quintuple::{inv_quintuples, quintuples};

// ---- opening

// The key expanded and the block packed as its order has it: running, with no turn made. (Of a key or block of another length than 16, and in another
// order, which every call refuses before, the words are zero.)
// Stays: direction and order are numbers, as what may not change: `opened` is a public function that takes any, and the record keeps them so.
#[tactic(auto, unfolding(crate::specs::Turns::opened))]
pub fn opened(owner: u16, direction: u8, order: u16, key: &[u8], block: &[u8]) -> Lane
    ensures { result ≡ opened owner direction order key.now block.now }
{
    let cipher = Gift128::new(key).unwrap_or_default();
    let words = cipher.k;
    Lane {
        phase: Phase::Running as u8,
        direction,
        owner,
        count: 0,
        order,
        words,
        state: packing(order as u32, block),
    }
}

// ---- a turn

// One quintuple round more, over the words that start at twice its offset.
fn advanced(l: Lane) -> State
    requires { l.count < 8 }
    ensures { result ≡ advanced l }
{
    let done = 5 * (l.count as usize);
    if l.direction == Direction::Encrypt as u8 {
        return quintuples(l.state, &l.words, done, 1);
    }
    inv_quintuples(l.state, &l.words, 35 - done, 1)
}

// A turn of the lane's own. (A count of 8 or more, which no sound running record has, stays as it is.)
#[tactic(auto, unfolding(crate::specs::Turns::served))]
pub fn served(l: Lane) -> Lane
    ensures { result ≡ served l }
{
    if TURNS <= l.count {
        return l;
    }
    let count = l.count + 1;
    let phase = if count == TURNS {
        Phase::Finished
    } else {
        Phase::Running
    };
    Lane {
        phase: phase as u8,
        count,
        state: advanced(l),
        ..l
    }
}

// ---- yielding

// The bytes of its block, in its own order, to a buffer of 16; another is left as it is.
#[tactic(auto, unfolding(crate::specs::Turns::yielded))]
pub fn yielded(l: Lane, out: &mut [u8])
    ensures { out.new ≡ yielded l out.old }
{
    unpacking(l.order as u32, l.state, out);
}
