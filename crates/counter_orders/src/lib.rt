// What a call answers by lengths and the stream's numbers: its refusals, in document 02's order, and nothing else.
#![tactic(auto, unfolding(crate::specs::Orders::start_code, crate::specs::Orders::enough, crate::specs::Orders::piece_code))]

ghost use Rattle.std.specs.Prelude.{◌≡◌};
ghost use Rattle.answers.specs.Refusals.{number};
ghost use Rattle.counter_orders.specs.Orders.{start_code, needed, left, enough, piece_code};

use answers::Refusal;

// New blocks that n bytes need.
pub fn blocks_needed(unused: usize, n: usize) -> usize
    ensures { result ≡ needed unused n }
{
    n.saturating_sub(unused).div_ceil(16)
}

// The numbers of a stream that move.
// Stays: `spent` is a number beside `counter`, not an Option of it, since a piece that uses no new block leaves both as the caller gave them (`moved`).
#[derive(Clone, Copy)]
pub struct Place {
    pub counter: u32,
    pub unused: u32,
    pub spent: u32,
}

impl Place {
    // Counters that are left.
    fn counters_left(self) -> usize
        ensures { result ≡ left self.counter self.spent }
    {
        if self.spent != 0 {
            return 0;
        }
        4294967296 - (self.counter as usize)
    }

    // Whether they are enough: if not, 12.
    fn has_enough(self, n: usize) -> bool
        ensures { result ≡ enough self.counter self.unused self.spent n }
    {
        blocks_needed(self.unused as usize, n) <= self.counters_left()
    }

    // A piece: 10, 3, 12.
    pub fn piece_code(self, input: usize, output: usize) -> Result<(), Refusal>
        ensures { number result ≡ piece_code self.counter self.unused self.spent input output }
    {
        if 15 < self.unused {
            return Err(Refusal::BadState);
        }
        if output != input {
            return Err(Refusal::BadOutputLength);
        }
        if !self.has_enough(input) {
            return Err(Refusal::TooFewCounters);
        }
        Ok(())
    }
}

// Starting: 1, 2.
pub fn start_code(key: usize, nonce: usize) -> Result<(), Refusal>
    ensures { number result ≡ start_code key nonce }
{
    if key != 16 {
        return Err(Refusal::BadKeyLength);
    }
    if nonce != 12 {
        return Err(Refusal::BadBlockLength);
    }
    Ok(())
}
