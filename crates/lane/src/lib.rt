// One lane's record: whether it is sound, whom it admits, and the idle one.
#![tactic(auto)]

ghost use Rattle.std.specs.Prelude.{◌≡◌, not, ◌&&◌, eqb, leb};
ghost use Rattle.published.specs.Seen.{is_order};
ghost use Rattle.lane.specs.Record.{all_zero, everything, sound_lane, admits, idle_lane};
ghost use Rattle.lane.specs.Kinds.{number_of_phase, PhaseOf, DirectionOf};

use answers::Refusal;
use packing::is_order;
use primitives::State;

// How many turns of its own a lane takes from its opening until it is finished.
pub const TURNS: u16 = 8;

// The phases of a lane, by their numbers in its record.
#[derive(Clone, Copy, Debug, PartialEq, Eq)]
pub enum Phase {
    Idle = 0,
    Running = 1,
    Finished = 2,
}

impl TryFrom<u8> for Phase {
    type Error = Refusal;

    ghost try_from_gives = { PhaseOf };

    fn try_from(number: u8) -> Result<Phase, Refusal> {
        match number {
            0 => Ok(Phase::Idle),
            1 => Ok(Phase::Running),
            2 => Ok(Phase::Finished),
            _ => Err(Refusal::BadBench),
        }
    }
}

// The directions, by the numbers in which a call asks for them and a record keeps them.
#[derive(Clone, Copy, Debug, PartialEq, Eq)]
pub enum Direction {
    Encrypt = 0,
    Decrypt = 1,
}

impl TryFrom<u32> for Direction {
    type Error = Refusal;

    ghost try_from_gives = { DirectionOf };

    fn try_from(number: u32) -> Result<Direction, Refusal> {
        match number {
            0 => Ok(Direction::Encrypt),
            1 => Ok(Direction::Decrypt),
            _ => Err(Refusal::BadDirection),
        }
    }
}

// The owner is the guest that opened the lane, and 0 while it is idle; the count is of the lane's own turns; the order is that of its block's bytes. No byte
// of the record is padding.
// Stays: phase, direction and order are numbers, for the C interface, where a host lends records that hold any bytes.
#[repr(C)]
#[derive(Clone, Copy, Debug, PartialEq, Eq)]
pub struct Lane {
    pub phase: u8,
    pub direction: u8,
    pub owner: u16,
    pub count: u16,
    pub order: u16,
    pub words: [u32; 80],
    pub state: State,
}

impl Lane {
    // Whether it is in a phase.
    pub fn is(&self, phase: Phase) -> bool
        ensures { result ≡ eqb self.now.phase (number_of_phase phase) }
    {
        self.phase == phase as u8
    }
}

// Idle, all zero: a fresh lane, and one that was taken from or closed.
impl Default for Lane {
    ghost is_default = { λ l. l ≡ idle_lane };

    #[tactic(auto, unfolding(crate::specs::Record::idle_lane))]
    fn default() -> Lane {
        Lane {
            phase: Phase::Idle as u8,
            direction: 0,
            owner: 0,
            count: 0,
            order: 0,
            words: [0u32; 80],
            state: State::default(),
        }
    }
}

// ---- sound or not

// A number that is 0 if all the words are: one pass over them, with no way out before its end.
fn any_bit(words: &[u32; 80]) -> u32
    ensures { eqb result 0 ≡ all_zero words.now }
{
    let mut bits: u32 = 0;
    for word in words {
        bits |= *word;
    }
    bits
}

#[tactic(auto, using(crate::proofs::Zero::zero_or))]
fn all_zero(l: Lane) -> bool
    ensures { result ≡ all_zero (everything l) }
{
    let head = (l.phase as u32)
        | (l.direction as u32)
        | (l.owner as u32)
        | (l.count as u32)
        | (l.order as u32);
    let block = l.state.s0 | l.state.s1 | l.state.s2 | l.state.s3;
    (head | block | any_bit(&l.words)) == 0
}

// Of a busy lane: an owner, a direction and an order that there are.
fn tidy(l: Lane) -> bool
    ensures { result ≡ (not (eqb l.owner 0) && leb l.direction 1 && is_order l.order) }
{
    l.owner != 0 && Direction::try_from(l.direction as u32).is_ok() && is_order(l.order as u32)
}

pub fn sound_lane(l: Lane) -> bool
    ensures { result ≡ sound_lane l }
{
    match Phase::try_from(l.phase) {
        Ok(Phase::Idle) => all_zero(l),
        Ok(Phase::Running) => tidy(l) && l.count < TURNS,
        Ok(Phase::Finished) => tidy(l) && l.count == TURNS,
        Err(_) => false,
    }
}

// ---- whose it is

// An idle lane is open to anyone, a busy one to its owner.
#[tactic(auto, unfolding(crate::specs::Record::admits))]
pub fn admits(l: Lane, caller: u16) -> bool
    ensures { result ≡ admits l caller }
{
    l.is(Phase::Idle) || l.owner == caller
}

// ---- going idle

// The idle record by its name in the documents.
pub fn idle_lane() -> Lane
    ensures { result ≡ idle_lane }
{
    Lane::default()
}
