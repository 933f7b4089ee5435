// A bench: its lanes and the one last served, whether it is sound, and turns, each by the first running lane in cyclic order after the last served one.
#![tactic(auto)]

ghost use Rattle.std.specs.Prelude.{◌≡◌, ◌<◌, length, MatchOption, false, true};
ghost use Rattle.bench_orders.specs.Orders.{lane_count};
ghost use Rattle.bench_turns.specs.Turning.{runs, after, seek, chosen, turned, turned_by, served_by, any_runs};
ghost use Rattle.bench_turns.specs.Sound.{all_sound, sound_bench, seen};

use bench_orders::{LANES, Seen};
use lane::{Lane, Phase, admits, sound_lane};
use lane_turns::served;

const LAST: usize = LANES - 1;

// The lanes, and the one last served.
#[repr(C)]
#[derive(Clone, Copy)]
pub struct Bench {
    pub lanes: [Lane; LANES],
    pub last: u32,
}

// ---- soundness

// Whether each record is sound. Each is looked at, those after one that is not sound too: every call looks at all of them, as the header for C says.
pub fn all_sound(lanes: &[Lane]) -> bool
    ensures { result ≡ all_sound lanes.now }
{
    let mut sound = true;
    for l in lanes {
        sound &= sound_lane(*l);
    }
    sound
}

pub fn sound(b: Bench) -> bool
    ensures { result ≡ sound_bench b }
{
    (b.last as usize) < LANES && all_sound(&b.lanes)
}

// What a call is told of the lane that it names; a number that is no lane's has no phase, and counts as an idle one's.
pub fn seen(lanes: &[Lane], sound: bool, lane: u32, caller: u16) -> Seen
    ensures { result ≡ seen lanes.now sound lane caller }
{
    match lanes.get(lane as usize) {
        Some(l) => Seen {
            sound,
            phase: l.phase,
            admitted: admits(*l, caller),
        },
        None => Seen {
            sound,
            phase: Phase::Idle as u8,
            admitted: true,
        },
    }
}

// ---- turns

// The lane after lane i in cyclic order.
#[tactic(auto, unfolding(crate::specs::Turning::after, bench_orders::specs::Orders::lane_count))]
pub fn after(i: usize) -> usize
    ensures { result ≡ after i }
{
    if i < LAST { i + 1 } else { 0 }
}

// Whether there is a lane i, and it runs.
#[tactic(auto, unfolding(crate::specs::Turning::runs))]
fn runs(lanes: &[Lane], i: usize) -> bool
    ensures { result ≡ runs lanes.now i }
{
    match lanes.get(i) {
        Some(l) => l.is(Phase::Running),
        None => false,
    }
}

// The first running lane in cyclic order from one on, if any runs.
// Stays: the place is counted on by `after`, not by an iterator, as the new form is no plainer: `lanes[from..].iter().chain(&lanes[..from])` would give a place from which the lane's number is to be counted back.
pub fn seek(lanes: &[Lane], from: usize) -> Option<usize>
    ensures { MatchOption result
        (seek lane_count lanes.now from ≡ lane_count)
        (λ n. (n ≡ seek lane_count lanes.now from) × (n < length lanes.now)) }
{
    let mut i = from;
    for _passed in 0..LANES {
        if runs(lanes, i) {
            return Some(i);
        }
        i = after(i);
    }
    None
}

// One turn, if any lane runs: the bench after it.
fn turn_once(b: Bench) -> Option<Bench>
    ensures { MatchOption result (any_runs b ≡ false) (λ e. (any_runs b ≡ true) × (e ≡ turned b)) }
{
    let n = seek(&b.lanes, after(b.last as usize))?;
    let mut bench = b;
    bench.lanes[n] = served(b.lanes[n]);
    bench.last = n as u32;
    Some(bench)
}

// Many turns: how many were made, and the bench after them.
#[derive(Clone, Copy)]
pub struct Many {
    pub made: u32,
    pub bench: Bench,
}

pub fn turns(b: Bench, asked: u32) -> Many
    ensures { (result.made ≡ length (served_by asked b)) × (result.bench ≡ turned_by asked b) }
{
    let mut bench = b;
    for made in 0..asked {
        match turn_once(bench) {
            Some(next) => bench = next,
            None => return Many { made, bench },
        }
    }
    Many { made: asked, bench }
}
