// The bench's calls over records that a host lends for the call: as many as there are lanes, or the answer is 10.
// The records are looked at where they lie, and a call changes the one record that it is about.
#![tactic(auto)]

ghost use Rattle.std.specs.Prelude.{◌≡◌, length, true, false, MatchOption};
ghost use Rattle.answers.specs.Refusals.{number};
ghost use Rattle.bench_orders.specs.Orders.{lane_count};
ghost use Rattle.bench_turns.specs.Turning.{any_runs, turned};
ghost use Rattle.bench_turns.specs.Sound.{sound_bench, seen};
ghost use Rattle.bench_lent.specs.Lent.{bench_of, Opens, Serves, Takes, Closes};
ghost use Rattle.bench_lent.specs.Inner.{renewed, done};

use answers::Refusal;
use bench_orders::{LANES, Seen, close_code, open_code, take_code, turn_code};
use bench_turns::{after, all_sound, seek, seen};
use lane::{Lane, idle_lane};
use lane_turns::{opened, served, yielded};

// What a call for turns tells: its number, the turns made, and the lane last served.
// Stays: a number beside what a call for turns gives, for the C interface: a refused call, too, tells the lane last served.
#[repr(C)]
#[derive(Clone, Copy)]
pub struct Turns {
    pub code: u32,
    pub made: u32,
    pub last: u32,
}

// ---- looking

// Whether there are as many records as lanes, each of them sound, and one of them last served.
#[tactic(auto, unfolding(bench_turns::specs::Sound::sound_bench, bench_orders::specs::Orders::lane_count))]
fn sound(lanes: &[Lane], last: u32) -> bool
    ensures { result ≡ sound_bench (bench_of lanes.now last) }
{
    lanes.len() == LANES && (last as usize) < LANES && all_sound(lanes)
}

// What a call sees of the records, and of the lane that it names.
fn look(lanes: &[Lane], last: u32, lane: u32, caller: u16) -> Seen
    ensures { result ≡ seen lanes.now (sound_bench (bench_of lanes.now last)) lane caller }
{
    seen(lanes, sound(lanes, last), lane, caller)
}

// ---- turns

// All of a record but its owner, its order and its round words, which stay.
fn renew(to: &mut Lane, l: Lane)
    ensures { to.new ≡ renewed to.old l }
{
    to.phase = l.phase;
    to.direction = l.direction;
    to.count = l.count;
    to.state = l.state;
}

// One turn, if any lane runs: the lane that it serves.
// Stays: beside `bench_turns::turn_once`, a rule of the project: the bench by value and the lent records each have their calls (document 01), and here a record is changed where it lies.
fn turn_once(lanes: &mut [Lane], last: u32) -> Option<u32>
    requires { length lanes.old ≡ lane_count }
    ensures { MatchOption result
        ((any_runs (bench_of lanes.old last) ≡ false) × (lanes.new ≡ lanes.old))
        (λ n. (any_runs (bench_of lanes.old last) ≡ true) × (bench_of lanes.new n ≡ turned (bench_of lanes.old last))) }
{
    let n = seek(lanes, after(last as usize))?;
    let l = served(lanes[n]);
    renew(&mut lanes[n], l);
    Some(n as u32)
}

// What a call tells that made its turns.
fn done(made: u32, last: u32) -> Turns
    ensures { result ≡ done made last }
{
    Turns {
        code: 0,
        made,
        last,
    }
}

// ---- the calls

pub fn open_lane(
    lanes: &mut [Lane],
    last: u32,
    lane: u32,
    owner: u16,
    direction: u32,
    order: u32,
    key: &[u8],
    block: &[u8],
) -> Result<(), Refusal>
    ensures { Opens lanes.old last lane owner direction order key.now block.now (number result) lanes.new }
{
    let seen = look(lanes, last, lane, owner);
    open_code(seen, lane, owner, direction, order, key.len(), block.len())?;
    lanes[lane as usize] = opened(owner, direction as u8, order as u16, key, block);
    Ok(())
}

pub fn turn(lanes: &mut [Lane], last: u32, asked: u32) -> Turns
    ensures { Serves lanes.old last asked result lanes.new }
{
    if let Err(refusal) = turn_code(sound(lanes, last), asked) {
        return Turns {
            code: refusal.into(),
            made: 0,
            last,
        };
    }
    let mut latest = last;
    for made in 0..asked {
        match turn_once(lanes, latest) {
            Some(n) => latest = n,
            None => return done(made, latest),
        }
    }
    done(asked, latest)
}

pub fn take(
    lanes: &mut [Lane],
    last: u32,
    lane: u32,
    owner: u16,
    out: &mut [u8],
) -> Result<(), Refusal>
    ensures { Takes lanes.old last lane owner out.old (number result) lanes.new out.new }
{
    let seen = look(lanes, last, lane, owner);
    take_code(seen, lane, out.len())?;
    let i = lane as usize;
    yielded(lanes[i], out);
    lanes[i] = idle_lane();
    Ok(())
}

pub fn close(lanes: &mut [Lane], last: u32, lane: u32, owner: u16) -> Result<(), Refusal>
    ensures { Closes lanes.old last lane owner (number result) lanes.new }
{
    let seen = look(lanes, last, lane, owner);
    close_code(seen, lane)?;
    lanes[lane as usize] = idle_lane();
    Ok(())
}
