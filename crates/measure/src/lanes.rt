// What is measured: a pick that searches for a job that preempts (A3), among 32 on one transport.
ghost use Rattle.std.specs.Prelude.{◌≤◌};

use crate::{loads, scene};
use rules::{Setup, State};

// Eight entries for each destination.
fn to_each() -> [u64; 256] {
    let mut dests = [0; 256];
    for (i, d) in dests.iter_mut().enumerate() {
        *d = (i % 32) as u64;
    }
    dests
}

// One transport, on which a slot is so dear that nobody preempts, and a job of 256 entries.
fn one_large() -> State {
    let u = Setup {
        transports: 1,
        settings: [scene::settings(100, 0, 0, 0); 4],
        destinations: 32,
        home: [0; 32],
    };
    let mut list = [0; 256];
    scheduler::take_job(scheduler::set_up(u).state, 0, 0, &to_each(), &mut list).state
}

// A job of 2 entries.
fn with_small(s: State, now: u64, i: u64) -> State
    requires { i ≤ 31 }
{
    let mut list = [0; 32];
    scheduler::take_job(s, now, 0, &[i, 31 - i], &mut list).state
}

// When the i-th job comes: they come a minute apart, or all at once.
fn second(apart: bool, i: u64) -> u64
    requires { i ≤ 31 }
{
    if apart { 60 * i } else { 0 }
}

// 32 jobs on one transport, one of 256 entries and then 31 of 2. An entry of the large one is busy, so that each pick from it searches for a
// job that preempts it.
fn queued(apart: bool) -> State {
    let mut s = one_large();
    for i in 1..32 {
        s = with_small(s, second(apart, i), i);
    }
    scheduler::pick(s, second(apart, 31)).state
}

// Picks from that state, where they came a minute apart, and where they came all at once.
pub fn lane(rounds: u32) -> u32 {
    loads::picks(queued(true), second(true, 31), rounds)
}

pub fn crowd(rounds: u32) -> u32 {
    loads::picks(queued(false), second(false, 31), rounds)
}
