// The search for the best candidate: document 01, "Picking and preemption". It walks by arrival and stops where request A3 says.
#![tactic(auto)]

ghost use Rattle.std.specs.Prelude.{◌≡◌, not, ◌&&◌, ◌+◌, ◌*◌, ◌/◌, ◌<◌, ◌≤◌, eqb, ltb, leb, length};
ghost use Rattle.rules.specs.declared.State.{State};
ghost use Rattle.rules.specs.Sizes.{last_second};
ghost use Rattle.rules.specs.State.{settings_of, waiting_of};
ghost use Rattle.rules.specs.Preemption.{owned, credit_of, best_candidate, looked_at};
ghost use Rattle.eligibility.specs.Eligibility.{ready_in, Reads};
ghost use Rattle.searching.specs.Searching.{Arrived, link_to};

use eligibility::Tables;
use rules::{JobList, Jobs};

// "A candidate is another job of the transport, never picked from, never having preempted, with an eligible entry, and m ≤ (r + a)/c".
// All of it but the transport, of which the search asks first, and the eligible entry, of which it asks last.
fn candidate(x: u8, y: u8, picked: u16, preempted: bool, m: u64, most: u64) -> bool
    ensures { result ≡ (not (eqb x y) && eqb picked 0 && not preempted && leb m most) }
{
    x != y && picked == 0 && !preempted && m <= most
}

// Whether one exact fraction, age/m, is greater than another, by cross multiplication.
fn greater(age: u64, m: u64, than: u64, of: u64) -> bool
    requires { (age ≤ 4294967296) × (m < 65536) × (than ≤ 4294967296) × (of < 65536) }
    ensures { result ≡ ltb (than * m) (age * of) }
{
    than * m < age * of
}

// Whether a whole number is not above an exact fraction: "wait plus 1 is not above the best score before it".
fn not_above(age: u64, than: u64, of: u64) -> bool
    requires { (age ≤ 4294967296) × (of < 65536) }
    ensures { result ≡ leb (age * of) than }
{
    age * of <= than
}

// The best candidate, and how many jobs the search looked at.
#[derive(Drop)]
pub struct Best {
    pub job: Option<u8>,
    pub looked: u8,
}

// "shall walk by arrival and stop once no later arrival can beat the best so far. It also answers how many jobs it looked at".
pub fn best_candidate(
    jobs: &Jobs,
    arrivals: &JobList,
    tables: Tables,
    time: u64,
    t: u8,
    y: u8,
    most: u64,
) -> Best
    requires { (time ≤ last_second) × (arrivals.now.count ≤ 32) × (length arrivals.now.jobs ≡ 32) × (Arrived jobs.now.arrival arrivals.now time) }
    ensures below { link_to result.job ≤ 32 }
    ensures found { (s : State) → s.jobs ≡ jobs.now → s.arrivals ≡ arrivals.now
        → Reads s tables.entry.waits.now (ready_in tables.entry.pairs.now tables.entry.room.now)
        → most ≡ (waiting_of s y + owned (credit_of s t y)) / (settings_of s t).cost
        → (link_to result.job ≡ best_candidate s time t y) × (result.looked ≡ looked_at s time t y) }
{
    let order = arrivals.numbers();
    // the second after this one: a job's wait plus 1 is from its arrival to there
    let next = time + 1;
    let mut best = Best {
        job: None,
        looked: 0,
    };
    // the best score so far, than/of; 0/1 where there is none, which is below every job's
    let mut than = 0;
    let mut of = 1;
    for &x in order {
        let k = usize::from(x);
        if jobs.transport[k] == t {
            let age = next - u64::from(jobs.arrival[k]);
            if not_above(age, than, of) {
                return best;
            }
            best.looked += 1;
            let m = u64::from(tables.waits[k]);
            if candidate(x, y, jobs.picked[k], jobs.preempted[k], m, most)
                && greater(age, m, than, of)
                && tables.is_ready(k)
            {
                best.job = Some(x);
                than = age;
                of = m;
            }
        }
    }
    best
}
