// Document 01, "Picking and preemption": who preempts the current job.
#![tactic(auto)]

ghost use Rattle.std.specs.Prelude.{◌≡◌, true, ◌*◌, ◌<◌, ◌≤◌, length};
ghost use Rattle.rules.specs.declared.State.{State};
ghost use Rattle.rules.specs.Sizes.{last_second};
ghost use Rattle.rules.specs.State.{at, settings_of};
ghost use Rattle.rules.specs.Preemption.{credit, has_credit, owned, pays_for, preemptor_of};
ghost use Rattle.eligibility.specs.Eligibility.{ready_in, Reads};
ghost use Rattle.searching.specs.Searching.{Arrived};
ghost use Rattle.preemption.specs.Preempting.{preemptor_at, preemptor_link};

use eligibility::Tables;
use rules::{JobList, Jobs, Settings};
use searching::best_candidate;

// "a = s - c·q, which may be negative"
fn slot_credit(cost: u64, picked: u16, sold: u16) -> i64
    requires { cost * sold ≤ 65536 }
    ensures { result ≡ credit cost picked sold }
{
    i64::from(picked) - (cost * u64::from(sold)) as i64
}

// "a ≥ 1"
fn has_credit(a: i64) -> bool
    ensures { result ≡ has_credit a }
{
    1 <= a
}

// A credit of at least 1, as a number.
fn owned_slots(a: i64) -> u64
    requires { has_credit a ≡ true }
    ensures { result ≡ owned a }
{
    a as u64
}

// "100·(a/c rounded down + L) ≥ m·(100-d)"
fn pays_for(g: Settings, a: u64, m: u64) -> bool
    requires { (1 ≤ g.cost) × (g.loan ≤ 100) × (g.discount ≤ 100) × (a ≤ 65536) × (m < 65536) }
    ensures { result ≡ pays_for g a m }
{
    m * (100 - g.discount) <= 100 * (a / g.cost + g.loan)
}

// The job that preempts the current one, and how many of its entries wait.
#[derive(Clone, Copy)]
pub struct Preemptor {
    pub job: u8,
    pub waiting: u16,
}

// "It is preempted when c is not 0, a ≥ 1, n ≥ M·c, a candidate exists, and for the best one .."
pub fn find_preemptor(
    jobs: &Jobs,
    arrivals: &JobList,
    g: Settings,
    tables: Tables,
    time: u64,
    t: u8,
    y: u8,
) -> Option<Preemptor>
    requires list { (time ≤ last_second) × (arrivals.now.count ≤ 32) × (length arrivals.now.jobs ≡ 32) × (Arrived jobs.now.arrival arrivals.now time) }
    requires slots { (y < 32) × (g.cost ≤ 100) × (g.minimum ≤ 100) × (g.loan ≤ 100) × (g.discount ≤ 100) × (g.cost * at jobs.now.sold y ≤ 256) }
    ensures link { preemptor_link result ≤ 32 }
    ensures preempts { (s : State) → s.jobs ≡ jobs.now → s.arrivals ≡ arrivals.now → settings_of s t ≡ g
        → Reads s tables.entry.waits.now (ready_in tables.entry.pairs.now tables.entry.room.now)
        → result ≡ preemptor_at s (preemptor_of s time t y) }
{
    if g.cost == 0 {
        return None;
    }
    let current = usize::from(y);
    let a = slot_credit(g.cost, jobs.picked[current], jobs.sold[current]);
    if !has_credit(a) {
        return None;
    }
    if u64::from(jobs.n[current]) < g.minimum * g.cost {
        return None;
    }
    let slots = owned_slots(a);
    let most = (u64::from(tables.waits[current]) + slots) / g.cost;
    let found = best_candidate(jobs, arrivals, tables, time, t, y, most);
    let job = found.job?;
    let waiting = tables.waits[usize::from(job)];
    if !pays_for(g, slots, u64::from(waiting)) {
        return None;
    }
    Some(Preemptor { job, waiting })
}
