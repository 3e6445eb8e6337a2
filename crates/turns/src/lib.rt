// Document 01, "Transports take turns" and "destinations .. take turns": of the transports, and of the destinations of a job.
#![tactic(auto)]

ghost use Rattle.std.specs.Prelude.{◌≡◌, ◌+◌, ◌%◌, ◌<◌, ◌≤◌, length, MatchOption};
ghost use Rattle.rules.specs.State.{at};
ghost use Rattle.rules.specs.Picking.{steps_to};
ghost use Rattle.eligibility.specs.Eligibility.{ready_in, open_place};
ghost use Rattle.turns.specs.Turns.{front_of, ahead_of, front_steps, Lists, Turned, Placed};

use eligibility::Tables;
use rules::{JobList, Jobs};

// The first job of a list that is ready, and how many before it have a waiting entry.
#[derive(Drop)]
pub struct Front {
    pub job: u8,
    pub passed: u8,
}

fn find_front(jobs: &[u8], tables: Tables) -> Option<Front>
    requires { length jobs.now ≤ 32 }
    ensures { MatchOption result (front_of (ready_in tables.entry.pairs.now tables.entry.room.now) jobs.now ≡ 32)
        (λ f. (f.job < 32) × (f.job ≡ front_of (ready_in tables.entry.pairs.now tables.entry.room.now) jobs.now)
        × (f.passed ≡ ahead_of tables.entry.waits.now jobs.now f.job)) }
{
    let mut passed = 0;
    for &job in jobs {
        let j = usize::from(job);
        if tables.is_ready(j) {
            return Some(Front { job, passed });
        }
        if 0 < tables.waits[j] {
            passed += 1;
        }
    }
    None
}

// The transport whose turn it is, its current job, and how many jobs that passes over.
#[derive(Drop)]
pub struct Turn {
    pub transport: u8,
    pub job: u8,
    pub passed: u8,
}

pub fn next_transport(
    queues: [JobList; 4],
    transports: u64,
    start: u8,
    tables: Tables,
) -> Option<Turn>
    requires { (1 ≤ transports) × (transports ≤ 4) × (start ≤ transports) × (length queues ≡ 4) × (Lists queues transports) }
    ensures { MatchOption result (front_steps (ready_in tables.entry.pairs.now tables.entry.room.now) queues transports start ≡ transports)
        (λ u. Turned queues transports start tables.entry.waits.now (ready_in tables.entry.pairs.now tables.entry.room.now) u.transport u.job u.passed) }
{
    let n = transports as usize;
    for i in 0..n {
        let t = (usize::from(start) + i) % n;
        if let Some(Front { job, passed }) = find_front(queues[t].numbers(), tables) {
            return Some(Turn {
                transport: t as u8,
                job,
                passed,
            });
        }
    }
    None
}

// The place in a job's order of destinations whose turn it is, and its destination.
#[derive(Drop)]
pub struct Next {
    pub place: u8,
    pub destination: u8,
}

pub fn next_place(jobs: &Jobs, j: u8, tables: Tables) -> Option<Next>
    requires { (j < 32) × (at jobs.now.places j ≤ 32) × (at jobs.now.turn j ≤ at jobs.now.places j) }
    ensures { MatchOption result
        (steps_to (open_place jobs.now.order tables.entry.pairs.now tables.entry.room.now j) (at jobs.now.places j) (at jobs.now.turn j) ≡ at jobs.now.places j)
        (λ x. Placed jobs.now.order tables.entry.pairs.now tables.entry.room.now j (at jobs.now.places j) (at jobs.now.turn j) x.place x.destination) }
{
    let job = usize::from(j);
    let n = usize::from(jobs.places[job]);
    let start = usize::from(jobs.turn[job]);
    for step in 0..n {
        let k = (start + step) % n;
        let destination = jobs.order[32 * job + k];
        if tables.open_to(job, destination) {
            return Some(Next {
                place: k as u8,
                destination,
            });
        }
    }
    None
}
