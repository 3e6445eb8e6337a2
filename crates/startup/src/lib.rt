// The set-up call: the state that a set-up starts from, or the state of all zeros where it is out of the ranges.
#![tactic(auto)]

ghost use Rattle.std.specs.Prelude.{◌≡◌, true};
ghost use Rattle.laws.specs.Range.{table_to};
ghost use Rattle.rules.specs.State.{zero_settings, zero_destination, zero_list};
ghost use Rattle.rules.specs.Setup.{setup_in_range};
ghost use Rattle.rules.specs.Setup.{first_destination, no_busy, no_jobs, no_entries, empty_state, zero_setup, zero_state, fresh_state};
ghost use Rattle.rules.specs.Gave.{SetupKept};

use rules::{
    Busy, Destination, Entries, Feedback, HandedBack, Health, JobList, Jobs, Refusal, Settings,
    Setup, State, Sums,
};

fn no_busy() -> Busy
    ensures { result ≡ no_busy }
{
    Busy {
        transport: [0; 4],
        destination: [0; 32],
    }
}

fn no_list() -> JobList
    ensures { result ≡ zero_list }
{
    JobList {
        jobs: [0; 32],
        count: 0,
    }
}

fn no_jobs() -> Jobs
    ensures { result ≡ no_jobs }
{
    Jobs {
        present: [false; 32],
        transport: [0; 32],
        n: [0; 32],
        picked: [0; 32],
        dropped: [0; 32],
        sold: [0; 32],
        parent: [0; 32],
        preempted: [false; 32],
        arrival: [0; 32],
        overtakers: [0; 32],
        turn: [0; 32],
        places: [0; 32],
        order: [0; 1024],
    }
}

fn no_entries() -> Entries
    ensures { result ≡ no_entries }
{
    Entries {
        kind: [0; 512],
        job: [0; 512],
        destination: [0; 512],
        ticket: [0; 512],
    }
}

// Settings, and a set-up, of all zeros.

pub fn zero_settings() -> Settings
    ensures { result ≡ zero_settings }
{
    let f = Feedback {
        percent: 0,
        form: 0,
    };
    Settings {
        agents: 0,
        cost: 0,
        loan: 0,
        discount: 0,
        minimum: 0,
        limit: 0,
        initial: 0,
        positive: f,
        negative: f,
        cohortlimit: 0,
        suspension: 0,
    }
}

pub fn zero_setup() -> Setup
    ensures { result ≡ zero_setup }
{
    Setup {
        transports: 0,
        settings: [zero_settings(); 4],
        destinations: 0,
        home: [0; 32],
    }
}

// Nothing has happened yet.
fn empty(u: Setup, ds: [Destination; 32]) -> State
    ensures { result ≡ empty_state u ds }
{
    State {
        setup: u,
        clock: 0,
        ticket: 0,
        turn: 0,
        destinations: ds,
        busy: no_busy(),
        queues: [no_list(); 4],
        arrivals: no_list(),
        jobs: no_jobs(),
        entries: no_entries(),
    }
}

fn zero_destination() -> Destination
    ensures { result ≡ zero_destination }
{
    Destination {
        health: Health::Live(Sums {
            window: 0,
            success: 0,
            failure: 0,
            cohorts: 0,
        }),
    }
}

// The state of all zeros, which a refused set-up gives.
pub fn zero() -> State
    ensures { result ≡ zero_state }
{
    empty(zero_setup(), [zero_destination(); 32])
}

// The destinations of a set-up in their first state, zeros past them.
fn first_destinations(u: Setup) -> [Destination; 32]
    requires { setup_in_range u ≡ true }
    ensures { result ≡ table_to (first_destination u) 32 }
{
    let mut ds = [zero_destination(); 32];
    let count = u.destinations as usize;
    for d in 0..count {
        let g = u.settings[u.home[d] as usize];
        ds[d] = Destination {
            health: Health::Live(window::first_state(g)),
        };
    }
    ds
}

// The state that a set-up starts from. That it is in range, `ranges::in_range` has said.
pub fn fresh(u: Setup) -> State
    requires { setup_in_range u ≡ true }
    ensures { result ≡ fresh_state u }
{
    empty(u, first_destinations(u))
}

// The state of a set-up. A refused one gives the state of all zeros.
pub fn set_up(u: Setup) -> HandedBack<()>
    ensures { SetupKept u result }
{
    if !ranges::in_range(u) {
        return HandedBack {
            answer: Err(Refusal::SetupOutOfRange),
            state: zero(),
        };
    }
    HandedBack {
        answer: Ok(()),
        state: fresh(u),
    }
}
