// What is measured: a report that kills its destination, and so puts off what waits for it.
use crate::loads;
use rules::{Outcome, Refusal, ReportAnswer, State};

// A state in which a failure of this entry kills its destination.
#[derive(Drop)]
struct Brink {
    state: State,
    entry: u64,
    ticket: u64,
}

// Whether a report put entries off.
fn puts_off(a: Result<ReportAnswer, Refusal>) -> bool {
    matches!(a, Ok(r) if 0 < r.putoff)
}

// Failures of one entry after another, up to the first that would put anything off.
fn before_a_death() -> Brink {
    let out = loads::all_out();
    let mut state = out.state;
    let mut list = [0; 512];
    for (k, &entry) in out.entries.iter().enumerate() {
        let ticket = 64 + k as u64;
        let r = scheduler::report(state, 0, entry, ticket, Outcome::Failure, &mut list);
        if puts_off(r.answer) {
            return Brink {
                state,
                entry,
                ticket,
            };
        }
        state = r.state;
    }
    Brink {
        state,
        entry: 0,
        ticket: 0,
    }
}

// That failure, each time from the same state.
pub fn death(rounds: u32) -> u32 {
    let b = before_a_death();
    let mut list = [0; 512];
    let mut good = 0;
    for _ in 0..rounds {
        let r = scheduler::report(b.state, 0, b.entry, b.ticket, Outcome::Failure, &mut list);
        good = loads::count(good, puts_off(r.answer));
    }
    good
}
