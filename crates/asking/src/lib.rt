// The two calls that only ask: about a job, and for the board text. The state is the caller's, as it was.
#![tactic(auto)]

ghost use Rattle.std.specs.Prelude.{◌≡◌};
ghost use Rattle.rules.specs.Calls.{ask_reply, board_reply};
ghost use Rattle.rules.specs.Gave.{ask_gave, board_gave};

use rules::{Refusal, State};

// How many entries ever preempted a present job.
pub fn ask(s: State, job: u64) -> Result<u32, Refusal>
    ensures { ask_gave result s ≡ ask_reply s job }
{
    if !soundness::sound(s) {
        return Err(Refusal::Unsound);
    }
    if 32 <= job {
        return Err(Refusal::Job);
    }
    let j = job as usize;
    // a part of its own: where the argument itself is indexed, all of it is copied
    let jobs = s.jobs;
    if !jobs.present[j] {
        return Err(Refusal::Job);
    }
    Ok(jobs.overtakers[j])
}

// The board text at the front of the lent buffer; bytes past it stay.
pub fn board(s: State, buffer: &mut [u8]) -> Result<u64, Refusal>
    ensures { board_gave result s buffer.new ≡ board_reply s buffer.old }
{
    if !soundness::sound(s) {
        return Err(Refusal::Unsound);
    }
    let count = s.setup.destinations;
    let ds = s.destinations;
    let busy = s.busy.destination;
    let need = board::text_length(s.clock, count, ds, busy);
    if buffer.len() < need {
        return Err(Refusal::Room);
    }
    let n = board::write(s.clock, count, ds, busy, buffer);
    Ok(n as u64)
}
