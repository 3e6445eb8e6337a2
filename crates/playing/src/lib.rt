// One record of a journal, played: its call is made, and what that prints is put behind what is there (A1).
#![tactic(auto)]

pub mod printing;

ghost use Rattle.std.specs.Prelude.{◌≡◌, [], ◌∷◌, take};
ghost use Rattle.rules.specs.Calls.{job, pick, report};
ghost use Rattle.rules.specs.History.{state_from, gathered};
ghost use Rattle.lines.specs.Texts.{Put};
ghost use Rattle.journal.specs.Replays.{lent};
ghost use Rattle.playing.specs.Plays.{printed, call_told};

use journal::Record;
use lines::answer::Reply;
use lines::text::at_most;
use rules::{Outcome, State};

// Plays a record, with a job's destinations beside it. What it prints goes to a place of `out`, as far as there is room. The answer is the
// state that the record left, and the next place of the buffer.
pub fn play(s: State, what: Record, dests: &[u64], out: &mut [u8], at: usize) -> Reply
    ensures state { result.state ≡ state_from s (call_told what dests.now) }
    ensures text { Put (gathered printed s (call_told what dests.now)) out.old at out.new result.length }
{
    match what {
        Record::Name { .. } => Reply {
            state: s,
            length: at,
        },
        Record::Job {
            clock,
            transport,
            count,
        } => play_job(s, clock, transport, count, dests, out, at),
        Record::Pick { clock } => play_pick(s, clock, out, at),
        Record::Report {
            clock,
            entry,
            ticket,
            outcome,
        } => play_report(s, clock, entry, ticket, outcome, out, at),
    }
}

fn play_job(
    s: State,
    clock: u64,
    transport: u64,
    count: u64,
    dests: &[u64],
    out: &mut [u8],
    at: usize,
) -> Reply
    ensures state { result.state ≡ state_from s (job clock transport (take count dests.now) lent ∷ []) }
    ensures text { Put (gathered printed s (job clock transport (take count dests.now) lent ∷ [])) out.old at out.new result.length }
{
    let mut list = [0u16; 512];
    let many = at_most(count, dests.len());
    let r = scheduler::take_job(s, clock, transport, &dests[..many], &mut list);
    Reply {
        state: r.state,
        length: printing::put_refusal(out, at, r.answer),
    }
}

fn play_pick(s: State, clock: u64, out: &mut [u8], at: usize) -> Reply
    ensures state { result.state ≡ state_from s (pick clock ∷ []) }
    ensures text { Put (gathered printed s (pick clock ∷ [])) out.old at out.new result.length }
{
    let r = scheduler::pick(s, clock);
    Reply {
        state: r.state,
        length: printing::put_refusal(out, at, r.answer),
    }
}

fn play_report(
    s: State,
    clock: u64,
    entry: u64,
    ticket: u64,
    outcome: Outcome,
    out: &mut [u8],
    at: usize,
) -> Reply
    ensures state { result.state ≡ state_from s (report clock entry ticket outcome lent ∷ []) }
    ensures text { Put (gathered printed s (report clock entry ticket outcome lent ∷ [])) out.old at out.new result.length }
{
    let mut list = [0u16; 512];
    let r = scheduler::report(s, clock, entry, ticket, outcome, &mut list);
    Reply {
        state: r.state,
        length: printing::put_report(out, at, r.answer),
    }
}
