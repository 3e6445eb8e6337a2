// The report: the outcome of a delivery. Document 01, "Windows". The steps on columns are the crate `leaving`; here they are joined.
#![tactic(auto)]

ghost use Rattle.std.specs.Prelude.{◌≡◌};
ghost use Rattle.rules.specs.Calls.{report_reply};
ghost use Rattle.rules.specs.Gave.{report_gave};
ghost use Rattle.rules.proofs.Shape.{Shaped};

use rules::{Destination, HandedBack, Outcome, Refusal, ReportAnswer, State};

// The outcome of a delivery, by entry and ticket. Entries that it puts off go to the lent list; places past them stay.
pub fn report(
    s: State,
    now: u64,
    entry: u64,
    ticket: u64,
    outcome: Outcome,
    list: &mut [u16],
) -> HandedBack<ReportAnswer>
    ensures { report_gave result list.new ≡ report_reply s now entry ticket outcome list.old }
{
    // the state is worked in where it is handed back, so that it is copied once; the answer follows
    let mut back = HandedBack {
        answer: Err(Refusal::Unsound),
        state: s,
    };
    back.answer = settle(&mut back.state, now, entry, ticket, outcome, list);
    back
}

// The same of a state in its place: a refusal leaves it as it came. That its arrays are as long as their types say, the caller knows, who has it by value.
fn settle(
    state: &mut State,
    now: u64,
    entry: u64,
    ticket: u64,
    outcome: Outcome,
    list: &mut [u16],
) -> Result<ReportAnswer, Refusal>
    requires { Shaped state.old }
    ensures { report_gave (record { answer = result; state = state.new }) list.new ≡ report_reply state.old now entry ticket outcome list.old }
{
    let mut pairs = [0; 1024];
    if !soundness::sound_at(state, &mut pairs) {
        return Err(Refusal::Unsound);
    }
    if waking::bad_clock(state.clock, now) {
        return Err(Refusal::Clock);
    }
    settling::refusal(
        &state.entries.kind,
        &state.entries.ticket,
        entry,
        ticket,
        list.len(),
    )?;
    state.clock = now as u32;

    // the destination's step
    let mut ds = waking::wake(
        state.destinations,
        &state.setup.home,
        state.setup.settings,
        state.setup.destinations,
        now,
    );
    let e = entry as usize;
    let to = state.entries.destination[e];
    let of = state.entries.job[e];
    let d = to as usize;
    let t = state.setup.home[d] as usize;
    let found = ds[d].health;
    let busy = state.busy.destination[d] as u64;
    let step = window::step(state.setup.settings[t], busy, now, found, outcome);
    ds[d] = Destination {
        health: step.health,
    };
    state.destinations = ds;

    // the entry is free, and those that wait are put off where the destination died
    state.busy.transport[t] -= 1;
    state.busy.destination[d] -= 1;
    let dead = settling::is_death(step.moved).then_some(to);
    let putoff = settling::put_off(
        &mut state.entries.kind,
        &state.entries.job,
        &state.entries.destination,
        &mut state.jobs.dropped,
        list,
        dead,
    );
    state.entries.kind[e] = 0;

    // those without an entry leave
    let stays = leaving::staying(
        &state.entries.kind,
        &state.entries.job,
        &pairs,
        state.jobs.present,
        dead,
        of,
    );
    state.jobs.parent = leaving::adopt(&stays, &state.jobs.parent);
    state.jobs.present = stays;
    state.queues[t] = lists::keep(state.queues[t], &stays);
    state.arrivals = lists::keep(state.arrivals, &stays);
    Ok(ReportAnswer {
        putoff,
        moved: step.moved,
    })
}
