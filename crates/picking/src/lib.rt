// The pick: the next entry to deliver. Document 01, "Picking and preemption". What is read of the state is the crate `choice`; here it is written.
#![tactic(auto)]

ghost use Rattle.std.specs.Prelude.{◌≡◌, ◌+◌, ◌%◌};
ghost use Rattle.rules.specs.Sizes.{tickets};
ghost use Rattle.rules.specs.Preemption.{preempting};
ghost use Rattle.rules.specs.Pick.{handed_out};
ghost use Rattle.rules.specs.Calls.{pick_reply};
ghost use Rattle.rules.specs.Gave.{pick_gave, FindsExactly};
ghost use Rattle.rules.proofs.Shape.{Shaped};
ghost use Rattle.picking.specs.May.{MayPreempt, MayHandOut};

use choice::Choice;
use preemption::Preemptor;
use rules::{HandedBack, PickAnswer, Refusal, State};

// The next entry, with its ticket and the number of jobs passed over; nothing where no entry is eligible.
pub fn pick(s: State, now: u64) -> HandedBack<Option<PickAnswer>>
    ensures reply { pick_gave result ≡ pick_reply s now }
    ensures found { FindsExactly s now result.answer }
{
    // the state is worked in where it is handed back, so that it is copied once; the answer follows
    let mut back = HandedBack {
        answer: Ok(None),
        state: s,
    };
    back.answer = pick_from(&mut back.state, now);
    back
}

// The same of a state in its place: a refusal leaves it as it came. That its arrays are as long as their types say, the caller knows, who has it by value.
fn pick_from(state: &mut State, now: u64) -> Result<Option<PickAnswer>, Refusal>
    requires { Shaped state.old }
    ensures { pick_gave (record { answer = result; state = state.new }) ≡ pick_reply state.old now }
{
    let mut pairs = [0; 1024];
    if !soundness::sound_at(state, &mut pairs) {
        return Err(Refusal::Unsound);
    }
    if waking::bad_clock(state.clock, now) {
        return Err(Refusal::Clock);
    }
    state.clock = now as u32;
    state.destinations = waking::wake(
        state.destinations,
        &state.setup.home,
        state.setup.settings,
        state.setup.destinations,
        now,
    );
    let Some(c) = choice::choose_at(state, now, &pairs) else {
        return Ok(None);
    };
    if let Some(p) = c.preemptor {
        preempt(state, c.transport, c.current, p);
    }
    let ticket = hand_out(state, c);
    Ok(Some(PickAnswer {
        job: c.job,
        entry: c.entry,
        ticket,
        passed: c.passed,
    }))
}

// The job that preempts moves directly before the current one, which pays for it.
fn preempt(state: &mut State, transport: u8, current: u8, p: Preemptor)
    requires { MayPreempt state.old transport p.job current p.waiting }
    ensures { state.new ≡ preempting state.old transport p.job current p.waiting }
{
    let lane = transport as usize;
    let job = p.job as usize;
    state.queues[lane] = lists::move_before(state.queues[lane], p.job, current);
    charging::charge_from(
        &state.jobs.parent,
        &mut state.jobs.overtakers,
        current,
        p.waiting,
    );
    state.jobs.sold[current as usize] += p.waiting;
    state.jobs.parent[job] = current + 1;
    state.jobs.preempted[job] = true;
}

// The entry is handed out, with a ticket.
fn hand_out(state: &mut State, c: Choice) -> u32
    requires { MayHandOut state.old c.transport c.job c.place c.entry }
    ensures state { state.new ≡ handed_out state.old c.transport c.job c.place c.entry }
    ensures ticket { result ≡ state.old.ticket }
{
    let lane = c.transport as usize;
    let job = c.job as usize;
    let entry = c.entry as usize;
    let d = state.entries.destination[entry] as usize;
    let ticket = state.ticket;
    state.entries.kind[entry] = 2;
    state.entries.ticket[entry] = ticket;
    state.jobs.picked[job] += 1;
    state.jobs.turn[job] = c.place + 1;
    state.busy.transport[lane] += 1;
    state.busy.destination[d] += 1;
    state.ticket = next_ticket(ticket);
    state.turn = c.transport + 1;
    ticket
}

// The ticket after t: it rolls from 4,294,967,295 back to 0.
fn next_ticket(t: u32) -> u32
    ensures { result ≡ (t + 1) % tickets }
{
    t.wrapping_add(1)
}
