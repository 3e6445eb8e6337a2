// The job call: a message for one transport, with an entry for each delivery. Document 01, "Time and tickets". Its tests are the crate `admission`, what a
// new job is made of is `newjob`; here they are joined.
#![tactic(auto)]

ghost use Rattle.std.specs.Prelude.{◌≡◌};
ghost use Rattle.rules.specs.Calls.{job_reply};
ghost use Rattle.rules.specs.Gave.{job_gave};
ghost use Rattle.rules.proofs.Shape.{Shaped};

use admission::{dead_table, first_absent};
use newjob::{fill, free_places, new_row, put_last, split};
use rules::{HandedBack, JobAnswer, Refusal, State};

// A job with an entry for each destination. Positions of entries put off at once go to the lent list; places past
// them stay.
pub fn take_job(
    s: State,
    now: u64,
    transport: u64,
    dests: &[u64],
    list: &mut [u16],
) -> HandedBack<JobAnswer>
    ensures { job_gave result list.new ≡ job_reply s now transport dests.now list.old }
{
    // the state is worked in where it is handed back, so that it is copied once; the answer follows
    let mut back = HandedBack {
        answer: Err(Refusal::Unsound),
        state: s,
    };
    back.answer = take(&mut back.state, now, transport, dests, list);
    back
}

// The same of a state in its place: a refusal leaves it as it came. That its arrays are as long as their types say, the caller knows, who has it by value.
fn take(
    state: &mut State,
    now: u64,
    transport: u64,
    dests: &[u64],
    list: &mut [u16],
) -> Result<JobAnswer, Refusal>
    requires { Shaped state.old }
    ensures { job_gave (record { answer = result; state = state.new }) list.new ≡ job_reply state.old now transport dests.now list.old }
{
    let mut pairs = [0; 1024];
    if !soundness::sound_at(state, &mut pairs) {
        return Err(Refusal::Unsound);
    }
    if waking::bad_clock(state.clock, now) {
        return Err(Refusal::Clock);
    }
    let ds = waking::wake(
        state.destinations,
        &state.setup.home,
        state.setup.settings,
        state.setup.destinations,
        now,
    );
    let dead = dead_table(ds);
    admission::refusal(
        &state.setup.home,
        &state.jobs.present,
        &state.entries.kind,
        state.setup.transports,
        state.setup.destinations,
        transport,
        dests,
        &dead,
        list.len(),
    )?;
    state.clock = now as u32;
    state.destinations = ds;

    // the entries for dead destinations are put off; the others wait, if there are any, and are a new job
    let parts = split(dests, &dead, list);
    let n = parts.n as usize;
    if n == 0 {
        return Ok(JobAnswer {
            job: None,
            putoff: parts.putoff,
        });
    }
    let job = first_absent(&state.jobs.present).unwrap();
    let kept = &parts.kept[..n];
    state.jobs = new_row(state.jobs, job, transport as u8, kept, now as u32);
    let free = free_places(&state.entries.kind, n);
    let places = &free[..n];
    fill(&mut state.entries.kind, places, &[1; 256][..n]);
    fill(&mut state.entries.job, places, &[job; 256][..n]);
    fill(&mut state.entries.destination, places, kept);

    // it goes to the end of its transport's list, and of all jobs'
    let lane = transport as usize;
    state.queues[lane] = put_last(state.queues[lane], job);
    state.arrivals = put_last(state.arrivals, job);
    Ok(JobAnswer {
        job: Some(job),
        putoff: parts.putoff,
    })
}
