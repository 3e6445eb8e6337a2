// What a pick reads, computed fast: document 01, "Picking and preemption". Nothing is written here; the pick writes.
#![tactic(auto)]

ghost use Rattle.std.specs.Prelude.{◌≡◌, ◌≤◌};
ghost use Rattle.rules.specs.Sizes.{last_second};
ghost use Rattle.rules.specs.SoundFacts.{Sound};
ghost use Rattle.counting.specs.Counting.{Paired};
ghost use Rattle.choice.specs.Choosing.{choice_of, picked_from};
ghost use Rattle.rules.proofs.Shape.{Shaped};

use eligibility::{Tables, first_waiting, left_waiting, open_table};
use preemption::{Preemptor, find_preemptor};
use rules::State;
use turns::{Next, Turn, next_place, next_transport};

// What a pick reads.
#[derive(Clone, Copy)]
pub struct Choice {
    pub transport: u8,
    // the first job on the transport's list with an eligible entry
    pub current: u8,
    // the jobs before it with a waiting entry
    pub passed: u8,
    // the job that preempts it, if one does
    pub preemptor: Option<Preemptor>,
    // the job that the pick is from, the place in its order of destinations, and the entry
    pub job: u8,
    pub place: u8,
    pub entry: u16,
}

// The current job, or the one that preempts it.
fn picked_from(current: u8, preemptor: Option<Preemptor>) -> u8
    ensures { result ≡ picked_from current preemptor }
{
    match preemptor {
        Some(p) => p.job,
        None => current,
    }
}

// The public pick has checked before that the state is sound, which gave the table of pairs, and that the clock is in order.
pub fn choose(w: State, now: u64, pairs: &[u16; 1024]) -> Option<Choice>
    requires { (Sound w) × (w.clock ≤ now) × (now ≤ last_second) × Paired w.entries.kind w.entries.job w.entries.destination pairs.now }
    ensures { result ≡ choice_of w now }
{
    choose_at(&w, now, pairs)
}

// The same of a state where it stands, which is not copied. That its arrays are as long as their types say is asked: behind a reference a proof does not see it.
pub fn choose_at(w: &State, now: u64, pairs: &[u16; 1024]) -> Option<Choice>
    requires shape { Shaped w.now }
    requires given { (Sound w.now) × (w.now.clock ≤ now) × (now ≤ last_second)
        × Paired w.now.entries.kind w.now.entries.job w.now.entries.destination pairs.now }
    ensures { result ≡ choice_of w.now now }
{
    let room = open_table(w.destinations, w.busy, w.setup);
    let waits = left_waiting(&w.jobs);
    let tables = Tables {
        waits: &waits,
        pairs,
        room: &room,
    };
    let Turn {
        transport,
        job: current,
        passed,
    } = next_transport(w.queues, w.setup.transports, w.turn, tables)?;
    let settings = w.setup.settings[usize::from(transport)];
    let preemptor = find_preemptor(
        &w.jobs,
        &w.arrivals,
        settings,
        tables,
        now,
        transport,
        current,
    );
    let job = picked_from(current, preemptor);
    let Next { place, destination } = next_place(&w.jobs, job, tables)?;
    let entry = first_waiting(&w.entries, job, destination)?;
    Some(Choice {
        transport,
        current,
        passed,
        preemptor,
        job,
        place,
        entry,
    })
}
