// Document 01, "Refusal numbers", "Sound means": whether a state is sound, whatever numbers it holds.
#![tactic(auto)]

ghost use Rattle.std.specs.Prelude.{◌≡◌, false};
ghost use Rattle.rules.specs.Sound.{sound};
ghost use Rattle.rules.proofs.Shape.{Shaped};
ghost use Rattle.counting.specs.Counting.{no_pairs, Pairs};

use clauses::{destinations, jobs};
use listing::{orders, queues};
use rules::State;

// Answers no, and leaves the table as it came.
fn unsound(pairs: &mut [u16; 1024]) -> bool
    ensures { (result ≡ false) × (pairs.new ≡ no_pairs) }
{
    *pairs = [0u16; 1024];
    false
}

// Whether a state is sound. Where it is, the table of zeros becomes that of the waiting entries of each job to each destination.
pub fn sound_with(s: State, pairs: &mut [u16; 1024]) -> bool
    requires { pairs.old ≡ no_pairs }
    ensures answer { result ≡ sound s }
    ensures pairs { Pairs result s.entries.kind s.entries.job s.entries.destination pairs.new }
{
    sound_at(&s, pairs)
}

// The same of a state where it stands, which is not copied. That its arrays are as long as their types say is asked: behind a reference a proof does not see it.
pub fn sound_at(s: &State, pairs: &mut [u16; 1024]) -> bool
    requires shape { Shaped s.now }
    requires pairs { pairs.old ≡ no_pairs }
    ensures answer { result ≡ sound s.now }
    ensures pairs { Pairs result s.now.entries.kind s.now.entries.job s.now.entries.destination pairs.new }
{
    if !ranges::in_range(s.setup) {
        return false;
    }
    let transports = s.setup.transports as usize;
    let destinations = s.setup.destinations as usize;
    if transports < usize::from(s.turn) {
        return false;
    }
    let mut marked = [false; 8192];
    if !orders::mark_orders(&s.jobs.present, &s.jobs.places, &s.jobs.order, &mut marked) {
        return false;
    }
    let Some(counted) = counting::count_entries(
        &s.entries.kind,
        &s.entries.job,
        &s.entries.destination,
        &s.jobs.present,
        &s.jobs.transport,
        &s.setup.home,
        destinations,
        &marked,
        pairs,
    ) else {
        return false;
    };
    // busy counts of transports and destinations equal the busy entries
    if s.busy.transport[..transports] != counted.on[..transports] {
        return unsound(pairs);
    }
    if s.busy.destination[..destinations] != counted.to[..destinations] {
        return unsound(pairs);
    }
    if !jobs::jobs_right(s.jobs, s.setup, counted.waiting, counted.busy) {
        return unsound(pairs);
    }
    if !queues::queues_right(s.queues, &s.jobs.present, &s.jobs.transport, transports) {
        return unsound(pairs);
    }
    if !queues::each_once(s.arrivals, s.jobs.present) {
        return unsound(pairs);
    }
    if !queues::seconds_rise(s.arrivals, &s.jobs.arrival, s.clock) {
        return unsound(pairs);
    }
    if !destinations::destinations_right(s.setup, s.destinations, counted.held) {
        return unsound(pairs);
    }
    true
}

// Whether a state is sound, where the table is not wanted.
pub fn sound(s: State) -> bool
    ensures { result ≡ sound s }
{
    let mut pairs = [0u16; 1024];
    sound_with(s, &mut pairs)
}
