// What the search for the best candidate answers of a state as it is (A3), whether or not a pick would make it.
use eligibility::{Tables, left_waiting, open_table};
use lines::answer;
use rules::State;
use searching::Best;

// For the current job y of transport t, which can pay for so many entries. Nothing is looked at where the state is unsound or the clock out of order.
fn search(s: State, now: u64, t: u8, y: u8, most: u64) -> Best {
    let nobody = Best {
        job: None,
        looked: 0,
    };
    let mut pairs = [0; 1024];
    if !soundness::sound_with(s, &mut pairs) || waking::bad_clock(s.clock, now) {
        return nobody;
    }
    let room = open_table(s.destinations, s.busy, s.setup);
    let waits = left_waiting(&s.jobs);
    let tables = Tables {
        waits: &waits,
        pairs: &pairs,
        room: &room,
    };
    searching::best_candidate(&s.jobs, &s.arrivals, tables, now, t, y, most)
}

// A number of a line as a small one; 255 where it is larger, which is nobody's.
fn small(x: u64) -> u8 {
    u8::try_from(x).unwrap_or(255)
}

// How many jobs it looked at, and the best, counted from 1; 0 for none.
pub fn put_search(out: &mut [u8], s: State, now: u64, t: u64, y: u64, most: u64) -> usize {
    let best = search(s, now, small(t), small(y), most);
    let job = best.job.map_or(0, |j| u64::from(j) + 1);
    let mut at = answer::put(out, 0, b"looked");
    at = answer::put_number(out, at, u64::from(best.looked));
    at = answer::put(out, at, b" best");
    at = answer::put_number(out, at, job);
    answer::put_byte(out, at, b'\n')
}
