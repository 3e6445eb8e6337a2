// Document 01, "Sound means": each transport's list, and the list of all jobs in order of taking.
ghost use Rattle.std.specs.Prelude.{◌≡◌, true, false, ◌&&◌, ℕ, ◌≤◌, ◌<◌, get_or, eqb, leb};
ghost use Rattle.laws.specs.Range.{all_to};
ghost use Rattle.laws.specs.Sequence.{holds, holds_each_once, never_falling, every_in};
ghost use Rattle.rules.specs.State.{at, list_of};
ghost use Rattle.listing.specs.Listing.{queue_test};

use rules::JobList;

// The present jobs of a transport.
fn jobs_on(present: &[bool; 32], transport: &[u8; 32], t: u8) -> [bool; 32]
    ensures { (j : ℕ) → j < 32 → get_or result j false ≡ get_or present.now j false && eqb (at transport.now j) t }
{
    let mut on = [false; 32];
    for j in 0..32 {
        on[j] = present[j] & (transport[j] == t);
    }
    on
}

// Whether the list holds each of these jobs once, and nothing else.
pub fn each_once(q: JobList, these: [bool; 32]) -> bool
    ensures { result ≡ leb q.count 32 && holds_each_once (λ x. get_or these x false) 32 (list_of q) }
{
    if 32 < q.count {
        return false;
    }
    let mut left = these;
    for &x in q.numbers() {
        let x = usize::from(x);
        if 32 <= x || !left[x] {
            return false;
        }
        left[x] = false;
    }
    !left.contains(&true)
}

// Whether seconds never fall along the list, or pass the clock.
pub fn seconds_rise(q: JobList, arrival: &[u32; 32], clock: u32) -> bool
    requires count_bound { q.count ≤ 32 }
    requires by_index { (x : ℕ) → holds x (list_of q) ≡ true → x < 32 }
    ensures { result
        ≡ never_falling (at arrival.now) (list_of q) && every_in (λ j. leb (at arrival.now j) clock) (list_of q) }
{
    let mut last = 0;
    for &x in q.numbers() {
        let second = arrival[usize::from(x)];
        if second < last || clock < second {
            return false;
        }
        last = second;
    }
    true
}

// Each transport's list.
pub fn queues_right(
    queues: [JobList; 4],
    present: &[bool; 32],
    transport: &[u8; 32],
    transports: usize,
) -> bool
    requires { transports ≤ 4 }
    ensures { result ≡ all_to (queue_test queues present.now transport.now) transports }
{
    for t in 0..transports {
        if !each_once(queues[t], jobs_on(present, transport, t as u8)) {
            return false;
        }
    }
    true
}
