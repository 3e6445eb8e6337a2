// The tests of a job after those of soundness and of the clock, in the order of the table of refusals: document 01, "Refusal numbers". What they ask:
// which destinations are dead, whether a job's destinations are its transport's, how many of them would wait, and which number and how many places are
// free.
#![tactic(auto)]

ghost use Rattle.std.specs.Prelude.{◌≡◌, false, not, ℕ, ◌≤◌, ◌<◌, length, get_or};
ghost use Rattle.laws.specs.Range.{table_to, count_to, first_below};
ghost use Rattle.laws.specs.Sequence.{every_in};
ghost use Rattle.rules.specs.Answers.{refusal_in};
ghost use Rattle.rules.specs.State.{at, is_live};
ghost use Rattle.admission.specs.Admission.{dead_on, on_transport, free_in, kept_by, further_refusal};

use rules::{Destination, Health, Refusal};

fn is_dead(h: Health) -> bool
    ensures { result ≡ not (is_live h) }
{
    matches!(h, Health::Dead(_))
}

// A table of the dead.
pub fn dead_table(ds: [Destination; 32]) -> [bool; 32]
    ensures { result ≡ table_to (dead_on ds) 32 }
{
    let mut dead = [false; 32];
    for d in 0..32 {
        dead[d] = is_dead(ds[d].health);
    }
    dead
}

// Whether every destination exists and is this transport's.
pub fn all_on(home: &[u64; 32], count: u64, t: u64, dests: &[u64]) -> bool
    requires { count ≤ 32 }
    ensures { result ≡ every_in (on_transport home.now count t) dests.now }
{
    dests.iter().all(|&d| d < count && home[d as usize] == t)
}

// How many of the destinations are not dead.
pub fn count_kept(dests: &[u64], dead: &[bool; 32]) -> usize
    requires { (k : ℕ) → k < length dests.now → at dests.now k < 32 }
    ensures { result ≡ length (kept_by dead.now dests.now) }
{
    let mut n = 0;
    for &d in dests {
        if !dead[d as usize] {
            n += 1;
        }
    }
    n
}

// The lowest free job number, where there is one.
pub fn first_absent(present: &[bool; 32]) -> Option<u8>
    ensures { result ≡ first_below (λ j. not (get_or present.now j false)) 32 }
{
    present
        .iter()
        .position(|&is_present| !is_present)
        .map(|j| j as u8)
}

// How many entry places are free.
pub fn count_free(kind: &[u8; 512]) -> usize
    ensures { result ≡ count_to (free_in kind.now) 512 }
{
    kind.iter().filter(|&&k| k == 0).count()
}

// What a job is refused for once its clock is good, by the table's first row that fits. It reads columns of the state, and the table of those that are
// dead after waking. Of a sound state's own columns this is `job_refusal` (`further_is` of proofs/).
pub fn refusal(
    home: &[u64; 32],
    present: &[bool; 32],
    kind: &[u8; 512],
    transports: u64,
    destinations: u64,
    t: u64,
    dests: &[u64],
    dead: &[bool; 32],
    places: usize,
) -> Result<(), Refusal>
    requires { destinations ≤ 32 }
    ensures { refusal_in result ≡ further_refusal home.now present.now kind.now transports
        destinations t dests.now (length (kept_by dead.now dests.now)) places }
{
    if transports <= t {
        return Err(Refusal::Transport);
    }
    if dests.is_empty() || 256 < dests.len() {
        return Err(Refusal::EntryCount);
    }
    if !all_on(home, destinations, t, dests) {
        return Err(Refusal::Destination);
    }
    let n = count_kept(dests, dead);
    if 0 < n && first_absent(present).is_none() {
        return Err(Refusal::JobNumbers);
    }
    if count_free(kind) < n {
        return Err(Refusal::EntryPlaces);
    }
    if places < dests.len() {
        return Err(Refusal::Room);
    }
    Ok(())
}
