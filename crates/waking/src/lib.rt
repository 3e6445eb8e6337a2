// Document 01, "Time and tickets": the test of a call's clock, and what an accepted call does first: it "wakes destinations whose suspension ends at or
// before it, to their first state".
#![tactic(auto)]

ghost use Rattle.std.specs.Prelude.{◌≡◌, ◌||◌, ℕ, ◌≤◌, ◌<◌, ltb};
ghost use Rattle.laws.specs.Range.{table_to};
ghost use Rattle.rules.specs.Sizes.{last_second};
ghost use Rattle.rules.specs.State.{at};
ghost use Rattle.rules.specs.Windows.{woken_at};
ghost use Rattle.waking.specs.Waking.{is_due, setup_of};

use rules::{Destination, Health, Settings};

// Refusal 3: the clock is earlier than the last accepted one, or above 2^32-1. Of a state's own clock this is `bad_clock` (`clock_is` of proofs/).
pub fn bad_clock(last: u32, now: u64) -> bool
    ensures { result ≡ (ltb now last || ltb last_second now) }
{
    now < u64::from(last) || u64::from(u32::MAX) < now
}

// A dead destination whose suspension ends at or before now.
fn is_due(h: Health, now: u64) -> bool
    ensures { result ≡ is_due h now }
{
    matches!(h, Health::Dead(end) if end <= now)
}

// All destinations, woken, by the parts of the set-up that this reads: the homes, the settings, and how many destinations there are. Only what is due is
// written. Of a state's own this is `(woken s now).destinations` (`woken_is` of proofs/).
pub fn wake(
    ds: [Destination; 32],
    home: &[u64; 32],
    settings: [Settings; 4],
    count: u64,
    now: u64,
) -> [Destination; 32]
    requires { (count ≤ 32) × ((d : ℕ) → d < count → at home.now d < 4) }
    ensures { result ≡ table_to (woken_at ds (setup_of home.now settings count) now) 32 }
{
    let mut next = ds;
    for d in 0..count as usize {
        if is_due(next[d].health, now) {
            let g = settings[home[d] as usize];
            next[d] = Destination {
                health: Health::Live(window::first_state(g)),
            };
        }
    }
    next
}
