// A set-up read from numbers: how many transports, 13 numbers for each, how many destinations, the home of each.
ghost use Rattle.std.specs.Prelude.{◌≤◌, ◌≡◌, length, IfSome};
ghost use Rattle.lines.specs.Setups.{count_place, settings_in, homes_behind, setup_from};

use crate::text::word;
use rules::{Feedback, Settings, Setup};
use startup::zero_settings;

// The place of a set-up's number of destinations; none where the numbers are not as many as it announces.
pub fn count_place(words: &[u64]) -> Option<usize>
    ensures place { result ≡ count_place words.now }
    ensures within { IfSome result (λ p. p ≤ length words.now) }
{
    let t = word(words, 0);
    // 13 numbers each
    if (words.len() as u64) / 13 < t {
        return None;
    }
    let at = 1 + 13 * (t as usize);
    let d = *words.get(at)?;
    (d == (words.len() - at - 1) as u64).then_some(at)
}

// The set-up of these numbers, where that is the place of its number of destinations.
pub fn setup_of(words: &[u64], at: usize) -> Setup
    requires { at ≤ length words.now }
    ensures { result ≡ setup_from words.now at }
{
    let t = word(words, 0);
    Setup {
        transports: t,
        settings: [
            settings(words, t, 0),
            settings(words, t, 1),
            settings(words, t, 2),
            settings(words, t, 3),
        ],
        destinations: word(words, at),
        home: homes(words, at),
    }
}

// The settings of transport i, where there are t; zeros where i is none of them.
fn settings(words: &[u64], t: u64, i: u32) -> Settings
    ensures { result ≡ settings_in words.now t i }
{
    if t <= u64::from(i) {
        return zero_settings();
    }
    let at = 1 + 13 * (i as usize);
    Settings {
        agents: word(words, at),
        cost: word(words, at + 1),
        loan: word(words, at + 2),
        discount: word(words, at + 3),
        minimum: word(words, at + 4),
        limit: word(words, at + 5),
        initial: word(words, at + 6),
        positive: Feedback {
            percent: word(words, at + 7),
            form: word(words, at + 8),
        },
        negative: Feedback {
            percent: word(words, at + 9),
            form: word(words, at + 10),
        },
        cohortlimit: word(words, at + 11),
        suspension: word(words, at + 12),
    }
}

// The first 32 numbers behind a place.
fn homes(words: &[u64], at: usize) -> [u64; 32]
    requires { at ≤ length words.now }
    ensures { result ≡ homes_behind words.now at }
{
    let mut home = [0; 32];
    for j in 0..32 {
        home[j] = word(words, at + 1 + j);
    }
    home
}
