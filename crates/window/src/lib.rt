// Document 01, "Windows": a destination's first state, its step after a success or a failure, and why its number moved in it.
#![tactic(auto)]

ghost use Rattle.std.specs.Prelude.{◌≡◌, true, ◌*◌, ◌≤◌, ◌<◌};
ghost use Rattle.rules.specs.declared.Health.TheVariants.{Live};
ghost use Rattle.rules.specs.Sizes.{U, max_window};
ghost use Rattle.rules.specs.Setup.{settings_in_range, first_state};
ghost use Rattle.rules.specs.Windows.{feedback, cohort_share, raised, live_after_success, after_success};
ghost use Rattle.rules.specs.Windows.{lowered, live_after_failure, after_failure, after_report};
ghost use Rattle.rules.specs.Windows.{window_moved, live_moved, dead_moved, moved, stepped};
ghost use Rattle.window.specs.Fits.{health_fits};
ghost use Rattle.rules.specs.Sound.{sums_fit};

use roots::root;
use rules::{Feedback, Health, Move, Outcome, Settings, StepAnswer, Sums, U};
use std::cmp::Ordering;

// The feedback at a window, in its form: flat, per window, by the square root. That both are in range soundness gives for a live destination.
pub fn feedback(f: Feedback, window: u64) -> u64
    requires { (f.percent ≤ 100) × (1 ≤ window) × (window ≤ max_window) }
    ensures { result ≡ feedback f window }
{
    match f.form {
        0 => f.percent * U / 100,
        1 => (f.percent * U).div_ceil(100 * window),
        _ => f.percent * root(window) / 100,
    }
}

// The share of a cohort that one failure is, at a live destination's window.
pub fn cohort_share(window: u64) -> u64
    requires { (1 ≤ window) × (window ≤ max_window) }
    ensures { result ≡ cohort_share window }
{
    U.div_ceil(window)
}

// A destination's first state.
pub fn first_state(g: Settings) -> Sums
    ensures { result ≡ first_state g }
{
    Sums {
        window: g.initial,
        success: 0,
        failure: 0,
        cohorts: 0,
    }
}

// The sums with this success: at U or more the window grows.
fn raised(g: Settings, u: Sums, success: u64) -> Sums
    requires { u.window ≤ max_window }
    ensures { result ≡ raised g u success }
{
    if success < U {
        return Sums {
            success,
            cohorts: 0,
            ..u
        };
    }
    Sums {
        window: (u.window + 1).min(g.limit),
        success: success - U,
        failure: 0,
        cohorts: 0,
    }
}

// A dead destination after a late success: its first state. It has no window that a success could be divided by.
fn revived(g: Settings) -> Health
    ensures { result ≡ Live (first_state g) }
{
    Health::Live(first_state(g))
}

// The sums with this fall of failure, and these cohorts: below 0 the window falls, to no less than 1. Both bounds are soundness.
fn lowered(u: Sums, fall: u64, cohorts: u64) -> Sums
    requires { (u.failure < U) × (fall ≤ U) }
    ensures { result ≡ lowered u fall cohorts }
{
    if fall <= u.failure {
        return Sums {
            failure: u.failure - fall,
            cohorts,
            ..u
        };
    }
    Sums {
        window: u.window.max(2) - 1,
        success: 0,
        failure: u.failure + U - fall,
        cohorts,
    }
}

// What a report finds beside its destination: the settings, which soundness says are in range, how many of the 512 entries are busy there, this delivery
// counted, and the clock, which its own test says is a second.
#[derive(Clone, Copy)]
struct Report {
    settings: Settings,
    busy: u64,
    now: u64,
    ghost in_range: { settings_in_range settings ≡ true },
    ghost few: { busy ≤ 512 },
    ghost second: { now ≤ 4294967295 },
}

// That the destination fits the settings is soundness too.
impl Report {
    // A live destination after a success.
    fn live_after_success(self, u: Sums) -> Sums
        requires { sums_fit self.settings u ≡ true }
        ensures { result ≡ live_after_success self.settings self.busy u }
    {
        if u.window < self.busy + self.settings.initial {
            let success = u.success + feedback(self.settings.positive, u.window);
            return raised(self.settings, u, success);
        }
        Sums { cohorts: 0, ..u }
    }

    // A destination after a success.
    fn after_success(self, h: Health) -> Health
        requires { health_fits self.settings h ≡ true }
        ensures { result ≡ after_success self.settings self.busy h }
    {
        match h {
            Health::Live(u) => Health::Live(self.live_after_success(u)),
            Health::Dead(_) => revived(self.settings),
        }
    }

    // A live destination after a failure that brings it to these cohorts.
    fn live_after_failure(self, u: Sums, cohorts: u64) -> Health
        requires { sums_fit self.settings u ≡ true }
        ensures { result ≡ live_after_failure self.settings self.now u cohorts }
    {
        if self.settings.cohortlimit * U <= cohorts {
            return Health::Dead(self.now + self.settings.suspension);
        }
        let fall = feedback(self.settings.negative, u.window);
        Health::Live(lowered(u, fall, cohorts))
    }

    // A destination after a failure.
    fn after_failure(self, h: Health) -> Health
        requires { health_fits self.settings h ≡ true }
        ensures { result ≡ after_failure self.settings self.now h }
    {
        match h {
            Health::Live(u) => self.live_after_failure(u, u.cohorts + cohort_share(u.window)),
            Health::Dead(_) => h,
        }
    }

    // The destination after this outcome.
    fn after(self, h: Health, outcome: Outcome) -> Health
        requires { health_fits self.settings h ≡ true }
        ensures { result ≡ after_report self.settings self.busy self.now outcome h }
    {
        match outcome {
            Outcome::Success => self.after_success(h),
            Outcome::Failure => self.after_failure(h),
        }
    }
}

// Why the number moved, case by case: of a live destination by its windows, of a dead one by the outcome.

fn window_moved(found: u64, left: u64) -> Move
    ensures { result ≡ window_moved found left }
{
    match found.cmp(&left) {
        Ordering::Less => Move::Raised,
        Ordering::Greater => Move::Lowered,
        Ordering::Equal => Move::Unchanged,
    }
}

fn live_moved(found: u64, left: Health) -> Move
    ensures { result ≡ live_moved found left }
{
    match left {
        Health::Live(u) => window_moved(found, u.window),
        Health::Dead(_) => Move::Dead,
    }
}

fn dead_moved(outcome: Outcome) -> Move
    ensures { result ≡ dead_moved outcome }
{
    match outcome {
        Outcome::Success => Move::Revived,
        Outcome::Failure => Move::Unchanged,
    }
}

fn moved(outcome: Outcome, found: Health, left: Health) -> Move
    ensures { result ≡ moved outcome found left }
{
    match found {
        Health::Live(u) => live_moved(u.window, left),
        Health::Dead(_) => dead_moved(outcome),
    }
}

// The step of a report on a destination after waking; busy still counts this delivery.
pub fn step(g: Settings, busy: u64, now: u64, h: Health, outcome: Outcome) -> StepAnswer
    requires { (settings_in_range g ≡ true) × (health_fits g h ≡ true) × (busy ≤ 512) × (now ≤ 4294967295) }
    ensures { result ≡ stepped g busy now outcome h }
{
    let report = Report {
        settings: g,
        busy,
        now,
    };
    let health = report.after(h, outcome);
    StepAnswer {
        health,
        moved: moved(outcome, h, health),
    }
}
