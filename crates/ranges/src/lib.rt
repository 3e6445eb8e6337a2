// Document 01, "Set-up ranges": the test of a set-up.
#![tactic(auto)]

ghost use Rattle.std.specs.Prelude.{◌≡◌, ltb};
ghost use Rattle.std.specs.List.{list_all};
ghost use Rattle.rules.specs.Setup.{within, feedback_in_range, slots_in_range, windows_in_range, settings_in_range, setup_in_range};

use rules::{Feedback, Settings, Setup};

const MAX_AGENTS: u64 = 1_000;

const MAX_WINDOW: u64 = 1_000;

// Low to high, both ends in.
fn within(low: u64, high: u64, x: u64) -> bool
    ensures { result ≡ within low high x }
{
    (low <= x) & (x <= high)
}

fn feedback_in_range(least: u64, f: Feedback) -> bool
    ensures { result ≡ feedback_in_range least f }
{
    within(least, 100, f.percent) & within(0, 2, f.form)
}

fn slots_in_range(g: Settings) -> bool
    ensures { result ≡ slots_in_range g }
{
    within(1, MAX_AGENTS, g.agents)
        & ((g.cost == 0) | within(2, 100, g.cost))
        & within(0, 100, g.loan)
        & within(0, 100, g.discount)
        & within(0, 100, g.minimum)
}

fn windows_in_range(g: Settings) -> bool
    ensures { result ≡ windows_in_range g }
{
    within(1, MAX_WINDOW, g.limit)
        & within(1, g.limit, g.initial)
        & feedback_in_range(1, g.positive)
        & feedback_in_range(0, g.negative)
        & within(1, 100, g.cohortlimit)
        & within(1, 86400, g.suspension)
}

// Whether one transport's settings are in the ranges, whatever they are.
fn settings_in_range(g: Settings) -> bool
    ensures { result ≡ settings_in_range g }
{
    slots_in_range(g) & windows_in_range(g)
}

// Whether these transports' settings are.
fn all_settings_in_range(settings: &[Settings]) -> bool
    ensures { result ≡ list_all settings_in_range settings.now }
{
    settings.iter().all(|&g| settings_in_range(g))
}

// Whether each of these destinations belongs to a transport that is there.
fn all_homes_there(home: &[u64], transports: u64) -> bool
    ensures { result ≡ list_all (λ t. ltb t transports) home.now }
{
    home.iter().all(|&t| t < transports)
}

// Whether a set-up is in the ranges, whatever it is.
pub fn in_range(u: Setup) -> bool
    ensures { result ≡ setup_in_range u }
{
    within(1, 4, u.transports)
        && within(1, 32, u.destinations)
        && all_settings_in_range(&u.settings[..u.transports as usize])
        && all_homes_there(&u.home[..u.destinations as usize], u.transports)
}
