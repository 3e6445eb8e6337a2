// Document 01, "Sound means": live destinations and dead ones.
ghost use Rattle.std.specs.Prelude.{◌≡◌, true, ◌≤◌};
ghost use Rattle.laws.specs.Range.{all_to};
ghost use Rattle.rules.specs.Setup.{setup_in_range};
ghost use Rattle.clauses.specs.Clauses.{health_test, destination_test};

use rules::{Destination, Health, Settings, Setup, U};

fn health_right(g: &Settings, h: Health, held: u16) -> bool
    requires { g.now.cohortlimit ≤ 100 }
    ensures { result ≡ health_test g.now held h }
{
    match h {
        Health::Live(u) => {
            ((1 <= u.window) & (u.window <= g.limit))
                & (u.success < U)
                & (u.failure < U)
                & (u.cohorts < g.cohortlimit * U)
        }
        Health::Dead(_) => held == 0,
    }
}

pub fn destinations_right(u: Setup, destinations: [Destination; 32], held: [u16; 32]) -> bool
    requires { setup_in_range u ≡ true }
    ensures { result ≡ all_to (destination_test u destinations held) u.destinations }
{
    for d in 0..u.destinations as usize {
        let g = &u.settings[u.home[d] as usize];
        if !health_right(g, destinations[d].health, held[d]) {
            return false;
        }
    }
    true
}
