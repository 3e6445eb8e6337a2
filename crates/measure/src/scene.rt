// The state that is measured: 4 transports, 32 destinations, 32 jobs, all 512 entries used, half of the destinations full.
ghost use Rattle.std.specs.Prelude.{◌≤◌};

use rules::{Feedback, Settings, Setup, State};

// The house defaults, with a window of 4, and with these for preemption.
pub fn settings(cost: u64, loan: u64, discount: u64, minimum: u64) -> Settings {
    let f = Feedback {
        percent: 100,
        form: 1,
    };
    Settings {
        agents: 100,
        cost,
        loan,
        discount,
        minimum,
        limit: 20,
        initial: 4,
        positive: f,
        negative: f,
        cohortlimit: 1,
        suspension: 300,
    }
}

// Eight destinations a transport.
fn homes() -> [u64; 32] {
    let mut home = [0; 32];
    for (d, t) in home.iter_mut().enumerate() {
        *t = (d / 8) as u64;
    }
    home
}

// Sixteen entries, four for each of the transport's first four destinations.
fn to_first_four(t: u8) -> [u64; 16] {
    let mut dests = [0; 16];
    for (i, d) in dests.iter_mut().enumerate() {
        *d = 8 * u64::from(t) + (i % 4) as u64;
    }
    dests
}

// Entries that go in turn to one of the transport's first four destinations and to one of its last four.
fn to_all(t: u8) -> [u64; 25] {
    let mut dests = [0; 25];
    for (i, d) in dests.iter_mut().enumerate() {
        *d = 8 * u64::from(t) + (4 * (i % 2) + i / 2 % 4) as u64;
    }
    dests
}

// A job of n entries.
fn with_job(s: State, t: u8, n: usize) -> State
    requires { n ≤ 25 }
{
    let mut list = [0; 32];
    scheduler::take_job(s, 0, u64::from(t), &to_all(t)[..n], &mut list).state
}

// On each transport a job whose 16 entries are all busy, and so fill the windows of four destinations.
fn half_full() -> State {
    let u = Setup {
        transports: 4,
        settings: [settings(5, 3, 50, 3); 4],
        destinations: 32,
        home: homes(),
    };
    let mut s = scheduler::set_up(u).state;
    let mut list = [0; 32];
    for t in 0..4 {
        s = scheduler::take_job(s, 0, u64::from(t), &to_first_four(t), &mut list).state;
    }
    for _ in 0..64 {
        s = scheduler::pick(s, 0).state;
    }
    s
}

// 25 entries for the first 16 jobs, 4 for the others.
fn size(i: u8) -> usize
    ensures { result ≤ 25 }
{
    if i < 16 { 25 } else { 4 }
}

// That, and behind it on each transport four jobs of 25 entries and two of 4. There is room for four jobs more.
pub fn with_room() -> State {
    let mut s = half_full();
    for i in 0..24 {
        s = with_job(s, i % 4, size(i));
    }
    s
}

// With these four, of 4 entries each: 32 jobs and 512 entries.
pub fn whole() -> State {
    let mut s = with_room();
    for t in 0..4 {
        s = with_job(s, t, 4);
    }
    s
}
