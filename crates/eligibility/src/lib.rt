// Document 01, "An entry is eligible if ..": what waits, and where there is room. Tables that a byte indexes have 256 places, so that no number has to be tested first.
#![tactic(auto)]

ghost use Rattle.std.specs.Prelude.{◌≡◌, true, false, ◌&&◌, ℕ, ◌+◌, ◌-◌, ◌<◌, ◌≤◌, get_or, ltb};
ghost use Rattle.laws.specs.Bools.{when◌then◌else◌};
ghost use Rattle.laws.specs.Range.{first_below};
ghost use Rattle.rules.specs.State.{at, is_live, window_of};
ghost use Rattle.rules.specs.SoundFacts.{InRange};
ghost use Rattle.eligibility.specs.Eligibility.{is_open, left_in, open_to, ready_in, waits_for};

use rules::{Busy, Destination, Entries, Health, Jobs, Setup};

// "its destination is live with busy below window"
fn has_room(h: Health, busy: u16) -> bool
    ensures { result ≡ (is_live h && ltb busy (window_of h)) }
{
    matches!(h, Health::Live(u) if u64::from(busy) < u.window)
}

// "its transport has a free agent"
fn has_agent(busy: u16, agents: u64) -> bool
    ensures { result ≡ ltb busy agents }
{
    u64::from(busy) < agents
}

// Which destinations have room, and a free agent of their transport.
pub fn open_table(ds: [Destination; 32], busy: Busy, setup: Setup) -> [bool; 256]
    requires { InRange setup }
    ensures { (d : ℕ) → d < setup.destinations → get_or result d false ≡ is_open ds busy setup d }
{
    let mut table = [false; 256];
    for d in 0..setup.destinations as usize {
        let t = setup.home[d] as usize;
        table[d] = has_room(ds[d].health, busy.destination[d])
            & has_agent(busy.transport[t], setup.settings[t].agents);
    }
    table
}

// What waits of a job that is present: its n less the picked and the dropped.
fn left_of(present: bool, n: u16, picked: u16, dropped: u16) -> u16
    requires { present ≡ true → picked + dropped ≤ n }
    ensures { result ≡ (when present then n - (picked + dropped) else 0) }
{
    if present { n - (picked + dropped) } else { 0 }
}

// The same of each job number.
pub fn left_waiting(jobs: &Jobs) -> [u16; 256]
    requires { (j : ℕ) → j < 32 → get_or jobs.now.present j false ≡ true → at jobs.now.picked j + at jobs.now.dropped j ≤ at jobs.now.n j }
    ensures jobs { (j : ℕ) → j < 32 → at result j ≡ left_in jobs.now.present jobs.now.n jobs.now.picked jobs.now.dropped j }
    ensures others { (j : ℕ) → 32 ≤ j → j < 256 → at result j ≡ 0 }
{
    let mut waits = [0; 256];
    for j in 0..32 {
        waits[j] = left_of(jobs.present[j], jobs.n[j], jobs.picked[j], jobs.dropped[j]);
    }
    waits
}

// What a pick looks up of jobs and destinations: how many entries of each job wait, how many of them for each destination (d of job j at 32 * j + d), and
// which destinations have room.
#[derive(Clone, Copy)]
pub struct Tables<'a> {
    pub waits: &'a [u16; 256],
    pub pairs: &'a [u16; 1024],
    pub room: &'a [bool; 256],
}

impl Tables<'_> {
    // Job j has an entry that waits for this destination, which has room. From 32 on there is no destination.
    pub fn open_to(self, j: usize, to: u8) -> bool
        requires { j < 32 }
        ensures { result ≡ open_to self.entry.pairs.now self.entry.room.now j to }
    {
        let d = usize::from(to);
        d < 32 && 0 < self.pairs[32 * j + d] && self.room[d]
    }

    // Job j has one that waits for some destination with room. From 32 on there is no job.
    pub fn is_ready(self, j: usize) -> bool
        ensures { result ≡ get_or (ready_in self.entry.pairs.now self.entry.room.now) j false }
    {
        let Tables { pairs, room, .. } = self;
        j < 32
            && pairs[32 * j..32 * j + 32]
                .iter()
                .zip(room)
                .any(|(&n, &open)| 0 < n && open)
    }
}

// The first entry of job j that waits for destination d.
pub fn first_waiting(entries: &Entries, j: u8, d: u8) -> Option<u16>
    ensures { result ≡ first_below (waits_for entries.now.kind entries.now.job entries.now.destination j d) 512 }
{
    for e in 0..512 {
        if entries.kind[e] == 1 && entries.job[e] == j && entries.destination[e] == d {
            return Some(e as u16);
        }
    }
    None
}
