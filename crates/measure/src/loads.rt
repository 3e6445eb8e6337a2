// What is measured: a call made again and again. Each function answers how many of its calls did what they were made for.
ghost use Rattle.std.specs.Prelude.{◌≤◌, length};

use crate::scene;
use rules::{Outcome, PickAnswer, Refusal, ReportAnswer, State};

// One more where the test holds. No count comes near the last number.
pub fn count(good: u32, test: bool) -> u32 {
    good.wrapping_add(u32::from(test))
}

// The soundness test alone. The ticket changes from turn to turn, so that no test is left out.
pub fn sound(rounds: u32) -> u32 {
    let mut s = scene::whole();
    let mut good = 0;
    for ticket in (0..rounds).rev() {
        s.ticket = ticket;
        good = count(good, soundness::sound(s));
    }
    good
}

// What a pick answers, and a report.
type Picked = Result<Option<PickAnswer>, Refusal>;

type Reported = Result<ReportAnswer, Refusal>;

fn is_picked(a: Picked) -> bool {
    matches!(a, Ok(Some(_)))
}

// The entry of a pick that found one, and its ticket.
fn entry_of(a: Picked) -> (u64, u64) {
    match a {
        Ok(Some(p)) => (u64::from(p.entry), u64::from(p.ticket)),
        _ => (0, 0),
    }
}

// Picks, four to a round, each from the state that the one before left. After 64 all windows are full: from the scene again.
pub fn pick(rounds: u32) -> u32 {
    picks(scene::whole(), 0, rounds)
}

// Such picks of a scene, at a second.
pub fn picks(scene: State, now: u64, rounds: u32) -> u32 {
    let mut s = scene;
    let mut good = 0;
    for left in (0..rounds).rev() {
        let p = scheduler::pick(s, now);
        let q = scheduler::pick(p.state, now);
        let r = scheduler::pick(q.state, now);
        let t = scheduler::pick(r.state, now);
        for a in [p.answer, q.answer, r.answer, t.answer] {
            good = count(good, is_picked(a));
        }
        s = if left % 16 == 0 { scene } else { t.state };
    }
    good
}

// The scene with 64 entries more handed out, and which they are. Their tickets are 64 to 127.
#[derive(Drop)]
pub struct Out {
    pub state: State,
    pub entries: [u64; 64],
}

pub fn all_out() -> Out {
    let mut state = scene::whole();
    let mut entries = [0; 64];
    for entry in &mut entries {
        let r = scheduler::pick(state, 0);
        *entry = entry_of(r.answer).0;
        state = r.state;
    }
    Out { state, entries }
}

// Successes of those entries, four to a round, from the last to the first, and again.
pub fn report(rounds: u32) -> u32 {
    let out = all_out();
    let mut s = out.state;
    let mut list = [0; 512];
    let mut good = 0;
    for left in (0..rounds).rev() {
        let k = 4 * (left % 16) as usize;
        let tickets = 64 + k as u64;
        let e = &out.entries[k..k + 4];
        let p = scheduler::report(s, 0, e[3], tickets + 3, Outcome::Success, &mut list);
        let q = scheduler::report(p.state, 0, e[2], tickets + 2, Outcome::Success, &mut list);
        let r = scheduler::report(q.state, 0, e[1], tickets + 1, Outcome::Success, &mut list);
        let t = scheduler::report(r.state, 0, e[0], tickets, Outcome::Success, &mut list);
        for a in [p.answer, q.answer, r.answer, t.answer] {
            good = count(good, a.is_ok());
        }
        s = if k == 0 { out.state } else { t.state };
    }
    good
}

// Picks, each reported as a success. After 216 nothing more is eligible: from the scene again.
pub fn turn(rounds: u32) -> u32 {
    let scene = scene::whole();
    let mut s = scene;
    let mut list = [0; 512];
    let mut good = 0;
    for left in (0..rounds).rev() {
        let p = scheduler::pick(s, 0);
        let (entry, ticket) = entry_of(p.answer);
        let r = scheduler::report(p.state, 0, entry, ticket, Outcome::Success, &mut list);
        good = count(good, r.answer.is_ok());
        s = if left % 216 == 0 { scene } else { r.state };
    }
    good
}

// A job of 4 entries on the last transport, of a scene that has room for it.
pub fn job(rounds: u32) -> u32 {
    let scene = scene::with_room();
    let mut list = [0; 32];
    let mut good = 0;
    for _ in 0..rounds {
        let r = scheduler::take_job(scene, 0, 3, &[24, 28, 25, 29], &mut list);
        good = count(good, matches!(r.answer, Ok(a) if a.job.is_some()));
    }
    good
}

// Asking about each job in turn.
pub fn ask(rounds: u32) -> u32 {
    let scene = scene::whole();
    let mut good = 0;
    for left in (0..rounds).rev() {
        good = count(good, scheduler::ask(scene, u64::from(left % 32)).is_ok());
    }
    good
}

// The board text.
pub fn board(rounds: u32) -> u32 {
    let scene = scene::whole();
    let mut text = [0; 1024];
    let mut good = 0;
    for _ in 0..rounds {
        good = count(good, scheduler::board(scene, &mut text).is_ok());
    }
    good
}

// The board text of the scene, into a buffer; its length.
pub fn scene_text(text: &mut [u8]) -> usize
    ensures { result ≤ length text.new }
{
    match scheduler::board(scene::whole(), text) {
        Ok(n) if n <= text.len() as u64 => n as usize,
        _ => 0,
    }
}
