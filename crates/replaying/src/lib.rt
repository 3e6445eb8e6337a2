// The replay of a journal (A1): its records, one after another, through the scheduler from one set-up.
#![tactic(auto)]

ghost use Rattle.std.specs.Prelude.{◌+◌, ◌*◌, ◌≤◌, ◌≡◌, length, take};
ghost use Rattle.rules.specs.Setup.{fresh_state};
ghost use Rattle.rules.specs.Answers.{refusal_number};
ghost use Rattle.rules.specs.History.{state_after};
ghost use Rattle.lines.specs.Texts.{Put};
ghost use Rattle.journal.specs.Records.{refused};
ghost use Rattle.journal.specs.Journals.{journal_of};
ghost use Rattle.journal.specs.Replays.{count_used, calls_used};
ghost use Rattle.replaying.specs.Replay.{BoardFits, replay_setup, close_line, played_text, end_text, replay_text};

use journal::Unreadable;
use lines::answer;
use lines::text::at_most;
use playing::play;
use playing::printing::put_line;
use reader::read_at;
use rules::{Feedback, Settings, Setup, State};

// How many records were used, and how many bytes of text stand in the lent buffer.
#[derive(Drop)]
pub struct Replayed {
    pub used: u64,
    pub length: usize,
}

// Replays at most `budget` records of a journal, and puts what that prints at the start of `out`. What would stand past
// the buffer's end is left out; five bytes for each of the journal and 4,096 more hold every text.
pub fn replay(journal: &[u8], budget: u64, out: &mut [u8]) -> Replayed
    ensures used { result.used ≡ count_used (journal_of journal.now) budget }
    ensures text { Put (replay_text (journal_of journal.now) budget) out.old 0 out.new result.length }
    ensures whole { 5 * length journal.now + 4096 ≤ length out.old
        → take result.length out.new ≡ replay_text (journal_of journal.now) budget }
{
    let r = scheduler::set_up(setup());
    let p = play_all(r.state, journal, budget, out);
    let length = put_end(out, p.length, p.used, p.state);
    Replayed {
        used: p.used,
        length,
    }
}

// The set-up that every replay starts from: docs/REPLAY.md.
fn setup() -> Setup
    ensures { result ≡ replay_setup }
{
    let per_window = Feedback {
        percent: 100,
        form: 1,
    };
    let settings = Settings {
        agents: 20,
        cost: 5,
        loan: 3,
        discount: 50,
        minimum: 3,
        limit: 20,
        initial: 5,
        positive: per_window,
        negative: per_window,
        cohortlimit: 1,
        suspension: 300,
    };
    Setup {
        transports: 4,
        settings: [settings; 4],
        destinations: 32,
        home: [
            0, 0, 0, 0, 0, 0, 0, 0, 1, 1, 1, 1, 1, 1, 1, 1, 2, 2, 2, 2, 2, 2, 2, 2, 3, 3, 3, 3, 3,
            3, 3, 3,
        ],
    }
}

// Where a replay stands: the state, how many records are used, and how many bytes are put.
#[derive(Drop)]
struct Standing {
    state: State,
    used: u64,
    length: usize,
}

// The records, one after another, each with the state that the one before left.
fn play_all(start: State, journal: &[u8], budget: u64, out: &mut [u8]) -> Standing
    requires { start ≡ fresh_state replay_setup }
    ensures state { result.state ≡ state_after replay_setup (calls_used (journal_of journal.now) budget) }
    ensures used { result.used ≡ count_used (journal_of journal.now) budget }
    ensures text { Put (played_text (journal_of journal.now) budget) out.old 0 out.new result.length }
{
    let mut state = start;
    let mut at = 0;
    let mut length = 0;
    for used in 0..budget {
        let r = read_at(journal, at);
        match r.answer {
            Err(unreadable) => {
                let n = put_refused(out, length, unreadable);
                return stand(state, used, n);
            }
            Ok(found) => match found {
                None => return stand(state, used, length),
                Some(whole) => {
                    let p = play(state, whole.what, &r.destinations, out, length);
                    length = p.length;
                    state = p.state;
                    at = whole.next;
                }
            },
        }
    }
    stand(state, budget, length)
}

fn stand(state: State, used: u64, length: usize) -> Standing
    ensures { (result.state ≡ state) × (result.used ≡ used) × (result.length ≡ length) }
{
    Standing {
        state,
        used,
        length,
    }
}

// A refused record: its number and its offset.
fn put_refused(out: &mut [u8], at: usize, u: Unreadable) -> usize
    ensures { Put (close_line (refused (refusal_number u.refusal) u.offset)) out.old at out.new result }
{
    let p = answer::put_decimal(out, at, u64::from(u.refusal.number()));
    let q = answer::put_number(out, p, u.offset as u64);
    answer::put_byte(out, q, b'\n')
}

// The end: how many records were used, and the board text.
fn put_end(out: &mut [u8], at: usize, used: u64, s: State) -> usize
    requires { BoardFits s }
    ensures { Put (end_text used s) out.old at out.new result }
{
    let mut space = [0u8; 4096];
    let p = put_line(out, at, used);
    match scheduler::board(s, &mut space) {
        Err(_) => p,
        Ok(n) => answer::put(out, p, &space[..at_most(n, 4096)]),
    }
}
