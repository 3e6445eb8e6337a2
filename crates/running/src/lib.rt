// `run`: a list of calls, read from numbers and made one after another. The layout of the lists is the crate `layout`, and as a table docs/RUN.md.
#![tactic(auto)]

ghost use Rattle.std.specs.Prelude.{◌≡◌, ◌≤◌, ◌<◌};
ghost use Rattle.running.specs.WholeReply.{run_gave, ran_from, run_reply, calls_read, Demand3OfRun};

use layout::{end_before, list_places, size_of, text_places};
use making::make;
use rules::{Setup, State};

// How many places of `answers` an answer takes.
pub use layout::rows::ROW;

// Why a run ended.
pub use layout::RunEnd;

// How many calls were made, and why the run ended.
#[derive(Drop)]
pub struct RunAnswer {
    pub calls: u64,
    pub end: RunEnd,
}

// Makes call after call from a state, each with the state that the one before left.
fn run_from(
    start: State,
    calls: &[u64],
    answers: &mut [u64],
    lists: &mut [u16],
    texts: &mut [u8],
) -> RunAnswer
    ensures { run_gave result answers.new lists.new texts.new
        ≡ ran_from start (calls_read calls.now answers.old lists.old texts.old)
        answers.old lists.old texts.old }
{
    let mut state = start;
    let mut made: u64 = 0;
    // what is read of the calls, and what is used of the three slices
    let mut at: usize = 0;
    let mut row: usize = 0;
    let mut listed: usize = 0;
    let mut told: usize = 0;
    loop {
        let rest = &calls[at..];
        if let Some(end) = end_before(
            rest,
            answers.len() - row,
            lists.len() - listed,
            texts.len() - told,
        ) {
            return RunAnswer { calls: made, end };
        }
        let size = size_of(rest);
        let places = list_places(rest) as usize;
        let room = text_places(rest) as usize;
        state = make(
            state,
            rest,
            &mut answers[row..row + ROW],
            &mut lists[listed..listed + places],
            &mut texts[told..told + room],
        );
        made += 1;
        at += size;
        row += ROW;
        listed += places;
        told += room;
    }
}

// Runs a list of calls from a set-up, the six calls one after another, each with the state that the one
// before left. Each answer goes to the next `ROW` places of `answers`; each put-off list is lent as the next part of
// `lists`, each board's buffer as the next part of `texts`: docs/RUN.md. A refused set-up runs nothing. The contract
// has demand 3 in it.
pub fn run(
    u: Setup,
    calls: &[u64],
    answers: &mut [u64],
    lists: &mut [u16],
    texts: &mut [u8],
) -> RunAnswer
    ensures { (run_gave result answers.new lists.new texts.new
        ≡ run_reply u calls.now answers.old lists.old texts.old)
        × Demand3OfRun u (calls_read calls.now answers.old lists.old texts.old).calls }
{
    let fresh = startup::set_up(u);
    match fresh.answer {
        Err(_) => RunAnswer {
            calls: 0,
            end: RunEnd::Refused,
        },
        Ok(()) => run_from(fresh.state, calls, answers, lists, texts),
    }
}
