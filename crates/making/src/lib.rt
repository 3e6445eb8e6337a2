// One call of `run`, read from its numbers and made.
#![tactic(auto)]

ghost use Rattle.std.specs.Prelude.{◌+◌, ◌≤◌, ◌≡◌, [], length, take, drop};
ghost use Rattle.rules.specs.Calls.{job_reply, pick_reply, report_reply, ask_reply, board_reply};
ghost use Rattle.layout.specs.Layout.{row_length, word, call_of};
ghost use Rattle.making.specs.Making.{Made, Lent, Answered};

use layout::rows::{put_job, put_number, put_pick, put_report};
use rules::{Outcome, State};

// Each of these makes a call of one kind with its numbers, writes its answer, and hands on the state that it left.

fn make_job(s: State, words: &[u64], row: &mut [u64], list: &mut [u16]) -> State
    requires { (length row.old ≡ row_length) × (5 + word words.now 4 ≤ length words.now) }
    ensures { Made (job_reply s (word words.now 1) (word words.now 2)
        (take (word words.now 4) (drop 5 words.now)) list.old) result row.new list.new }
{
    let end = 5 + (words[4] as usize);
    let taken = taking::take_job(s, words[1], words[2], &words[5..end], list);
    put_job(row, taken.answer);
    taken.state
}

fn make_pick(s: State, now: u64, row: &mut [u64]) -> State
    requires { length row.old ≡ row_length }
    ensures { Made (pick_reply s now) result row.new [] }
{
    let picked = picking::pick(s, now);
    put_pick(row, picked.answer);
    picked.state
}

fn make_report(
    s: State,
    words: &[u64],
    outcome: Outcome,
    row: &mut [u64],
    list: &mut [u16],
) -> State
    requires { (length row.old ≡ row_length) × (5 ≤ length words.now) }
    ensures { Made (report_reply s (word words.now 1) (word words.now 2) (word words.now 3) outcome list.old)
        result row.new list.new }
{
    let reported = reporting::report(s, words[1], words[2], words[3], outcome, list);
    put_report(row, reported.answer);
    reported.state
}

fn make_ask(s: State, job: u64, row: &mut [u64])
    requires { length row.old ≡ row_length }
    ensures { Made (ask_reply s job) s row.new [] }
{
    // by `map`, what the closure gives is not found by the proof
    match asking::ask(s, job) {
        Ok(sum) => put_number(row, Ok(sum as u64)),
        Err(refusal) => put_number(row, Err(refusal)),
    }
}

fn make_board(s: State, row: &mut [u64], text: &mut [u8])
    requires { length row.old ≡ row_length }
    ensures { Made (board_reply s text.old) s row.new text.new }
{
    put_number(row, asking::board(s, text));
}

// Makes the call at the front of these numbers.
pub fn make(s: State, words: &[u64], row: &mut [u64], list: &mut [u16], text: &mut [u8]) -> State
    requires { Lent words.now row.old list.old text.old }
    ensures { Answered s (call_of words.now list.old text.old) result row.new list.new text.new }
{
    match words[0] {
        1 => make_job(s, words, row, list),
        2 => make_pick(s, words[1], row),
        3 => make_report(s, words, Outcome::Success, row, list),
        4 => make_report(s, words, Outcome::Failure, row, list),
        5 => {
            make_ask(s, words[1], row);
            s
        }
        _ => {
            make_board(s, row, text);
            s
        }
    }
}
