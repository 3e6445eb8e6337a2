// One line, read as a call and made. A line that is no call leaves the state as it is.
#![tactic(auto)]

ghost use Rattle.std.specs.Prelude.{◌*◌, ◌≤◌, ◌≡◌, length};
ghost use Rattle.rules.specs.Calls.{setup_reply};
ghost use Rattle.lines.specs.Texts.{Put, malformed_text};
ghost use Rattle.calling.specs.Meaning.{setup_line, job_line, pick_line, report_line, ask_line, board_line, call_line, meaning_of, state_on};
ghost use Rattle.calling.specs.Replies.{start_text, text_on};

use lines::answer::Reply;
use lines::text::find;
use lines::{answer, setups, text};
use rules::{Outcome, Setup, State};

// Makes the call of a line. Its numbers go to `words`, its answer to `out`; `list` and `written` are what it may lend.
// An empty line and one that begins with '#' are no call, and have no answer. A number and the blank before it are two
// bytes or more, so half as many places as bytes are enough.
pub fn answer_line(
    line: &[u8],
    words: &mut [u64],
    list: &mut [u16],
    written: &mut [u8],
    out: &mut [u8],
    s: State,
) -> Reply
    requires { length line.now ≤ 2 * length words.old }
    ensures state { result.state ≡ state_on s (meaning_of line.now list.old written.old) }
    ensures text { Put (text_on s (meaning_of line.now list.old written.old))
        out.old 0 out.new result.length }
{
    let at = text::skip_blanks(line, 0);
    if line.len() <= at || line[0] == b'#' {
        return Reply {
            state: s,
            length: 0,
        };
    }
    let end = find(line, at, line.len(), b' ');
    let Some(k) = text::read_numbers(line, end, words) else {
        return malformed(out, s);
    };
    call(&line[at..end], &words[..k], list, written, out, s)
}

fn malformed(out: &mut [u8], s: State) -> Reply
    ensures state { result.state ≡ s }
    ensures text { Put malformed_text out.old 0 out.new result.length }
{
    Reply {
        state: s,
        length: answer::malformed(out),
    }
}

// Makes the call of that name with these numbers.
pub fn call(
    name: &[u8],
    words: &[u64],
    list: &mut [u16],
    written: &mut [u8],
    out: &mut [u8],
    s: State,
) -> Reply
    ensures state { result.state ≡ state_on s (call_line name.now words.now list.old written.old) }
    ensures text { Put (text_on s (call_line name.now words.now list.old written.old)) out.old 0 out.new result.length }
{
    // a match of the byte strings leaves default cases that an answer has no names for
    if name == b"setup".as_slice() {
        return set_up(words, out, s);
    }
    if name == b"job".as_slice() {
        return take_job(words, list, out, s);
    }
    if name == b"pick".as_slice() {
        return pick(words, out, s);
    }
    if name == b"report".as_slice() {
        return report(words, list, out, s);
    }
    if name == b"ask".as_slice() {
        return ask(words, out, s);
    }
    if name == b"board".as_slice() {
        return board(words, written, out, s);
    }
    malformed(out, s)
}

fn set_up(words: &[u64], out: &mut [u8], s: State) -> Reply
    ensures state { result.state ≡ state_on s (setup_line words.now) }
    ensures text { Put (text_on s (setup_line words.now)) out.old 0 out.new result.length }
{
    match setups::count_place(words) {
        Some(at) => start(setups::setup_of(words, at), out),
        None => malformed(out, s),
    }
}

// The set-up itself.
pub fn start(u: Setup, out: &mut [u8]) -> Reply
    ensures state { result.state ≡ (setup_reply u).state }
    ensures text { Put (start_text u) out.old 0 out.new result.length }
{
    let r = scheduler::set_up(u);
    Reply {
        state: r.state,
        length: answer::setup(out, r.answer),
    }
}

fn take_job(words: &[u64], list: &mut [u16], out: &mut [u8], s: State) -> Reply
    ensures state { result.state ≡ state_on s (job_line words.now list.old) }
    ensures text { Put (text_on s (job_line words.now list.old)) out.old 0 out.new result.length }
{
    let [clock, transport, places, count, destinations @ ..] = words else {
        return malformed(out, s);
    };
    if *count != destinations.len() as u64 {
        return malformed(out, s);
    }
    let lent = text::at_most(*places, list.len());
    let r = scheduler::take_job(s, *clock, *transport, destinations, &mut list[..lent]);
    Reply {
        state: r.state,
        length: answer::job(out, r.answer, list),
    }
}

fn pick(words: &[u64], out: &mut [u8], s: State) -> Reply
    ensures state { result.state ≡ state_on s (pick_line words.now) }
    ensures text { Put (text_on s (pick_line words.now)) out.old 0 out.new result.length }
{
    if words.len() != 1 {
        return malformed(out, s);
    }
    let r = scheduler::pick(s, words[0]);
    Reply {
        state: r.state,
        length: answer::pick(out, r.answer),
    }
}

fn report(words: &[u64], list: &mut [u16], out: &mut [u8], s: State) -> Reply
    ensures state { result.state ≡ state_on s (report_line words.now list.old) }
    ensures text { Put (text_on s (report_line words.now list.old)) out.old 0 out.new result.length }
{
    if words.len() != 5 {
        return malformed(out, s);
    }
    let Ok(outcome) = Outcome::try_from(words[3]) else {
        return malformed(out, s);
    };
    let lent = text::at_most(words[4], list.len());
    let r = scheduler::report(s, words[0], words[1], words[2], outcome, &mut list[..lent]);
    Reply {
        state: r.state,
        length: answer::report(out, r.answer, list),
    }
}

fn ask(words: &[u64], out: &mut [u8], s: State) -> Reply
    ensures state { result.state ≡ state_on s (ask_line words.now) }
    ensures text { Put (text_on s (ask_line words.now)) out.old 0 out.new result.length }
{
    if words.len() != 1 {
        return malformed(out, s);
    }
    Reply {
        state: s,
        length: answer::ask(out, scheduler::ask(s, words[0])),
    }
}

fn board(words: &[u64], written: &mut [u8], out: &mut [u8], s: State) -> Reply
    ensures state { result.state ≡ state_on s (board_line words.now written.old) }
    ensures text { Put (text_on s (board_line words.now written.old)) out.old 0 out.new result.length }
{
    if words.len() != 1 {
        return malformed(out, s);
    }
    let lent = text::at_most(words[0], written.len());
    let a = scheduler::board(s, &mut written[..lent]);
    Reply {
        state: s,
        length: answer::board(out, a, written),
    }
}
