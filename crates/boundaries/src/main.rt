// Runs the cases of its standard input, a line each, and writes each line with what came out of it. The lines:
//
//     setup, job, pick, report, ask, board    a call, as the console reads it. A job's destinations are repeated until
//                                             they are as many as its count says. Each place of the lent list holds
//                                             999 before a call, and each byte of the lent text a '.'
//     N CALL                                  the call N times; the answer is the last one's
//     list A B                                the lent list after the last call, from A up to before B
//     text A B                                the lent text likewise, with each byte 10 shown as '|'
//     bytes A B                               the lent text as numbers
//     bits                                    for each field of the state, all its numbers joined by `|`
//                                             (cases/src/bits.rt)
//     look NOW T Y M                          how many jobs the search for who preempts the current job Y of transport T,
//                                             which can pay for M entries, looks at, and the best candidate, counted
//                                             from 1 (searched.rt)
//     sequence NOW N                          N deliveries, each picked and then reported as a success: their jobs,
//                                             counted from 1
//     keep                                    keeps the state
//     back                                    goes back to the kept state
//     set FIELD ..                            changes a field of the state (cases/src/change.rt)
//     broken FIELD ..                         changes a field of a copy, and asks about its job 0
//     range FIELD ..                          changes a field of the set-up, and sets up with it; the state stays
//
// Empty lines and lines that begin with '#' are written as they are.
#![tactic(auto)]

mod searched;

ghost use Rattle.std.specs.Prelude.{◌*◌, ◌≤◌, length};

use cases::reading::{Asked, Repeat};
use cases::{bits, change, lent, reading};
use lines::answer::Reply;
use lines::{answer, input, text};
use rules::{Outcome, PickAnswer, State};
use std::io;
use std::io::{Read, Write};

// The state, and the one that was kept.
#[derive(Drop)]
struct Desk {
    state: State,
    kept: State,
}

fn main(rt: HostRuntime) -> io::Result<()> {
    let mut cases = [0; 65536];
    // the most numbers that a line of so many bytes holds
    let mut words = [0; 32768];
    // longer than a report needs
    let mut list = [0; 600];
    let mut written = [0; 4096];
    let mut out = [0; 8192];
    run(
        &mut rt.reader(),
        &mut io::writer(&rt),
        &mut cases,
        &mut words,
        &mut list,
        &mut written,
        &mut out,
    )
}

fn run<R: Read, W: Write>(
    from: &mut R,
    to: &mut W,
    cases: &mut [u8],
    words: &mut [u64],
    list: &mut [u16],
    written: &mut [u8],
    out: &mut [u8],
) -> io::Result<()>
    requires { length cases.old ≤ 2 * length words.old }
{
    let n = input::read_whole(from, cases)?;
    let zeros = startup::zero();
    let mut desk = Desk {
        state: zeros,
        kept: zeros,
    };
    let mut at = 0;
    while at < n {
        let end = text::find(cases, at, n, b'\n');
        desk = step(to, &cases[at..end], words, list, written, out, desk)?;
        at = end + 1;
    }
    Ok(())
}

// Writes a line, does what it says, and writes what came out. Each way returns by itself: where they meet, both states are copied once more.
fn step<W: Write>(
    to: &mut W,
    line: &[u8],
    words: &mut [u64],
    list: &mut [u16],
    written: &mut [u8],
    out: &mut [u8],
    desk: Desk,
) -> io::Result<Desk>
    requires { length line.now ≤ 2 * length words.old }
{
    to.write_all(line)?;
    match line {
        b"keep" => {
            write_answer(to, out, 0)?;
            return Ok(Desk {
                state: desk.state,
                kept: desk.state,
            });
        }
        b"back" => {
            write_answer(to, out, 0)?;
            return Ok(Desk {
                state: desk.kept,
                kept: desk.kept,
            });
        }
        _ => {}
    }
    let Repeat { count, start } = reading::read_repeat(line);
    let r = times(count, &line[start..], words, list, written, out, desk.state);
    write_answer(to, out, r.length)?;
    Ok(Desk {
        state: r.state,
        kept: desk.kept,
    })
}

// An answer of n bytes, its line end among them; a line end where there is none.
fn write_answer<W: Write>(to: &mut W, out: &[u8], n: usize) -> io::Result<()> {
    if n == 0 {
        return to.write_all(b"\n");
    }
    to.write_all(b" -> ")?;
    answer::write(to, out, n)
}

fn times(
    count: u64,
    line: &[u8],
    words: &mut [u64],
    list: &mut [u16],
    written: &mut [u8],
    out: &mut [u8],
    state: State,
) -> Reply
    requires { length line.now ≤ 2 * length words.old }
{
    let mut r = Reply { state, length: 0 };
    for _ in 0..count {
        r = once(line, words, list, written, out, r.state);
    }
    r
}

fn once(
    line: &[u8],
    words: &mut [u64],
    list: &mut [u16],
    written: &mut [u8],
    out: &mut [u8],
    state: State,
) -> Reply
    requires { length line.now ≤ 2 * length words.old }
{
    let end = text::find(line, 0, line.len(), b' ');
    let (name, rest) = line.split_at(end);
    let asked = reading::what_is(name);
    if matches!(asked, Asked::Set | Asked::Broken | Asked::Range) {
        return changing(asked, rest, words, out, state);
    }
    let Some(k) = text::read_numbers(rest, 0, words) else {
        return malformed(out, state);
    };
    if !reading::fits(asked, k) {
        return malformed(out, state);
    }
    if asked == Asked::Call {
        return calling(name, k, words, list, written, out, state);
    }
    if asked == Asked::Sequence {
        return sequence(text::word(words, 0), text::word(words, 1), list, out, state);
    }
    Reply {
        state,
        length: looking(asked, words, list, written, out, state),
    }
}

fn malformed(out: &mut [u8], state: State) -> Reply {
    Reply {
        state,
        length: answer::malformed(out),
    }
}

// What is looked at: in a lent buffer, in the search for who preempts, or in the state.
fn looking(
    asked: Asked,
    words: &[u64],
    list: &[u16],
    written: &[u8],
    out: &mut [u8],
    s: State,
) -> usize {
    let a = text::word(words, 0);
    let b = text::word(words, 1);
    match asked {
        Asked::List => lent::put_places(out, list, a, b),
        Asked::Text => lent::put_text(out, written, a, b),
        Asked::Bytes => lent::put_bytes(out, written, a, b),
        Asked::Look => searched::put_search(
            out,
            s,
            a,
            b,
            text::word(words, 2),
            text::word(words, 3),
        ),
        _ => bits::put_bits(out, s),
    }
}

// One of the six calls, with the first k words.
fn calling(
    name: &[u8],
    k: usize,
    words: &mut [u64],
    list: &mut [u16],
    written: &mut [u8],
    out: &mut [u8],
    s: State,
) -> Reply
    requires { k ≤ length words.old }
{
    let m = lent::spread(name, words, k);
    lent::fill(list, written);
    calling::call(name, &words[..m], list, written, out, s)
}

// What stands behind the name: a field and its numbers.
fn changing(asked: Asked, rest: &[u8], words: &mut [u64], out: &mut [u8], state: State) -> Reply
    requires { length rest.now ≤ 2 * length words.old }
{
    let from = text::skip_blanks(rest, 0);
    let to = text::find(rest, from, rest.len(), b' ');
    let Some(k) = text::read_numbers(rest, to, words) else {
        return malformed(out, state);
    };
    let Some(next) = change::changed(&rest[from..to], &words[..k], state) else {
        return malformed(out, state);
    };
    match asked {
        Asked::Set => Reply {
            state: next,
            length: 0,
        },
        Asked::Broken => Reply {
            state,
            length: answer::ask(out, scheduler::ask(next, 0)),
        },
        _ => Reply {
            state,
            length: calling::start(next.setup, out).length,
        },
    }
}

// Stops early where nothing is picked.
fn sequence(now: u64, count: u64, list: &mut [u16], out: &mut [u8], mut state: State) -> Reply {
    let mut at = 0;
    for _ in 0..count {
        let picked = scheduler::pick(state, now);
        state = picked.state;
        let Ok(
            Some(
                PickAnswer {
                    job,
                    entry,
                    ticket,
                    ..
                },
            ),
        ) = picked.answer
        else {
            break;
        };
        at = answer::put_decimal(out, at, u64::from(job) + 1);
        let reported = scheduler::report(
            state,
            now,
            u64::from(entry),
            u64::from(ticket),
            Outcome::Success,
            list,
        );
        state = reported.state;
    }
    Reply {
        state,
        length: answer::put_byte(out, at, b'\n'),
    }
}
