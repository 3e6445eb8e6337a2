// Runs lists of calls through `scheduler::run`, and shows what it wrote. The lines of its standard input:
//
//     setup N N ..    a set-up, as the console reads it
//     N N ..          a call, as docs/RUN.md lays it out
//     run A L T       runs the calls since the last run, with A places for answers, L for lists and T bytes for texts;
//                     each place holds 999 before, each byte a '.'
//
// Empty lines and lines that begin with '#' are passed over.
#![tactic(auto)]

ghost use Rattle.std.specs.Prelude.{◌+◌, ◌*◌, ◌≤◌, length};

use lines::text::find;
use lines::{answer, input, setups, text};
use rules::Setup;
use scheduler::{ROW, RunEnd};
use std::io;
use std::io::{Read, Write};

// The set-up, and how many numbers of calls there are.
#[derive(Clone, Copy)]
struct Desk {
    setup: Setup,
    count: usize,
}

fn main(rt: HostRuntime) -> io::Result<()> {
    let mut cases_space = [0u8; 16384];
    let cases: &mut [u8] = &mut cases_space;
    // the most numbers that a line of so many bytes holds
    let mut words_space = [0u64; 8192];
    let words: &mut [u64] = &mut words_space;
    let mut calls_space = [0u64; 1024];
    let list: &mut [u64] = &mut calls_space;
    let mut out_space = [0u8; 1024];
    let out: &mut [u8] = &mut out_space;
    let mut from = rt.reader();
    let mut to = io::writer(&rt);
    read_lines(&mut from, &mut to, cases, words, list, out)
}

fn read_lines<R: Read, W: Write>(
    from: &mut R,
    to: &mut W,
    cases: &mut [u8],
    words: &mut [u64],
    list: &mut [u64],
    out: &mut [u8],
) -> io::Result<()>
    requires { length cases.old ≤ 2 * length words.old }
{
    let n = input::read_whole(from, cases)?;
    let mut desk = Desk {
        setup: startup::zero_setup(),
        count: 0,
    };
    let mut at = 0;
    while at < n {
        let end = find(cases, at, n, b'\n');
        desk = step(to, &cases[at..end], words, list, out, desk)?;
        at = end + 1;
    }
    Ok(())
}

// Does what a line says.
fn step<W: Write>(
    to: &mut W,
    line: &[u8],
    words: &mut [u64],
    list: &mut [u64],
    out: &mut [u8],
    desk: Desk,
) -> io::Result<Desk>
    requires { length line.now ≤ 2 * length words.old }
{
    let at = text::skip_blanks(line, 0);
    if line.len() <= at || line[at] == b'#' {
        return Ok(desk);
    }
    let end = find(line, at, line.len(), b' ');
    match &line[at..end] {
        b"setup" => Ok(Desk {
            setup: read_setup(numbers(line, end, words)),
            count: 0,
        }),
        b"run" => {
            let rooms = numbers(line, end, words);
            let count = desk.count.min(list.len());
            run(to, desk.setup, &list[..count], rooms, out)?;
            Ok(Desk { count: 0, ..desk })
        }
        _ => Ok(Desk {
            count: append(numbers(line, at, words), list, desk.count),
            ..desk
        }),
    }
}

// The set-up of these numbers; one of all zeros, which is refused, where they are not as many as it announces.
fn read_setup(words: &[u64]) -> Setup {
    match setups::count_place(words) {
        Some(at) => setups::setup_of(words, at),
        None => startup::zero_setup(),
    }
}

// The numbers from a place on, at the start of the lent words; none where a word is no number.
fn numbers<'a>(line: &[u8], from: usize, words: &'a mut [u64]) -> &'a [u64]
    requires { (from ≤ length line.now) × (length line.now ≤ from + 2 * length words.old) }
{
    match text::read_numbers(line, from, words) {
        Some(k) => &words[..k],
        None => &[],
    }
}

// Puts the words behind the first `count` numbers of the list, as far as it has room, and answers how many it holds then.
fn append(words: &[u64], list: &mut [u64], count: usize) -> usize {
    let from = count.min(list.len());
    let n = words.len().min(list.len() - from);
    list[from..from + n].copy_from_slice(&words[..n]);
    from + n
}

// Runs the calls, and writes each answer, each place of a list that was written, the texts, and the end.
fn run<W: Write>(
    to: &mut W,
    u: Setup,
    list: &[u64],
    rooms: &[u64],
    out: &mut [u8],
) -> io::Result<()> {
    let mut answers_space = [999u64; 512];
    let answers: &mut [u64] = &mut answers_space;
    let mut lists_space = [999u16; 8192];
    let lists: &mut [u16] = &mut lists_space;
    let mut texts_space = [46u8; 512];
    let texts: &mut [u8] = &mut texts_space;
    let a = text::at_most(text::word(rooms, 0), answers.len());
    let l = text::at_most(text::word(rooms, 1), lists.len());
    let t = text::at_most(text::word(rooms, 2), texts.len());
    let r = scheduler::run(u, list, &mut answers[..a], &mut lists[..l], &mut texts[..t]);
    show_answers(to, answers, out)?;
    show_lists(to, lists, out)?;
    show_texts(to, texts, t, out)?;
    show_end(to, r.calls, r.end, out)
}

// An answer a line, as far as they were written.
fn show_answers<W: Write>(to: &mut W, answers: &[u64], out: &mut [u8]) -> io::Result<()> {
    for (i, row) in answers.chunks_exact(ROW).enumerate() {
        if row[0] == 999 {
            return Ok(());
        }
        show_row(to, i as u64, row, out)?;
    }
    Ok(())
}

fn show_row<W: Write>(to: &mut W, i: u64, row: &[u64], out: &mut [u8]) -> io::Result<()> {
    let mut p = answer::put(out, 0, b"answer");
    p = answer::put_number(out, p, i);
    p = answer::put_byte(out, p, b':');
    for &x in row {
        p = answer::put_number(out, p, x);
    }
    p = answer::put_byte(out, p, b'\n');
    answer::write(to, out, p)
}

// Each place that was written, on a line.
fn show_lists<W: Write>(to: &mut W, lists: &[u16], out: &mut [u8]) -> io::Result<()> {
    for (i, &x) in lists.iter().enumerate() {
        if x != 999 {
            let p = answer::put(out, 0, b"list");
            let p = answer::put_number(out, p, i as u64);
            let p = answer::put_byte(out, p, b':');
            let p = answer::put_number(out, p, u64::from(x));
            let p = answer::put_byte(out, p, b'\n');
            answer::write(to, out, p)?;
        }
    }
    Ok(())
}

fn show_texts<W: Write>(to: &mut W, texts: &[u8], n: usize, out: &mut [u8]) -> io::Result<()> {
    let p = answer::put(out, 0, b"texts ");
    let p = answer::put_text(out, p, n as u64, texts);
    let p = answer::put_byte(out, p, b'\n');
    answer::write(to, out, p)
}

fn show_end<W: Write>(to: &mut W, made: u64, end: RunEnd, out: &mut [u8]) -> io::Result<()> {
    let p = answer::put(out, 0, b"ran");
    let p = answer::put_number(out, p, made);
    let p = put_end(out, p, end);
    let p = answer::put_byte(out, p, b'\n');
    answer::write(to, out, p)
}

fn put_end(out: &mut [u8], at: usize, end: RunEnd) -> usize {
    match end {
        RunEnd::Refused => answer::put(out, at, b" refused"),
        RunEnd::Whole => answer::put(out, at, b" whole"),
        RunEnd::Short => answer::put(out, at, b" short"),
        RunEnd::Unknown => answer::put(out, at, b" unknown"),
        RunEnd::NoRoom => answer::put(out, at, b" no room"),
    }
}
