// One line of answer, put together at the start of a buffer. Each of these answers how many bytes it has; what would
// stand past the buffer's end is left out.
ghost use Rattle.std.specs.Prelude.{◌≡◌, [], ◌∷◌, ◌++◌, map, take};
ghost use Rattle.rules.specs.Windows.{move_number};
ghost use Rattle.rules.specs.Board.{decimal, blank, line_end, numbered};
ghost use Rattle.rules.specs.Answers.{refusal_number};
ghost use Rattle.lines.specs.Names.{job_name, pick_name, report_name, board_name, nojob_name};
ghost use Rattle.lines.specs.Texts.{Put, counted, shown_byte, move_word, malformed_text, refused_text, setup_text, job_text, pick_text, report_text, ask_text, board_answer_text};

use crate::text;
use rules::{JobAnswer, Move, PickAnswer, Refusal, ReportAnswer, State};
use std::io;
use std::io::Write;

// What a call hands back: the state, and where its answer ends in the buffer.
#[derive(Clone, Copy)]
pub struct Reply {
    pub state: State,
    pub length: usize,
}

pub fn malformed(out: &mut [u8]) -> usize
    ensures { Put malformed_text out.old 0 out.new result }
{
    put(out, 0, b"malformed\n")
}

pub fn setup(out: &mut [u8], a: Result<(), Refusal>) -> usize
    ensures { Put (setup_text a) out.old 0 out.new result }
{
    match a {
        Err(refusal) => refused(out, refusal),
        Ok(()) => put(out, 0, b"setup\n"),
    }
}

pub fn job(out: &mut [u8], a: Result<JobAnswer, Refusal>, list: &[u16]) -> usize
    ensures { Put (job_text a list.now) out.old 0 out.new result }
{
    match a {
        Err(refusal) => refused(out, refusal),
        Ok(a) => match a.job {
            Some(job) => taken(out, job, a.putoff, list),
            None => put_off(out, a.putoff, list),
        },
    }
}

pub fn pick(out: &mut [u8], a: Result<Option<PickAnswer>, Refusal>) -> usize
    ensures { Put (pick_text a) out.old 0 out.new result }
{
    match a {
        Err(refusal) => refused(out, refusal),
        Ok(found) => match found {
            Some(a) => picked(out, a),
            None => put(out, 0, b"nopick 0\n"),
        },
    }
}

pub fn report(out: &mut [u8], a: Result<ReportAnswer, Refusal>, list: &[u16]) -> usize
    ensures { Put (report_text a list.now) out.old 0 out.new result }
{
    match a {
        Err(refusal) => refused(out, refusal),
        Ok(a) => reported(out, a, list),
    }
}

pub fn ask(out: &mut [u8], a: Result<u32, Refusal>) -> usize
    ensures { Put (ask_text a) out.old 0 out.new result }
{
    match a {
        Err(refusal) => refused(out, refusal),
        Ok(sum) => numbered(out, b"ask", u64::from(sum)),
    }
}

pub fn board(out: &mut [u8], a: Result<u64, Refusal>, written: &[u8]) -> usize
    ensures { Put (board_answer_text a written.now) out.old 0 out.new result }
{
    match a {
        Err(refusal) => refused(out, refusal),
        Ok(n) => shown_text(out, n, written),
    }
}

fn refused(out: &mut [u8], refusal: Refusal) -> usize
    ensures { Put (refused_text (refusal_number refusal)) out.old 0 out.new result }
{
    numbered(out, b"refused", u64::from(refusal.number()))
}

fn numbered(out: &mut [u8], word: &[u8], x: u64) -> usize
    ensures { Put (word.now ++ numbered x ++ line_end) out.old 0 out.new result }
{
    let at = put(out, 0, word);
    let at = put_number(out, at, x);
    put_byte(out, at, b'\n')
}

// The job's number, how many were put off, and so many places of the list.
fn taken(out: &mut [u8], job: u8, putoff: u16, list: &[u16]) -> usize
    ensures { Put (job_name ++ numbered job ++ counted putoff list.now ++ line_end) out.old 0 out.new result }
{
    let at = put(out, 0, b"job");
    let at = put_number(out, at, u64::from(job));
    let at = put_list(out, at, putoff, list);
    put_byte(out, at, b'\n')
}

// All were put off: how many, and so many places of the list.
fn put_off(out: &mut [u8], putoff: u16, list: &[u16]) -> usize
    ensures { Put (nojob_name ++ counted putoff list.now ++ line_end) out.old 0 out.new result }
{
    let at = put(out, 0, b"nojob");
    let at = put_list(out, at, putoff, list);
    put_byte(out, at, b'\n')
}

// How many were put off, so many places of the list, and why the number moved.
fn reported(out: &mut [u8], a: ReportAnswer, list: &[u16]) -> usize
    ensures { Put (report_name ++ counted a.putoff list.now ++ blank ++ move_word (move_number a.moved) ++ line_end) out.old 0 out.new result }
{
    let at = put(out, 0, b"report");
    let at = put_list(out, at, a.putoff, list);
    let at = put_byte(out, at, b' ');
    let at = put_move(out, at, a.moved);
    put_byte(out, at, b'\n')
}

fn picked(out: &mut [u8], a: PickAnswer) -> usize
    ensures { Put (pick_name ++ numbered a.job ++ numbered a.entry ++ numbered a.ticket ++ numbered a.passed ++ line_end) out.old 0 out.new result }
{
    let at = put(out, 0, b"pick");
    let at = put_number(out, at, u64::from(a.job));
    let at = put_number(out, at, u64::from(a.entry));
    let at = put_number(out, at, u64::from(a.ticket));
    let at = put_number(out, at, u64::from(a.passed));
    put_byte(out, at, b'\n')
}

// The text's first n bytes, with each line end shown as '|'.
fn shown_text(out: &mut [u8], n: u64, written: &[u8]) -> usize
    ensures { Put (board_name ++ numbered n ++ blank ++ map shown_byte (take n written.now) ++ line_end) out.old 0 out.new result }
{
    let at = put(out, 0, b"board");
    let at = put_number(out, at, n);
    let at = put_byte(out, at, b' ');
    let at = put_text(out, at, n, written);
    put_byte(out, at, b'\n')
}

// Writes the first n bytes.
pub fn write<W: Write>(to: &mut W, out: &[u8], n: usize) -> io::Result<()> {
    if n <= out.len() {
        to.write_all(&out[..n])?;
    }
    Ok(())
}

// Each of these puts something at a place and answers the next place. What would stand past the end is left out.

pub fn put_byte(out: &mut [u8], at: usize, b: u8) -> usize
    ensures { Put (b ∷ []) out.old at out.new result }
{
    if at < out.len() {
        out[at] = b;
        return at + 1;
    }
    at
}

pub fn put(out: &mut [u8], at: usize, word: &[u8]) -> usize
    ensures { Put word.now out.old at out.new result }
{
    if out.len() <= at {
        return at;
    }
    let n = word.len().min(out.len() - at);
    out[at..at + n].copy_from_slice(&word[..n]);
    at + n
}

pub fn put_decimal(out: &mut [u8], at: usize, x: u64) -> usize
    ensures { Put (decimal x) out.old at out.new result }
{
    let mut digits = [0u8; 20];
    let k = writing::put_number(b"", x, &mut digits);
    put(out, at, &digits[..k])
}

// A blank and a number.
pub fn put_number(out: &mut [u8], at: usize, x: u64) -> usize
    ensures { Put (numbered x) out.old at out.new result }
{
    let p = put_byte(out, at, b' ');
    put_decimal(out, p, x)
}

// How many, then that many places of the list.
fn put_list(out: &mut [u8], at: usize, n: u16, list: &[u16]) -> usize
    ensures { Put (counted n list.now) out.old at out.new result }
{
    let mut p = put_number(out, at, u64::from(n));
    for &x in &list[..list.len().min(usize::from(n))] {
        p = put_number(out, p, u64::from(x));
    }
    p
}

// The word of why the number moved.
pub fn put_move(out: &mut [u8], at: usize, m: Move) -> usize
    ensures { Put (move_word (move_number m)) out.old at out.new result }
{
    match m {
        Move::Unchanged => put(out, at, b"unchanged"),
        Move::Raised => put(out, at, b"raised"),
        Move::Lowered => put(out, at, b"lowered"),
        Move::Dead => put(out, at, b"dead"),
        Move::Revived => put(out, at, b"revived"),
    }
}

pub fn put_text(out: &mut [u8], at: usize, n: u64, written: &[u8]) -> usize
    ensures { Put (map shown_byte (take n written.now)) out.old at out.new result }
{
    let mut p = at;
    for &b in &written[..text::at_most(n, written.len())] {
        p = put_byte(out, p, shown(b));
    }
    p
}

// A line end shown as a '|'.
pub fn shown(b: u8) -> u8
    ensures { result ≡ shown_byte b }
{
    if b == b'\n' { b'|' } else { b }
}
