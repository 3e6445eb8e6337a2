// One record a line in, the journal's bytes out: docs/REPLAY.md, "Writing one". What a line says is written before the next line is waited for.
#![tactic(auto)]

ghost use Rattle.std.specs.Prelude.{◌≡◌, ◌+◌, ◌*◌, ◌≤◌, ◌<◌, length, take};
ghost use Rattle.record.specs.declared.Unwritten.{Unwritten};
ghost use Rattle.record.specs.Lines.{unblanked, name_line, job_line, pick_line, report_line, numbers_line, line_of, line_in, bytes_for, done_with, size_of, of_record, Done};

use lines::input::Part;
use lines::text::find;
use lines::{answer, input, text};
use rules::Refusal;
use std::error::Error;
use std::io::{Eprint, Read, Write};
use std::{fmt, io};

// Why nothing is written for a line: it says no record, or the writer refuses it.
#[derive(Clone, Copy, Debug, PartialEq, Eq)]
enum Unwritten {
    NoRecord,
    Refused(Refusal),
}

impl fmt::Display for Unwritten {
    fn fmt<W: fmt::Write>(&self, f: &mut fmt::Formatter<W>) -> fmt::Result {
        match self {
            Unwritten::NoRecord => write!(f, "no record"),
            Unwritten::Refused(refusal) => write!(f, "refused {refusal}"),
        }
    }
}

impl Error for Unwritten {}

impl From<Refusal> for Unwritten {
    ghost from_gives = { λ k u. u ≡ Unwritten.Refused k };

    fn from(refusal: Refusal) -> Unwritten {
        Unwritten::Refused(refusal)
    }
}

fn main(rt: HostRuntime) -> io::Result<()> {
    // the longest line and its end, and the most numbers that it holds
    let mut line_space = [0u8; 65537];
    let line: &mut [u8] = &mut line_space;
    let mut words_space = [0u64; 32768];
    let words: &mut [u64] = &mut words_space;
    let mut from = rt.reader();
    let mut to = io::writer(&rt);
    run(&mut from, &mut to, &rt, line, words)
}

// Line after line until the input ends, each with its number from 1.
fn run<R: Read, W: Write, E: Eprint>(
    from: &mut R,
    to: &mut W,
    errors: &E,
    line: &mut [u8],
    words: &mut [u64],
) -> io::Result<()>
    requires { (0 < length line.old) × (length line.old ≤ 2 * length words.old + 1) }
{
    let mut l = input::none();
    for before in 0..u64::MAX {
        l = input::next_line(from, line, l)?;
        record(to, errors, &line[l.start..l.end], words, l.part, before + 1)?;
        if l.over {
            return Ok(());
        }
    }
    Ok(())
}

// Writes what a line says, or tells of it on standard error.
fn record<W: Write, E: Eprint>(
    to: &mut W,
    errors: &E,
    line: &[u8],
    words: &mut [u64],
    part: Part,
    number: u64,
) -> io::Result<()>
    requires { length line.now ≤ 2 * length words.old }
{
    // room for every record: five groups for each of 260 numbers
    let mut out_space = [0u8; 1300];
    let out: &mut [u8] = &mut out_space;
    match written(line, words, part, out) {
        Ok(Some(n)) => answer::write(to, out, n),
        Ok(None) => Ok(()),
        Err(reason) => eprintln!(errors; "line {number}: {reason}"),
    }
}

// Puts the record of a line, or of the part of it that is there, at the front of a buffer with room for every record. The answer is how many
// bytes it has; none for an empty line or a comment.
fn written(
    line: &[u8],
    words: &mut [u64],
    part: Part,
    out: &mut [u8],
) -> Result<Option<usize>, Unwritten>
    requires { (length line.now ≤ 2 * length words.old) × (1300 ≤ length out.old) }
    ensures done { result ≡ done_with (line_in part line.now) }
    ensures bytes { take (size_of result) out.new ≡ bytes_for (line_in part line.now) }
{
    match part {
        Part::Whole => whole(line, words, out),
        Part::TooLong => Err(Unwritten::NoRecord),
        Part::TooLongComment => Ok(None),
    }
}

fn whole(line: &[u8], words: &mut [u64], out: &mut [u8]) -> Result<Option<usize>, Unwritten>
    requires { (length line.now ≤ 2 * length words.old) × (1300 ≤ length out.old) }
    ensures { Done (line_of line.now) result out.new }
{
    let at = text::skip_blanks(line, 0);
    if line.len() <= at {
        return Ok(None);
    }
    if line[0] == b'#' {
        return Ok(None);
    }
    let end = find(line, at, line.len(), b' ');
    if &line[at..end] == b"name".as_slice() {
        return Ok(Some(write_name(&line[end..], out)?));
    }
    let k = text::read_numbers(line, end, words).ok_or(Unwritten::NoRecord)?;
    Ok(Some(write_numbers(&line[at..end], &words[..k], out)?))
}

// What stands behind the word `name`.
fn write_name(line: &[u8], out: &mut [u8]) -> Result<usize, Unwritten>
    requires { 1300 ≤ length out.old }
    ensures { Done (name_line (unblanked line.now)) (of_record result) out.new }
{
    let n = line.len();
    let at = text::skip_blanks(line, 0);
    let end = find(line, at, n, b' ');
    if end == at {
        return Err(Unwritten::NoRecord);
    }
    if n <= end {
        return Err(Unwritten::NoRecord);
    }
    let d = text::read_number(&line[at..end]).ok_or(Unwritten::NoRecord)?;
    Ok(writer::write_name(out, 0, d, &line[end + 1..])?)
}

// The record of that word with these numbers.
fn write_numbers(word: &[u8], words: &[u64], out: &mut [u8]) -> Result<usize, Unwritten>
    requires { 1300 ≤ length out.old }
    ensures { Done (numbers_line word.now words.now) (of_record result) out.new }
{
    // as in `calling::call`, the names are compared: a match leaves default cases that an answer has no names for
    if word == b"job".as_slice() {
        return write_job(words, out);
    }
    if word == b"pick".as_slice() {
        return write_pick(words, out);
    }
    if word == b"report".as_slice() {
        return write_report(words, out);
    }
    Err(Unwritten::NoRecord)
}

fn write_job(words: &[u64], out: &mut [u8]) -> Result<usize, Unwritten>
    requires { 1300 ≤ length out.old }
    ensures { Done (job_line words.now) (of_record result) out.new }
{
    let [clock, transport, count, destinations @ ..] = words else {
        return Err(Unwritten::NoRecord);
    };
    if *count != destinations.len() as u64 {
        return Err(Unwritten::NoRecord);
    }
    Ok(writer::write_job(out, 0, *clock, *transport, destinations)?)
}

fn write_pick(words: &[u64], out: &mut [u8]) -> Result<usize, Unwritten>
    requires { 1300 ≤ length out.old }
    ensures { Done (pick_line words.now) (of_record result) out.new }
{
    let [clock] = words else {
        return Err(Unwritten::NoRecord);
    };
    Ok(writer::write_pick(out, 0, *clock)?)
}

fn write_report(words: &[u64], out: &mut [u8]) -> Result<usize, Unwritten>
    requires { 1300 ≤ length out.old }
    ensures { Done (report_line words.now) (of_record result) out.new }
{
    let [clock, entry, ticket, outcome] = words else {
        return Err(Unwritten::NoRecord);
    };
    Ok(writer::write_report(out, 0, *clock, *entry, *ticket, *outcome)?)
}
