// Reads and replays the journals of its standard input, and writes records, a line each, and writes each line with what came out of it. The
// lines:
//
//     read OFFSET B B ..               what stands at that offset of the journal of these bytes
//     replay BUDGET B B ..             the replay of that journal, with each byte 10 shown as '|'
//     write LENGTH USED KIND F F ..    the record written into a buffer of that length, all nines, and the buffer then
//
// Empty lines and lines that begin with '#' are written as they are.
#![tactic(auto)]

mod show;
mod writes;

ghost use Rattle.std.specs.Prelude.{◌*◌, ◌≤◌, length};

use lines::text::find;
use lines::{answer, input, text};
use std::io;
use std::io::{Read, Write};

fn main(rt: HostRuntime) -> io::Result<()> {
    let mut cases_space = [0u8; 20480];
    let cases: &mut [u8] = &mut cases_space;
    // the most numbers that a line of so many bytes holds
    let mut words_space = [0u64; 10240];
    let words: &mut [u64] = &mut words_space;
    let mut journal_space = [0u8; 2048];
    let journal: &mut [u8] = &mut journal_space;
    let mut out_space = [0u8; 4096];
    let out: &mut [u8] = &mut out_space;
    let mut from = rt.reader();
    let mut to = io::writer(&rt);
    run(&mut from, &mut to, cases, words, journal, out)
}

fn run<R: Read, W: Write>(
    from: &mut R,
    to: &mut W,
    cases: &mut [u8],
    words: &mut [u64],
    journal: &mut [u8],
    out: &mut [u8],
) -> io::Result<()>
    requires { length cases.old ≤ 2 * length words.old }
{
    let n = input::read_whole(from, cases)?;
    let mut at = 0;
    while at < n {
        let end = find(cases, at, n, b'\n');
        step(to, &cases[at..end], words, journal, out)?;
        at = end + 1;
    }
    Ok(())
}

// Writes a line, does what it says, and writes what came out.
fn step<W: Write>(
    to: &mut W,
    line: &[u8],
    words: &mut [u64],
    journal: &mut [u8],
    out: &mut [u8],
) -> io::Result<()>
    requires { length line.now ≤ 2 * length words.old }
{
    to.write_all(line)?;
    let at = text::skip_blanks(line, 0);
    let end = find(line, at, line.len(), b' ');
    let k = match text::read_numbers(line, end, words) {
        Some(k) if 0 < k => k,
        _ => return to.write_all(b"\n"),
    };
    to.write_all(b" -> ")?;
    let length = told(&line[at..end], &words[..k], journal, out);
    answer::write(to, out, length)
}

// What a line of that name says of these numbers. To read and to replay, the first is an offset or a budget, and the others are a journal's
// bytes.
fn told(name: &[u8], words: &[u64], space: &mut [u8], out: &mut [u8]) -> usize {
    let [x, bytes @ ..] = words else {
        return 0;
    };
    match name {
        b"write" => writes::put_write(out, words, space),
        b"read" => {
            let many = fill(bytes, space);
            show::put_read(out, &space[..many], *x)
        }
        _ => {
            let many = fill(bytes, space);
            show::put_replay(out, &space[..many], *x)
        }
    }
}

// Puts the words, each below 256, at the start of the bytes, as far as there is room, and answers how many there are.
pub fn fill(words: &[u64], bytes: &mut [u8]) -> usize
    ensures { result ≤ length bytes.new }
{
    let count = words.len().min(bytes.len());
    for (byte, word) in bytes.iter_mut().zip(words) {
        *byte = (word % 256) as u8;
    }
    count
}
