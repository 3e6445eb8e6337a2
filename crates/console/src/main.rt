// One call a line in, one answer a line out. Each answer is written before the next line is waited for.
#![tactic(auto)]

ghost use Rattle.std.specs.Prelude.{◌≡◌, ◌+◌, ◌*◌, ◌≤◌, ◌<◌, length};
ghost use Rattle.console.specs.Lines.{after_line};

use lines::answer::Reply;
use lines::input::Part;
use lines::{answer, input};
use rules::State;
use std::io;
use std::io::{Read, Write};

fn main(rt: HostRuntime) -> io::Result<()> {
    // the longest line and its end, and the most numbers that it holds
    let mut line_space = [0u8; 65537];
    let line: &mut [u8] = &mut line_space;
    let mut words_space = [0u64; 32768];
    let words: &mut [u64] = &mut words_space;
    let mut from = rt.reader();
    let mut to = io::writer(&rt);
    run(&mut from, &mut to, line, words)
}

// Answers line after line until the input ends. It turns at most 2^64 - 1 times, which no input uses up: a line is a byte or more.
fn run<R: Read, W: Write>(
    from: &mut R,
    to: &mut W,
    line: &mut [u8],
    words: &mut [u64],
) -> io::Result<()>
    requires { (0 < length line.old) × (length line.old ≤ 2 * length words.old + 1) }
{
    let mut state = startup::zero();
    let mut l = input::none();
    let mut out_space = [0u8; 8192];
    let out: &mut [u8] = &mut out_space;
    for _ in 0..u64::MAX {
        l = input::next_line(from, line, l)?;
        let r = answered(&line[l.start..l.end], words, out, l.part, state);
        answer::write(to, out, r.length)?;
        state = r.state;
        if l.over {
            return Ok(());
        }
    }
    Ok(())
}

// Answers a line, or the end of one that was too long: the state that the call left, and the answer's length.
fn answered(line: &[u8], words: &mut [u64], out: &mut [u8], part: Part, s: State) -> Reply
    requires { length line.now ≤ 2 * length words.old }
    ensures { result.state ≡ after_line part line.now s }
{
    let mut list_space = [0u16; 512];
    let list: &mut [u16] = &mut list_space;
    let mut text_space = [0u8; 4096];
    let written: &mut [u8] = &mut text_space;
    match part {
        Part::Whole => calling::answer_line(line, words, list, written, out, s),
        Part::TooLong => Reply {
            state: s,
            length: answer::malformed(out),
        },
        Part::TooLongComment => Reply {
            state: s,
            length: 0,
        },
    }
}
