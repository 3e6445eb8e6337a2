// An input, line by line or whole, through a lent buffer. Lines end with byte 10; what stands behind the last of these is a line too. A line that
// the buffer has no room for is handed out as its end alone, and told apart.
ghost use Rattle.std.specs.Prelude.{◌+◌, ◌≤◌, ◌<◌, ◌≡◌, length, IfOk, OnErr};

use crate::text;
use crate::text::find;
use std::io;
use std::io::Read;

// How much of a line is there: all of it; or, of one that was too long, its end, told apart where it began with '#'.
#[derive(Clone, Copy, PartialEq, Eq)]
pub enum Part {
    Whole,
    TooLong,
    TooLongComment,
}

// A line, from `start` up to `end` of the buffer. It is the last one where the input is over. What is read behind it goes from `next` up to
// `have`.
#[derive(Clone, Copy)]
pub struct Line {
    pub start: usize,
    pub end: usize,
    pub part: Part,
    pub over: bool,
    pub next: usize,
    pub have: usize,
}

// Before the first line.
pub fn none() -> Line
    ensures { (result.next ≡ 0) × (result.have ≡ 0) }
{
    Line {
        start: 0,
        end: 0,
        part: Part::Whole,
        over: false,
        next: 0,
        have: 0,
    }
}

// The line behind another. An error is that of a read: the buffer keeps its length, and no line is handed out. It turns at most 2^64 - 1 times, which no input uses up: a turn reads at least a byte.
pub fn next_line<R: Read>(from: &mut R, buffer: &mut [u8], last: Line) -> io::Result<Line>
    requires { (0 < length buffer.old) × (last.next ≤ last.have) × (last.have ≤ length buffer.old) }
    ensures ok { IfOk result (λ l. (l.start ≤ l.end) × (l.end < length buffer.new) × (l.next ≤ l.have) × (l.have ≤ length buffer.new)) }
    ensures err { OnErr result (length buffer.new ≡ length buffer.old) }
{
    let mut h = Held {
        start: last.next,
        have: last.have,
        part: Part::Whole,
    };
    // no place before this one holds a line end
    let mut seen = last.next;
    for _ in 0..u64::MAX {
        let end = find(buffer, seen, h.have, b'\n');
        if end < h.have {
            return Ok(Line {
                start: h.start,
                end,
                part: h.part,
                over: false,
                next: end + 1,
                have: h.have,
            });
        }
        h = with_room(buffer, h);
        seen = h.have;
        let got = from.read(&mut buffer[seen..])?;
        if got == 0 {
            return Ok(rest(h));
        }
        h.have = seen + got;
    }
    Ok(rest(nothing(Part::Whole)))
}

// Reads the input up to its end, or until the buffer is full, and answers how many bytes came.
pub fn read_whole<R: Read>(from: &mut R, buffer: &mut [u8]) -> io::Result<usize>
    ensures { IfOk result (λ n. n ≤ length buffer.new) }
{
    let mut have = 0;
    while have < buffer.len() {
        let got = from.read(&mut buffer[have..])?;
        if got == 0 {
            break;
        }
        have += got;
    }
    Ok(have)
}

// The bytes of a line that has not ended yet, from `start` up to `have`.
#[derive(Clone, Copy)]
struct Held {
    start: usize,
    have: usize,
    part: Part,
}

// The last line: all that is held.
fn rest(h: Held) -> Line
    ensures { (result.start ≡ h.start) × (result.end ≡ h.have) × (result.next ≡ h.have) × (result.have ≡ h.have) }
{
    Line {
        start: h.start,
        end: h.have,
        part: h.part,
        over: true,
        next: h.have,
        have: h.have,
    }
}

// Nothing held.
fn nothing(part: Part) -> Held
    ensures { (result.start ≡ 0) × (result.have ≡ 0) }
{
    Held {
        start: 0,
        have: 0,
        part,
    }
}

// Sees that there is room behind what is held. Where it fills the whole buffer it is dropped: the line is too long.
fn with_room(buffer: &mut [u8], h: Held) -> Held
    requires { (0 < length buffer.old) × (h.start ≤ h.have) × (h.have ≤ length buffer.old) }
    ensures { (result.start ≤ result.have) × (result.have < length buffer.new) }
{
    if h.start == h.have {
        return nothing(h.part);
    }
    if h.have < buffer.len() {
        return h;
    }
    if 0 < h.start {
        text::shift(buffer, h.start, h.have);
        return Held {
            start: 0,
            have: h.have - h.start,
            part: h.part,
        };
    }
    nothing(match h.part {
        Part::Whole if buffer[0] == b'#' => Part::TooLongComment,
        Part::Whole => Part::TooLong,
        part => part,
    })
}
