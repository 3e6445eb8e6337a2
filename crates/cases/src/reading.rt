// How a line of cases is read: how often, what it asks for, whether its words fit.
ghost use Rattle.std.specs.Prelude.{◌≡◌, ◌≤◌, length};

use lines::text;

// How many times a line's call is made, and where the call begins.
#[derive(Drop)]
pub struct Repeat {
    pub count: u64,
    pub start: usize,
}

pub fn read_repeat(line: &[u8]) -> Repeat
    ensures { result.start ≤ length line.now }
{
    if line.is_empty() || line[0] == b'#' {
        return Repeat { count: 0, start: 0 };
    }
    let end = text::find(line, 0, line.len(), b' ');
    match text::read_number(&line[..end]) {
        Some(count) => Repeat {
            count,
            start: text::skip_blanks(line, end),
        },
        None => Repeat { count: 1, start: 0 },
    }
}

// What a line asks for, by its name: to look at something, to change a field, or a call, which any other name is.
#[derive(Clone, Copy, PartialEq, Eq)]
pub enum Asked {
    List,
    Text,
    Bytes,
    Sequence,
    Look,
    Bits,
    Set,
    Broken,
    Range,
    Call,
}

pub fn what_is(name: &[u8]) -> Asked {
    match name {
        b"list" => Asked::List,
        b"text" => Asked::Text,
        b"bytes" => Asked::Bytes,
        b"sequence" => Asked::Sequence,
        b"look" => Asked::Look,
        b"bits" => Asked::Bits,
        b"set" => Asked::Set,
        b"broken" => Asked::Broken,
        b"range" => Asked::Range,
        _ => Asked::Call,
    }
}

// Whether the numbers are as many as it takes where something is looked at: none for `bits`, four for `look`, else two.
pub fn fits(asked: Asked, k: usize) -> bool {
    match asked {
        Asked::Call => true,
        Asked::Look => k == 4,
        Asked::Bits => k == 0,
        _ => k == 2,
    }
}
