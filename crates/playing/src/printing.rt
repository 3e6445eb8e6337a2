// What an answer prints, put at a place of a buffer; each of these answers the next place.
ghost use Rattle.lines.specs.Texts.{Put};
ghost use Rattle.playing.specs.Plays.{number_line, refusal_line, report_line};

use lines::answer::{put_byte, put_decimal, put_move};
use rules::{Refusal, ReportAnswer};

// A number, alone on its line.
pub fn put_line(out: &mut [u8], at: usize, x: u64) -> usize
    ensures { Put (number_line x) out.old at out.new result }
{
    let p = put_decimal(out, at, x);
    put_byte(out, p, b'\n')
}

// The number of a refused call; nothing of another.
pub fn put_refusal<A: Copy>(out: &mut [u8], at: usize, a: Result<A, Refusal>) -> usize
    ensures { Put (refusal_line a) out.old at out.new result }
{
    match a {
        Err(refusal) => put_line(out, at, u64::from(refusal.number())),
        Ok(_) => at,
    }
}

// The number of a refused report, or the word of why the number moved.
pub fn put_report(out: &mut [u8], at: usize, a: Result<ReportAnswer, Refusal>) -> usize
    ensures { Put (report_line a) out.old at out.new result }
{
    match a {
        Err(refusal) => put_line(out, at, u64::from(refusal.number())),
        Ok(a) => {
            let p = put_move(out, at, a.moved);
            put_byte(out, p, b'\n')
        }
    }
}
