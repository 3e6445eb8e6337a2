// Document 01, "Board text".
#![tactic(auto)]

ghost use Rattle.std.specs.Prelude.{◌≡◌, ◌≤◌, length};
ghost use Rattle.rules.specs.Board.{clock_line, health_text, destination_line, text_of};
ghost use Rattle.board.specs.Text.{live_text, dead_text};
ghost use Rattle.laws.specs.Wrote.{Wrote};

use rules::{Destination, Health};
use writing::{decimal_length, put, put_number};

// The first line: AT and the clock.
fn put_clock(clock: u32, buf: &mut [u8]) -> usize
    requires { length (clock_line clock) ≤ length buf.old }
    ensures { Wrote (clock_line clock) buf.old buf.new result }
{
    let mut at = put_number(b"AT ", u64::from(clock), buf);
    at += put(b"\n", &mut buf[at..]);
    at
}

fn put_live(window: u64, busy: u16, buf: &mut [u8]) -> usize
    requires { length (live_text window busy) ≤ length buf.old }
    ensures { Wrote (live_text window busy) buf.old buf.new result }
{
    let mut at = put(b"LIVE", buf);
    at += put_number(b" ", window, &mut buf[at..]);
    at += put_number(b" ", u64::from(busy), &mut buf[at..]);
    at
}

fn put_dead(end: u64, buf: &mut [u8]) -> usize
    requires { length (dead_text end) ≤ length buf.old }
    ensures { Wrote (dead_text end) buf.old buf.new result }
{
    let mut at = put(b"DEAD", buf);
    at += put_number(b" ", end, &mut buf[at..]);
    at
}

// LIVE with window and busy, or DEAD with the end second.
fn put_health(h: Health, busy: u16, buf: &mut [u8]) -> usize
    requires { length (health_text h busy) ≤ length buf.old }
    ensures { Wrote (health_text h busy) buf.old buf.new result }
{
    match h {
        Health::Live(u) => put_live(u.window, busy, buf),
        Health::Dead(end) => put_dead(end, buf),
    }
}

// One destination's line.
fn put_line(d: u64, h: Health, busy: u16, buf: &mut [u8]) -> usize
    requires { length (destination_line d h busy) ≤ length buf.old }
    ensures { Wrote (destination_line d h busy) buf.old buf.new result }
{
    let mut at = put_number(b"D ", d, buf);
    at += put(b" ", &mut buf[at..]);
    at += put_health(h, busy, &mut buf[at..]);
    at += put(b"\n", &mut buf[at..]);
    at
}

fn health_length(h: Health, busy: u16) -> usize
    ensures { result ≡ length (health_text h busy) }
{
    match h {
        Health::Live(u) => 5 + decimal_length(u.window) + 1 + decimal_length(u64::from(busy)),
        Health::Dead(end) => 5 + decimal_length(end),
    }
}

fn line_length(d: u64, h: Health, busy: u16) -> usize
    ensures { result ≡ length (destination_line d h busy) }
{
    2 + decimal_length(d) + 1 + health_length(h, busy) + 1
}

// How long the text is: of a state's own parts, that is `board_text s`. That there are at most 32 destinations, soundness says.
pub fn text_length(clock: u32, count: u64, ds: [Destination; 32], busy: [u16; 32]) -> usize
    requires { count ≤ 32 }
    ensures { result ≡ length (text_of clock count ds busy) }
{
    let mut total = 3 + decimal_length(u64::from(clock)) + 1;
    for d in 0..count as usize {
        total += line_length(d as u64, ds[d].health, busy[d]);
    }
    total
}

// Puts the text at the front of a buffer that has room for it, each line behind the ones already there; the answer is its length.
pub fn write(
    clock: u32,
    count: u64,
    ds: [Destination; 32],
    busy: [u16; 32],
    buf: &mut [u8],
) -> usize
    requires { (count ≤ 32) × (length (text_of clock count ds busy) ≤ length buf.old) }
    ensures { Wrote (text_of clock count ds busy) buf.old buf.new result }
{
    let mut at = put_clock(clock, buf);
    for d in 0..count as usize {
        at += put_line(d as u64, ds[d].health, busy[d], &mut buf[at..]);
    }
    at
}
