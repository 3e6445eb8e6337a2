// Reads, or writes, the records of a journal many times, to be timed from outside: docs/PERFORMANCE.md. The argument says which records,
// `turns` or `jobs`, or `written-turns` or `written-jobs`; with none, each is done a few times.
#![tactic(auto)]

ghost use Rattle.std.specs.Prelude.{◌≤◌, length};

use reader::read_at;
use std::env::Env;
use std::io;
use writer::{write_job, write_pick, write_report};

fn main(rt: HostRuntime) -> io::Result<()> {
    // a pick and a report, with numbers of one and of two groups; a job of four entries
    let turns = [2u8, 144, 78, 3, 144, 78, 5, 133, 1, 0];
    let jobs = [1u8, 144, 78, 3, 4, 24, 28, 25, 29];
    let mut room = [0u8; 4096];
    let buffer: &mut [u8] = &mut room;
    let mut space = [0u8; 16];
    let n = first_argument(&rt, &mut space);
    // what is written, by numbers of one and of two groups too, hangs on the argument, so that none of it is known before
    let seed = 8192 + (n % 16) as u32;
    let entries = [
        u64::from(space[0]),
        u64::from(space[1]),
        u64::from(space[2]),
        u64::from(space[3]),
    ];
    match &space[..n] {
        b"" => {
            say(&rt, reads(&turns, 2) as u64)?;
            say(&rt, reads(&jobs, 1) as u64)?;
            say(&rt, write_turns(buffer, 1, seed, entries[0]) as u64)?;
            return say(&rt, write_jobs(buffer, 1, seed, &entries) as u64);
        }
        b"turns" => say(&rt, reads(&turns, 10_000_000) as u64)?,
        b"jobs" => say(&rt, reads(&jobs, 10_000_000) as u64)?,
        b"written-turns" => say(&rt, write_turns(buffer, 5_000_000, seed, entries[0]) as u64)?,
        b"written-jobs" => say(&rt, write_jobs(buffer, 10_000_000, seed, &entries) as u64)?,
        _ => {}
    }
    // what was written is looked at
    rt.write_all(buffer)
}

// Puts the first argument at the front of the buffer, and answers its length; 0 where there is none, or one that is longer than the
// buffer: no argument is an empty one here. `measure` and `reads` share no crate, so each has it.
fn first_argument<E: Env>(rt: &E, space: &mut [u8]) -> usize
    ensures { result ≤ length space.new }
{
    rt.arg(1, space).unwrap_or(0)
}

fn say<P: Print>(rt: &P, n: u64) -> io::Result<()> {
    println!(rt; "{n}")
}

// Reads record after record of a journal, and again from the first. Answers how many were whole with no fifth destination.
fn reads(journal: &[u8], rounds: u32) -> u32 {
    let mut good = 0;
    let mut at = 0;
    for _ in 0..rounds {
        let r = read_at(journal, at);
        at = match r.answer {
            Ok(Some(whole)) if whole.next < journal.len() => whole.next,
            _ => 0,
        };
        if r.destinations[4] == 0 {
            good += 1;
        }
    }
    good
}

// Writes a pick and a report after the other, and again from the front where one does not fit. Answers where the last ended.
fn write_turns(buffer: &mut [u8], rounds: u32, seed: u32, entry: u64) -> usize {
    let mut used = 0;
    for round in (0..rounds).rev() {
        let clock = clock_of(round, seed);
        used = write_pick(buffer, used, clock).unwrap_or(0);
        used = write_report(buffer, used, clock, entry, clock, 0).unwrap_or(0);
    }
    used
}

// Writes a job of these entries after the other, and again from the front where one does not fit. Answers where the last ended.
fn write_jobs(buffer: &mut [u8], rounds: u32, seed: u32, entries: &[u64]) -> usize {
    let mut used = 0;
    for round in (0..rounds).rev() {
        used = write_job(buffer, used, clock_of(round, seed), 3, entries).unwrap_or(0);
    }
    used
}

// Another clock each round, in a row of 4,096 from the seed on.
fn clock_of(round: u32, seed: u32) -> u64 {
    u64::from(std::num::wrapping_add_u32(seed, round % 4096))
}
