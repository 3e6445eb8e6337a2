// Replays the journal on standard input, and writes what that prints to standard output: docs/REPLAY.md.
#![tactic(auto)]

ghost use Rattle.std.specs.Prelude.{◌+◌, ◌*◌, ◌≤◌, ◌≡◌, length, take};
ghost use Rattle.std.specs.Option.{is_some, unwrap_or};
ghost use Rattle.journal.specs.Journals.{journal_of};
ghost use Rattle.replaying.specs.Replay.{replay_text};
ghost use Rattle.replay.specs.Budget.{is_decimal, all, budget_of};

use lines::{answer, input, text};
use std::env::{Env, FillError};
use std::io;
use std::io::{Eprint, Read, Write};

fn main(rt: HostRuntime) -> io::Result<()> {
    let mut journal_space = zeros::<262144>();
    let journal: &mut [u8] = &mut journal_space;
    let mut out_space = zeros::<1314816>();
    let out: &mut [u8] = &mut out_space;
    let budget = asked(&rt)?;
    let mut from = rt.reader();
    let mut to = io::writer(&rt);
    run(&mut from, &mut to, budget, journal, out)
}

// Room for the longest journal that is read, and for the longest text of one: so many zeros. The contract gives the length alone, which is what
// lending an array as a slice needs.
fn zeros<const N: usize>() -> [u8; N]
    ensures { N ≡ length result }
{
    [0; N]
}

// Replays the journal that is read, and writes what that prints.
fn run<R: Read, W: Write>(
    from: &mut R,
    to: &mut W,
    budget: u64,
    journal: &mut [u8],
    out: &mut [u8],
) -> io::Result<()>
    requires { 5 * length journal.old + 4096 ≤ length out.old }
{
    let n = input::read_whole(from, journal)?;
    let length = text_of(&journal[..n], budget, out);
    answer::write(to, out, length)
}

// Puts the text of a replay at the start of a buffer that has room for it, and answers its length.
fn text_of(journal: &[u8], budget: u64, out: &mut [u8]) -> usize
    requires { 5 * length journal.now + 4096 ≤ length out.old }
    ensures { take result out.new ≡ replay_text (journal_of journal.now) budget }
{
    replaying::replay(journal, budget, out).length
}

// The budget that the first argument asks for; all records where there is none. An argument has at most 131,071 bytes. One that is no number is
// told of on standard error.
fn asked<E: Env + Eprint>(rt: &E) -> io::Result<u64> {
    let mut space = [0u8; 131072];
    let n = match rt.arg(1, &mut space) {
        Ok(n) => n,
        Err(FillError::NotPresent) => return Ok(u64::MAX),
        Err(FillError::TooLong) => 0,
    };
    let word = &space[..n];
    if number_asked(word).is_none() {
        eprintln!(rt; "replay: the first argument is not a number of records; all are replayed")?;
    }
    Ok(budget_of(word))
}

// The budget of a word; all records where it is no number.
fn budget_of(word: &[u8]) -> u64
    ensures { result ≡ budget_of word.now }
{
    number_asked(word).unwrap_or(u64::MAX)
}

// How many records a word asks for; none where it is no number. A number past every journal is all records.
fn number_asked(word: &[u8]) -> Option<u64>
    ensures told { is_some result ≡ is_decimal word.now }
    ensures budget { unwrap_or result all ≡ budget_of word.now }
{
    if !is_decimal(word) {
        return None;
    }
    Some(text::read_number(word).unwrap_or(u64::MAX))
}

// Digits only, at least one.
fn is_decimal(word: &[u8]) -> bool
    ensures { result ≡ is_decimal word.now }
{
    !word.is_empty() && word.iter().all(|b| b.is_ascii_digit())
}
