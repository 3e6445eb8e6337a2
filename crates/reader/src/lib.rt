// The reader of a journal (A1): what stands at an offset, and a name as a part of the journal. Any bytes, any offset.
#![tactic(auto)]

ghost use Rattle.std.specs.Prelude.{◌≡◌, ◌+◌, ℕ, []};
ghost use Rattle.laws.specs.Sequence.{padded};
ghost use Rattle.journal.specs.Records.{name_fields, job_fields, pick_fields, report_fields, read_at};
ghost use Rattle.journal.specs.Told.{told, ReadingOf, name_of, name_start};
ghost use Rattle.reader.specs.Reads.{whole_at, Reads, Gives};

use fields::{number, ranged};
use journal::{Reading, Record, Unreadable, Whole};
use rules::{Outcome, Refusal};

// What stands at an offset.
pub fn read_at(journal: &[u8], offset: usize) -> Reading
    ensures { ReadingOf (read_at journal.now offset) result }
{
    if journal.len() <= offset {
        return alone(Ok(None));
    }
    let kind = match ranged(journal, offset, 0, 3) {
        Ok(kind) => kind,
        Err(refusal) => return alone(told_at(offset, Err(refusal))),
    };
    // each returns by itself, so that its answer is built in place: where ways meet before the end, all of a reading is copied
    match kind.value {
        0 => return alone(told_at(offset, read_name(journal, kind.next))),
        1 => return read_job(journal, offset, kind.next),
        2 => return alone(told_at(offset, read_pick(journal, kind.next))),
        _ => {}
    }
    alone(told_at(offset, read_report(journal, kind.next)))
}

// The name that stands at a record's offset, as that very part of the journal: its bytes, where they lie. Where none stands
// there, an empty part.
pub fn name_at(journal: &[u8], offset: usize) -> &[u8]
    ensures bytes { result.now ≡ name_of (read_at journal.now offset) }
    ensures place { result.ref_ptr ≡ (journal.entry.ref_ptr.0, journal.entry.ref_ptr.1 + name_start (read_at journal.now offset)) }
{
    let Some(found) = read_at(journal, offset).answer.ok().flatten() else {
        return &journal[..0];
    };
    match found.what {
        Record::Name { length, .. } => &journal[found.next - length as usize..found.next],
        _ => &journal[..0],
    }
}

// An answer with no destinations.
fn alone(answer: Result<Option<Whole>, Unreadable>) -> Reading
    ensures { (result.answer ≡ answer) × (result.destinations ≡ padded 256 []) }
{
    Reading {
        answer,
        destinations: [0u64; 256],
    }
}

// What is told of a record that begins at an offset.
fn told_at(offset: usize, read: Result<Whole, Refusal>) -> Result<Option<Whole>, Unreadable>
    ensures { told result ≡ whole_at offset read }
{
    match read {
        Ok(whole) => Ok(Some(whole)),
        Err(refusal) => Err(Unreadable { refusal, offset }),
    }
}

// Each of these reads a record from its first field on.

fn read_name(journal: &[u8], from: usize) -> Result<Whole, Refusal>
    ensures { Reads (λ start. name_fields journal.now start from) result }
{
    let d = ranged(journal, from, 0, 31)?;
    let size = ranged(journal, d.next, 1, 63)?;
    if ((journal.len() - size.next) as u64) < size.value {
        return Err(Refusal::CutShort);
    }
    Ok(Whole {
        what: Record::Name {
            destination: d.value,
            length: size.value,
        },
        next: size.next + size.value as usize,
    })
}

// The destinations are read into their place: an answer that holds them is copied wherever it is handed on.
fn read_job(journal: &[u8], offset: usize, from: usize) -> Reading
    ensures { ReadingOf (job_fields journal.now offset from) result }
{
    let mut destinations = [0u64; 256];
    let whole = match read_into(journal, from, &mut destinations) {
        Ok(whole) => whole,
        Err(refusal) => return alone(told_at(offset, Err(refusal))),
    };
    Reading {
        answer: Ok(Some(whole)),
        destinations,
    }
}

fn read_into(journal: &[u8], from: usize, list: &mut [u64; 256]) -> Result<Whole, Refusal>
    requires { list.old ≡ padded 256 [] }
    ensures { (start : ℕ) → Gives start (job_fields journal.now start from) list.new result }
{
    let clock = number(journal, from)?;
    let transport = number(journal, clock.next)?;
    let count = ranged(journal, transport.next, 1, 256)?;
    let mut next = count.next;
    for i in 0..count.value as usize {
        let d = number(journal, next)?;
        list[i] = d.value;
        next = d.next;
    }
    Ok(Whole {
        what: Record::Job {
            clock: clock.value,
            transport: transport.value,
            count: count.value,
        },
        next,
    })
}

fn read_pick(journal: &[u8], from: usize) -> Result<Whole, Refusal>
    ensures { Reads (λ start. pick_fields journal.now start from) result }
{
    let clock = number(journal, from)?;
    Ok(Whole {
        what: Record::Pick { clock: clock.value },
        next: clock.next,
    })
}

fn read_report(journal: &[u8], from: usize) -> Result<Whole, Refusal>
    ensures { Reads (λ start. report_fields journal.now start from) result }
{
    let clock = number(journal, from)?;
    let entry = number(journal, clock.next)?;
    let ticket = number(journal, entry.next)?;
    let outcome = ranged(journal, ticket.next, 0, 1)?;
    Ok(Whole {
        what: Record::Report {
            clock: clock.value,
            entry: entry.value,
            ticket: ticket.value,
            outcome: Outcome::try_from(outcome.value)?,
        },
        next: outcome.next,
    })
}
