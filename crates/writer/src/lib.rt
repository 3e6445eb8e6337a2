// The writer of a journal (A8): each record goes into a lent buffer, behind the `used` bytes that are there. All other bytes stay. Any
// fields, any buffer, any number of bytes used. A refusal writes nothing: 14 for a field that the reader would refuse or of 2^32 and more,
// tested first, then 10 for a record that does not fit. The answer is how many bytes are used now.
#![tactic(auto)]

mod parts;

ghost use Rattle.std.specs.Prelude.{◌≡◌};
ghost use Rattle.journal.specs.Records.{name, job, pick, report};
ghost use Rattle.journal.specs.Writes.{told, writing_of};

use parts::{all_small, fits, in_range, put_numbers, put_word, size_of_all, small};
use rules::Refusal;

// Names a destination.
pub fn write_name(
    buffer: &mut [u8],
    used: usize,
    destination: u64,
    word: &[u8],
) -> Result<usize, Refusal>
    ensures answer { told result ≡ (writing_of (name destination word.now) buffer.old used).answer }
    ensures bytes { buffer.new ≡ (writing_of (name destination word.now) buffer.old used).buffer }
{
    let length = word.len();
    in_range(destination, 0, 31)?;
    in_range(length as u64, 1, 63)?;
    let head = [0, destination, length as u64];
    fits(buffer.len(), used, size_of_all(&head) + length)?;
    let at = put_numbers(buffer, used, &head);
    Ok(put_word(buffer, at, word))
}

// A job, with a destination for each of its entries.
pub fn write_job(
    buffer: &mut [u8],
    used: usize,
    clock: u64,
    transport: u64,
    destinations: &[u64],
) -> Result<usize, Refusal>
    ensures answer { told result ≡ (writing_of (job clock transport destinations.now) buffer.old used).answer }
    ensures bytes { buffer.new ≡ (writing_of (job clock transport destinations.now) buffer.old used).buffer }
{
    let count = destinations.len() as u64;
    small(clock)?;
    small(transport)?;
    in_range(count, 1, 256)?;
    all_small(destinations)?;
    let head = [1, clock, transport, count];
    fits(
        buffer.len(),
        used,
        size_of_all(&head) + size_of_all(destinations),
    )?;
    let at = put_numbers(buffer, used, &head);
    Ok(put_numbers(buffer, at, destinations))
}

pub fn write_pick(buffer: &mut [u8], used: usize, clock: u64) -> Result<usize, Refusal>
    ensures answer { told result ≡ (writing_of (pick clock) buffer.old used).answer }
    ensures bytes { buffer.new ≡ (writing_of (pick clock) buffer.old used).buffer }
{
    small(clock)?;
    let fields = [2, clock];
    fits(buffer.len(), used, size_of_all(&fields))?;
    Ok(put_numbers(buffer, used, &fields))
}

// A report; outcome 0 is a success, 1 a failure.
pub fn write_report(
    buffer: &mut [u8],
    used: usize,
    clock: u64,
    entry: u64,
    ticket: u64,
    outcome: u64,
) -> Result<usize, Refusal>
    ensures answer { told result ≡ (writing_of (report clock entry ticket outcome) buffer.old used).answer }
    ensures bytes { buffer.new ≡ (writing_of (report clock entry ticket outcome) buffer.old used).buffer }
{
    small(clock)?;
    small(entry)?;
    small(ticket)?;
    in_range(outcome, 0, 1)?;
    let fields = [3, clock, entry, ticket, outcome];
    fits(buffer.len(), used, size_of_all(&fields))?;
    Ok(put_numbers(buffer, used, &fields))
}
