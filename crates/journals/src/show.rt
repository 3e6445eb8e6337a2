// What stands at an offset of a journal, and its replay, as a line of text.
use journal::Record;
use lines::answer::{put, put_byte, put_number, put_text};
use lines::text::at_most;
use reader::{name_at, read_at};
use rules::Outcome;

// The record with its fields, and the offset of the next; the end; or a refusal.
pub fn put_read(out: &mut [u8], journal: &[u8], x: u64) -> usize {
    let at = x as usize;
    let r = read_at(journal, at);
    match r.answer {
        Ok(Some(whole)) => {
            let p = put_record(out, whole.what, &r.destinations, name_at(journal, at));
            let p = put(out, p, b" next");
            let p = put_number(out, p, whole.next as u64);
            put_byte(out, p, b'\n')
        }
        Ok(None) => put(out, 0, b"end\n"),
        Err(u) => {
            let p = put(out, 0, b"refused");
            let p = put_number(out, p, u64::from(u.refusal.number()));
            let p = put_number(out, p, u.offset as u64);
            put_byte(out, p, b'\n')
        }
    }
}

fn put_record(out: &mut [u8], what: Record, dests: &[u64], name: &[u8]) -> usize {
    match what {
        Record::Name {
            destination,
            length,
        } => {
            let p = put_fields(out, b"name", &[destination, length]);
            put_all(out, p, name)
        }
        Record::Job {
            clock,
            transport,
            count,
        } => {
            let p = put_fields(out, b"job", &[clock, transport, count]);
            put_all(out, p, &dests[..at_most(count, dests.len())])
        }
        Record::Pick { clock } => put_fields(out, b"pick", &[clock]),
        Record::Report {
            clock,
            entry,
            ticket,
            outcome,
        } => {
            let p = put_fields(out, b"report", &[clock, entry, ticket]);
            put_outcome(out, p, outcome)
        }
    }
}

// A word, and these numbers.
fn put_fields(out: &mut [u8], word: &[u8], fields: &[u64]) -> usize {
    let p = put(out, 0, word);
    put_all(out, p, fields)
}

fn put_outcome(out: &mut [u8], at: usize, outcome: Outcome) -> usize {
    match outcome {
        Outcome::Success => put(out, at, b" success"),
        Outcome::Failure => put(out, at, b" failure"),
    }
}

// Each element as a number.
pub fn put_all<T: Copy + Into<u64>>(out: &mut [u8], at: usize, list: &[T]) -> usize {
    let mut p = at;
    for &x in list {
        p = put_number(out, p, x.into());
    }
    p
}

// The text of a replay, and how many records it says that it used.
pub fn put_replay(out: &mut [u8], journal: &[u8], budget: u64) -> usize {
    let mut space = [0u8; 4096];
    let r = replaying::replay(journal, budget, &mut space);
    let p = put_text(out, 0, r.length as u64, &space);
    let p = put(out, p, b" used");
    let p = put_number(out, p, r.used);
    put_byte(out, p, b'\n')
}
