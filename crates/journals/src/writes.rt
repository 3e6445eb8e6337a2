// A record that is written into a buffer, as a line of text.
use crate::fill;
use crate::show::put_all;
use lines::answer::{put, put_byte, put_number};
use lines::text::{at_most, word};
use rules::Refusal;

// The answer to the record of these words, length of the buffer, bytes used, kind and fields, and the buffer as it is then; before, each byte
// of it is 9.
pub fn put_write(out: &mut [u8], words: &[u64], space: &mut [u8]) -> usize {
    let length = at_most(word(words, 0), space.len());
    let buffer = &mut space[..length];
    buffer.fill(9);
    let used = word(words, 1) as usize;
    let a = write(buffer, used, word(words, 2), from(words, 3));
    let p = put_answer(out, a);
    let p = put_all(out, p, buffer);
    put_byte(out, p, b'\n')
}

// Of a name the fields are its number and its bytes, of a job its clock, its transport and its destinations.
fn write(buffer: &mut [u8], used: usize, kind: u64, fields: &[u64]) -> Result<usize, Refusal> {
    let a = word(fields, 0);
    let b = word(fields, 1);
    match kind {
        0 => {
            let mut name = [0u8; 256];
            let length = fill(from(fields, 1), &mut name);
            writer::write_name(buffer, used, a, &name[..length])
        }
        1 => writer::write_job(buffer, used, a, b, from(fields, 2)),
        2 => writer::write_pick(buffer, used, a),
        _ => writer::write_report(buffer, used, a, b, word(fields, 2), word(fields, 3)),
    }
}

// The words from a place on, if there are so many.
fn from(words: &[u64], place: usize) -> &[u64] {
    words.get(place..).unwrap_or(&[])
}

fn put_answer(out: &mut [u8], a: Result<usize, Refusal>) -> usize {
    match a {
        Ok(n) => {
            let p = put(out, 0, b"used");
            put_number(out, p, n as u64)
        }
        Err(refusal) => {
            let p = put(out, 0, b"refused");
            put_number(out, p, u64::from(refusal.number()))
        }
    }
}
