// The buffers that are lent to a call: filled before it, shown after it.
ghost use Rattle.std.specs.Prelude.{◌≤◌, length};

use lines::{answer, text};

// Puts in what no call writes, so that a place that was written shows.
pub fn fill(list: &mut [u16], written: &mut [u8]) {
    list.fill(999);
    written.fill(b'.');
}

// The list's places from a up to before b.
pub fn put_places(out: &mut [u8], list: &[u16], a: u64, b: u64) -> usize {
    let end = text::at_most(b, list.len());
    let mut at = answer::put(out, 0, b"list");
    for &x in &list[text::at_most(a, end)..end] {
        at = answer::put_number(out, at, u64::from(x));
    }
    answer::put_byte(out, at, b'\n')
}

// The text's bytes likewise: each as it is, a line end as a '|'.
pub fn put_text(out: &mut [u8], written: &[u8], a: u64, b: u64) -> usize {
    let end = text::at_most(b, written.len());
    let mut at = answer::put(out, 0, b"text ");
    for &x in &written[text::at_most(a, end)..end] {
        at = answer::put_byte(out, at, answer::shown(x));
    }
    answer::put_byte(out, at, b'\n')
}

// Or each as a number.
pub fn put_bytes(out: &mut [u8], written: &[u8], a: u64, b: u64) -> usize {
    let end = text::at_most(b, written.len());
    let mut at = answer::put(out, 0, b"bytes");
    for &x in &written[text::at_most(a, end)..end] {
        at = answer::put_number(out, at, u64::from(x));
    }
    answer::put_byte(out, at, b'\n')
}

// Repeats a job's destinations, which stand behind its first four words, until they are as many as the fourth says or
// the words are full. Answers how many words there are then.
pub fn spread(name: &[u8], words: &mut [u64], k: usize) -> usize
    requires { k ≤ length words.old }
    ensures { result ≤ length words.new }
{
    if k < 5 || name != b"job".as_slice() {
        return k;
    }
    let given = k - 4;
    let end = text::at_most(words[3], words.len() - 4) + 4;
    for i in k..end {
        words[i] = words[i - given];
    }
    end.max(k)
}
