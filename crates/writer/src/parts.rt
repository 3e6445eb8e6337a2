// What records are made of: numbers, lists of numbers, the bytes of a name.
ghost use Rattle.std.specs.Prelude.{◌+◌, ◌≤◌, ◌<◌, ◌≡◌, true, length, leb};
ghost use Rattle.laws.specs.Sequence.{every_in};
ghost use Rattle.rules.specs.Setup.{within};
ghost use Rattle.rules.specs.declared.Refusal.{Refusal};
ghost use Rattle.journal.specs.Numbers.{small};
ghost use Rattle.journal.specs.Writes.{number_bytes, numbers_bytes};
ghost use Rattle.writer.specs.Parts.{unless, Stored};

use rules::Refusal;

// Refuses what does not fit behind the bytes that are used.
pub fn fits(room: usize, used: usize, size: usize) -> Result<(), Refusal>
    ensures { result ≡ unless (leb (used + size) room) Refusal.Room }
{
    if size <= room && used <= room - size {
        Ok(())
    } else {
        Err(Refusal::Room)
    }
}

// Refuses a field that is not from low to high.
pub fn in_range(x: u64, low: u64, high: u64) -> Result<(), Refusal>
    ensures { result ≡ unless (within low high x) Refusal.OutOfRange }
{
    if low <= x && x <= high {
        Ok(())
    } else {
        Err(Refusal::OutOfRange)
    }
}

// Refuses a field of 2^32 and more.
pub fn small(x: u64) -> Result<(), Refusal>
    ensures { result ≡ unless (small x) Refusal.OutOfRange }
{
    if x < 4294967296 {
        Ok(())
    } else {
        Err(Refusal::OutOfRange)
    }
}

pub fn all_small(list: &[u64]) -> Result<(), Refusal>
    ensures { result ≡ unless (every_in small list.now) Refusal.OutOfRange }
{
    if list.iter().all(|&x| x < 4294967296) {
        Ok(())
    } else {
        Err(Refusal::OutOfRange)
    }
}

// How many groups a number has.
pub fn size_of(x: u64) -> usize
    ensures { (result ≡ length (number_bytes x)) × (result ≤ 5) }
{
    match x {
        ..128 => 1,
        ..16384 => 2,
        ..2097152 => 3,
        ..268435456 => 4,
        _ => 5,
    }
}

pub fn size_of_all(list: &[u64]) -> usize
    requires { length list.now ≤ 256 }
    ensures { (result ≡ length (numbers_bytes list.now)) × (result ≤ 1280) }
{
    list.iter().map(|&x| size_of(x)).sum()
}

// Each of these puts something at a place of a buffer that has room for it, and answers the place behind it.

pub fn put_number(buffer: &mut [u8], at: usize, x: u64) -> usize
    requires { (x < 4294967296) × (at + length (number_bytes x) ≤ length buffer.old) }
    ensures { Stored (number_bytes x) buffer.old at buffer.new result }
{
    let mut p = at;
    let mut y = x;
    while 128 <= y {
        buffer[p] = 128 + (y % 128) as u8;
        p += 1;
        y /= 128;
    }
    buffer[p] = y as u8;
    p + 1
}

pub fn put_numbers(buffer: &mut [u8], at: usize, list: &[u64]) -> usize
    requires { (every_in small list.now ≡ true) × (at + length (numbers_bytes list.now) ≤ length buffer.old) }
    ensures { Stored (numbers_bytes list.now) buffer.old at buffer.new result }
{
    let mut p = at;
    for &x in list {
        p = put_number(buffer, p, x);
    }
    p
}

pub fn put_word(buffer: &mut [u8], at: usize, word: &[u8]) -> usize
    requires { at + length word.now ≤ length buffer.old }
    ensures { Stored word.now buffer.old at buffer.new result }
{
    let next = at + word.len();
    buffer[at..next].copy_from_slice(word);
    next
}
