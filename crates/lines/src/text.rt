// Bytes of a line: blanks, and words read as numbers.
ghost use Rattle.std.specs.Prelude.{◌+◌, ◌*◌, ◌-◌, ◌≤◌, min, ◌≡◌, ◌++◌, length, get_or, take, drop};
ghost use Rattle.std.specs.Option.{is_some, unwrap_or};
ghost use Rattle.lines.specs.Words.{words_of, number_of};
ghost use Rattle.lines.specs.Words.{FirstFrom, is_byte, not_blank, Read};

// The first place from `from` on and below `to` that holds the byte; `to` where there is none: what is asked of it is the slice up to there.
pub fn find(s: &[u8], from: usize, to: usize, b: u8) -> usize
    requires { (from ≤ to) × (to ≤ length s.now) }
    ensures { FirstFrom (is_byte s.now b) from to result }
{
    match s[from..to].iter().position(|&x| x == b) {
        Some(i) => from + i,
        None => to,
    }
}

// The first place from `from` on that holds no blank; the length where there is none, as in `find`.
pub fn skip_blanks(s: &[u8], from: usize) -> usize
    requires { from ≤ length s.now }
    ensures { FirstFrom (not_blank s.now) from (length s.now) result }
{
    match s[from..].iter().position(|&x| x != b' ') {
        Some(i) => from + i,
        None => s.len(),
    }
}

// Moves the bytes from `from` up to `to` to the front.
pub fn shift(s: &mut [u8], from: usize, to: usize)
    requires { (from ≤ to) × (to ≤ length s.old) }
    ensures { s.new ≡ take (to - from) (drop from s.old) ++ drop (to - from) s.old }
{
    s.copy_within(from..to, 0);
}

// A number, or `most` where it is more.
pub fn at_most(x: u64, most: usize) -> usize
    ensures { result ≡ min x most }
{
    x.min(most as u64) as usize
}

// A word read as a decimal number below 2^64.
pub fn read_number(word: &[u8]) -> Option<u64>
    ensures { result ≡ number_of word.now }
{
    let mut x: u64 = 0;
    for &b in word {
        if !b.is_ascii_digit() {
            return None;
        }
        x = x.checked_mul(10)?.checked_add(u64::from(b - b'0'))?;
    }
    Some(x)
}

// The words from `from` on, as numbers at the start of `out`: how many there are, or none where a word is no number. A word and the blank
// before it are two bytes or more.
pub fn read_numbers(s: &[u8], from: usize, out: &mut [u64]) -> Option<usize>
    requires { (from ≤ length s.now) × (length s.now ≤ from + 2 * length out.old) }
    ensures { Read (words_of (drop from s.now)) (is_some result) (unwrap_or result 0) out.new }
{
    let mut count = 0;
    let mut at = skip_blanks(s, from);
    while at < s.len() {
        let end = find(s, at + 1, s.len(), b' ');
        out[count] = read_number(&s[at..end])?;
        count += 1;
        at = skip_blanks(s, end);
    }
    Some(count)
}

// The number at a place; 0 past the end.
pub fn word(words: &[u64], i: usize) -> u64
    ensures { result ≡ get_or words.now i 0 }
{
    words.get(i).copied().unwrap_or(0)
}
