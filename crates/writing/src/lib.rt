// A word, or a number's decimals, at the front of a lent buffer. The bytes past it stay.
#![tactic(auto)]

ghost use Rattle.std.specs.Prelude.{◌≡◌, ◌≤◌, length, ◌++◌};
ghost use Rattle.laws.specs.Wrote.{Wrote};
ghost use Rattle.rules.specs.Board.{decimal};

// Puts a word at the front of a buffer that has room for it.
pub fn put(word: &[u8], buf: &mut [u8]) -> usize
    requires { length word.now ≤ length buf.old }
    ensures { Wrote word.now buf.old buf.new result }
{
    let n = word.len();
    buf[..n].copy_from_slice(word);
    n
}

// Puts a number's decimals there.
fn put_decimal(x: u64, buf: &mut [u8]) -> usize
    requires { length (decimal x) ≤ length buf.old }
    ensures { Wrote (decimal x) buf.old buf.new result }
{
    if x < 10 {
        buf[0] = b'0' + x as u8;
        return 1;
    }
    let at = put_decimal(x / 10, buf);
    buf[at] = b'0' + (x % 10) as u8;
    at + 1
}

// How many decimals a number has.
pub fn decimal_length(x: u64) -> usize
    ensures { result ≡ length (decimal x) }
{
    let mut n = 1;
    let mut y = x;
    while 10 <= y {
        y /= 10;
        n += 1;
    }
    n
}

// Puts a word there, and a number's decimals behind it.
pub fn put_number(word: &[u8], x: u64, buf: &mut [u8]) -> usize
    requires { length (word.now ++ decimal x) ≤ length buf.old }
    ensures { Wrote (word.now ++ decimal x) buf.old buf.new result }
{
    let mut at = put(word, buf);
    at += put_decimal(x, &mut buf[at..]);
    at
}
