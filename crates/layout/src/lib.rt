// The numbers of `run`: how they are read as calls, and in rows.rt how an answer is written. The layout is specs/Layout.antt, and as a table docs/RUN.md.
#![tactic(auto)]

pub mod rows;

ghost use Rattle.std.specs.Prelude.{◌≤◌, ◌<◌, ◌≡◌, length, MatchOption};
ghost use Rattle.layout.specs.Layout.{word, head_of, tail_of, size_of, list_places, text_places, end_before, end_number};

// Why a run ended: the set-up was refused, the list of calls came to its end, it is cut short within a call, a kind of
// call is unknown, or a slice has no room for the next answer or its buffer.
#[derive(Clone, Copy, PartialEq, Eq)]
pub enum RunEnd {
    Refused = 0,
    Whole = 1,
    Short = 2,
    Unknown = 3,
    NoRoom = 4,
}

// How many numbers a call has before its destinations; none for an unknown kind. A kind is matched where it is read: an enum in between would be matched
// a second time.
fn head_of(kind: u64) -> Option<usize>
    ensures { MatchOption result (head_of kind ≡ 0) (λ n. (n ≡ head_of kind) × (0 < n)) }
{
    match kind {
        1 | 3 | 4 => Some(5),
        2 | 5 | 6 => Some(2),
        _ => None,
    }
}

// How many destinations follow.
fn tail_of(words: &[u64]) -> u64
    requires { (head_of (word words.now 0) ≤ length words.now) × (0 < length words.now) }
    ensures { result ≡ tail_of words.now }
{
    match words[0] {
        1 => words[4],
        _ => 0,
    }
}

// How many places of the put-off list, and of the board's buffer, are lent to the call.

pub fn list_places(words: &[u64]) -> u64
    requires { (head_of (word words.now 0) ≤ length words.now) × (0 < length words.now) }
    ensures { result ≡ list_places words.now }
{
    match words[0] {
        1 => words[3],
        3 | 4 => words[4],
        _ => 0,
    }
}

pub fn text_places(words: &[u64]) -> u64
    requires { (head_of (word words.now 0) ≤ length words.now) × (0 < length words.now) }
    ensures { result ≡ text_places words.now }
{
    match words[0] {
        6 => words[1],
        _ => 0,
    }
}

// How many numbers the call at the front takes.
pub fn size_of(words: &[u64]) -> usize
    requires { (size_of words.now ≤ length words.now) × (0 < length words.now) }
    ensures { result ≡ size_of words.now }
{
    head_of(words[0]).unwrap_or(0) + (tail_of(words) as usize)
}

// Why the run ends before the call at the front; none where it goes on.
pub fn end_before(words: &[u64], answers: usize, lists: usize, texts: usize) -> Option<RunEnd>
    ensures { MatchOption result (end_before words.now answers lists texts ≡ 0)
        (λ e. (end_number e ≡ end_before words.now answers lists texts) × (0 < end_number e)) }
{
    let n = words.len();
    if n == 0 {
        return Some(RunEnd::Whole);
    }
    let Some(head) = head_of(words[0]) else {
        return Some(RunEnd::Unknown);
    };
    if n < head {
        return Some(RunEnd::Short);
    }
    if ((n - head) as u64) < tail_of(words) {
        return Some(RunEnd::Short);
    }
    if answers < rows::ROW {
        return Some(RunEnd::NoRoom);
    }
    if (lists as u64) < list_places(words) {
        return Some(RunEnd::NoRoom);
    }
    if (texts as u64) < text_places(words) {
        return Some(RunEnd::NoRoom);
    }
    None
}
