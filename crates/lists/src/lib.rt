// Lists of job numbers, by value. Each is built anew, so that the places behind its count are zeros whatever stood there.
#![tactic(auto)]

ghost use Rattle.std.specs.Prelude.{◌≡◌, false, [], ◌∷◌, ◌++◌, ◌≤◌, ◌<◌, length, get_or};
ghost use Rattle.laws.specs.Sequence.{keep, times_in, move_before};
ghost use Rattle.rules.specs.State.{list_of, listed};

use rules::JobList;

// The list with j behind it.
pub fn append(q: JobList, j: u8) -> JobList
    requires { q.count < 32 }
    ensures { result ≡ listed (list_of q ++ (j ∷ [])) }
{
    let n = usize::from(q.count);
    let mut jobs = [0u8; 32];
    jobs[..n].copy_from_slice(q.numbers());
    jobs[n] = j;
    JobList {
        jobs,
        count: q.count + 1,
    }
}

// Whether the table says so of this job.
fn marked(table: &[bool; 32], j: u8) -> bool
    ensures { result ≡ get_or table.now j false }
{
    table.get(usize::from(j)).copied().unwrap_or(false)
}

// Those that the table marks, in their order. The table's length is in its type, which a caller's proof knows of its own array.
pub fn keep(q: JobList, stays: &[bool; 32]) -> JobList
    requires { (q.count ≤ 32) × (length stays.now ≡ 32) }
    ensures { result ≡ listed (keep (λ j. get_or stays.now j false) (list_of q)) }
{
    let mut jobs = [0u8; 32];
    let mut m: usize = 0;
    for &j in q.numbers() {
        if marked(stays, j) {
            jobs[m] = j;
            m += 1;
        }
    }
    JobList {
        jobs,
        count: m as u8,
    }
}

// x taken out and put directly before y. Soundness gives that both are in the list, and neither twice.
pub fn move_before(q: JobList, x: u8, y: u8) -> JobList
    requires count_bound { q.count ≤ 32 }
    requires fact { x ≡ y → ⊥ }
    requires q_value { (times_in x (list_of q) ≡ 1) × (times_in y (list_of q) ≡ 1) }
    ensures { result ≡ listed (move_before x y (list_of q)) }
{
    let mut jobs = [0u8; 32];
    let mut m: usize = 0;
    for &z in q.numbers() {
        if z != x {
            if z == y {
                jobs[m] = x;
                m += 1;
            }
            jobs[m] = z;
            m += 1;
        }
    }
    JobList {
        jobs,
        count: q.count,
    }
}
