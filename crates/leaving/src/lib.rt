// Document 01, "Every job then without a waiting or busy entry leaves": who stays after a report, and who adopts the children of those that leave.
#![tactic(auto)]

ghost use Rattle.std.specs.Prelude.{◌≡◌, true, false, ℕ, ◌<◌, get_or, eqb, MatchOption};
ghost use Rattle.laws.specs.Range.{any_to, table_to};
ghost use Rattle.rules.specs.State.{at};
ghost use Rattle.charging.specs.Links.{leads_inside};
ghost use Rattle.leaving.specs.Leaving.{used_at, stays_at, elsewhere, emptied, OthersStay, nearest_of, adopted_at};

// Whether job j has a waiting or busy entry: a pass without branches over two columns of bytes, which the compiler turns into vector instructions.
fn has_entry(kind: &[u8; 512], job: &[u8; 512], j: u8) -> bool
    ensures { result ≡ any_to (used_at kind.now job.now j) 512 }
{
    let mut any = false;
    for e in 0..512 {
        any |= (kind[e] != 0) & (job[e] == j);
    }
    any
}

// An entry of job j waits for a destination other than d, by the table of the soundness test: without branches, too.
fn waits_elsewhere(pairs: &[u16; 1024], j: usize, d: u8) -> bool
    requires { j < 32 }
    ensures { result ≡ any_to (elsewhere pairs.now d j) 32 }
{
    let mut any = false;
    for x in 0..32 {
        any |= (0 < pairs[32 * j + x]) & (x != d as usize);
    }
    any
}

// Job j may be left without an entry where destination d dies at a report of an entry of the job `of`: it loses one, and none of its waits elsewhere.
fn may_be_empty(pairs: &[u16; 1024], j: usize, d: u8, of: u8) -> bool
    requires { (j < 32) × (d < 32) }
    ensures { result ≡ emptied pairs.now d of j }
{
    (0 < pairs[32 * j + usize::from(d)] || j == usize::from(of)) && !waits_elsewhere(pairs, j, d)
}

// Which of the present jobs stay where destination d died: only those that may be left without an entry are looked at.
fn left_with_some(
    kind: &[u8; 512],
    job: &[u8; 512],
    pairs: &[u16; 1024],
    present: [bool; 32],
    d: u8,
    of: u8,
) -> [bool; 32]
    requires { (d < 32) × OthersStay (emptied pairs.now d of) kind.now job.now present }
    ensures { result ≡ table_to (stays_at kind.now job.now present 512) 32 }
{
    let mut stays = present;
    for j in 0..32 {
        if may_be_empty(pairs, j, d, of) {
            stays[j] = present[j] && has_entry(kind, job, j as u8);
        }
    }
    stays
}

// Which of the present jobs stay after a report of an entry of the job `of`. Where its destination did not die, no other job has lost an entry, and
// only this one is looked at.
pub fn staying(
    kind: &[u8; 512],
    job: &[u8; 512],
    pairs: &[u16; 1024],
    present: [bool; 32],
    dead: Option<u8>,
    of: u8,
) -> [bool; 32]
    requires { (of < 32) × MatchOption dead (OthersStay (λ j. eqb j of) kind.now job.now present)
        (λ d. (d < 32) × OthersStay (emptied pairs.now d of) kind.now job.now present) }
    ensures { result ≡ table_to (stays_at kind.now job.now present 512) 32 }
{
    if let Some(d) = dead {
        return left_with_some(kind, job, pairs, present, d, of);
    }
    let j = usize::from(of);
    let mut stays = present;
    stays[j] = present[j] && has_entry(kind, job, of);
    stays
}

// The link to the nearest job of a chain that stays, 0 for none, as the column of parents has it. At most 32 steps.
fn nearest(stays: &[bool; 32], parent: &[u8; 32], mut link: u8) -> u8
    requires { leads_inside (at parent.now) 32 link ≡ true }
    ensures { result ≡ nearest_of stays.now parent.now link }
{
    for _ in 0..32u8 {
        if link == 0 {
            return 0;
        }
        let j = usize::from(link) - 1;
        if stays[j] {
            return link;
        }
        link = parent[j];
    }
    0
}

// The parents after the others have left: "Its children pass to the nearest ancestor that stays, or to none".
pub fn adopt(stays: &[bool; 32], parent: &[u8; 32]) -> [u8; 32]
    requires { (j : ℕ) → j < 32 → get_or stays.now j false ≡ true → leads_inside (at parent.now) 32 (at parent.now j) ≡ true }
    ensures { result ≡ table_to (adopted_at stays.now parent.now) 32 }
{
    let mut next = *parent;
    for j in 0..32 {
        if stays[j] {
            next[j] = nearest(stays, parent, parent[j]);
        }
    }
    next
}
