// What a new job is made of: its destinations parted, the places of its entries and their columns, its order, and its place in the lists.
#![tactic(auto)]

ghost use Rattle.std.specs.Prelude.{◌≡◌, [], ◌∷◌, ◌++◌, ℕ, ◌*◌, ◌≤◌, ◌<◌, length};
ghost use Rattle.std.proofs.Math.Seq.{paste};
ghost use Rattle.laws.specs.Range.{count_to, chosen_to};
ghost use Rattle.laws.specs.Sequence.{padded};
ghost use Rattle.rules.specs.State.{at, list_of, listed};
ghost use Rattle.rules.specs.Taking.{filled, new_order, new_jobs};
ghost use Rattle.admission.specs.Admission.{free_in};
ghost use Rattle.newjob.specs.NewJob.{Parted};

use rules::{JobList, Jobs};

// The destinations of those that wait, in job order with zeros behind; how many they are, and how many are put off.
#[derive(Drop)]
pub struct Parts {
    pub kept: [u8; 256],
    pub n: u16,
    pub putoff: u16,
}

// A job's destination order, zeros behind it.
#[derive(Drop)]
pub struct Order {
    pub places: [u8; 32],
    pub count: u8,
}

// The destinations parted by the table of the dead; the positions of the dead are written to the list.
pub fn split(dests: &[u64], dead: &[bool; 32], list: &mut [u16]) -> Parts
    requires by_index { (k : ℕ) → k < length dests.now → at dests.now k < 32 }
    requires dests_len_bound { (length dests.now ≤ 256) × (length dests.now ≤ length list.old) }
    ensures { Parted dead.now dests.now list.old list.new result }
{
    let mut kept = [0u8; 256];
    let mut n: usize = 0;
    let mut m: usize = 0;
    for (i, &d) in dests.iter().enumerate() {
        if dead[d as usize] {
            list[m] = i as u16;
            m += 1;
        } else {
            kept[n] = d as u8;
            n += 1;
        }
    }
    Parts {
        kept,
        n: n as u16,
        putoff: m as u16,
    }
}

// The n lowest free places. There are so many, by test 8.
pub fn free_places(kind: &[u8; 512], n: usize) -> [u16; 256]
    requires { (n ≤ 256) × (n ≤ count_to (free_in kind.now) 512) }
    ensures { (i : ℕ) → i < n → at result i ≡ at (chosen_to (free_in kind.now) 512) i }
{
    let mut places = [0u16; 256];
    let mut m: usize = 0;
    for (e, &k) in kind.iter().enumerate() {
        if m == n {
            break;
        }
        if k == 0 {
            places[m] = e as u16;
            m += 1;
        }
    }
    places
}

// Each value at its place.
pub fn fill(column: &mut [u8; 512], places: &[u16], values: &[u8])
    requires places { (i : ℕ) → i < length places.now → at places.now i < 512 }
    requires lengths { length values.now ≡ length places.now }
    ensures { column.new ≡ filled places.now (at values.now) (length places.now) column.old }
{
    for (&e, &v) in places.iter().zip(values) {
        column[usize::from(e)] = v;
    }
}

// The destinations, each where it first appears. They are below 32, so a table says which were seen.
pub fn firsts(kept: &[u8]) -> Order
    requires { (i : ℕ) → i < length kept.now → at kept.now i < 32 }
    ensures { (result.places ≡ padded 32 (new_order kept.now)) × (result.count ≡ length (new_order kept.now)) }
{
    let mut seen = [false; 32];
    let mut places = [0u8; 32];
    let mut m: usize = 0;
    for &d in kept {
        if !seen[d as usize] {
            seen[d as usize] = true;
            places[m] = d;
            m += 1;
        }
    }
    Order {
        places,
        count: m as u8,
    }
}

// A job's places in the column of orders, written anew.
pub fn set_order(column: &mut [u8; 1024], j: u8, order: &[u8; 32])
    requires { j < 32 }
    ensures { column.new ≡ paste column.old (32 * j) order.now 32 }
{
    let start = 32 * (j as usize);
    column[start..start + 32].copy_from_slice(order);
}

// The columns of the jobs with the row of a new one, number j, with an entry for each of these destinations.
pub fn new_row(g: Jobs, j: u8, t: u8, kept: &[u8], clock: u32) -> Jobs
    requires { (j < 32) × (length kept.now ≤ 256) × ((i : ℕ) → i < length kept.now → at kept.now i < 32) }
    ensures { result ≡ new_jobs g j t clock kept.now }
{
    let order = firsts(kept);
    let k = j as usize;
    let mut next = g;
    next.present[k] = true;
    next.transport[k] = t;
    next.n[k] = kept.len() as u16;
    next.picked[k] = 0;
    next.dropped[k] = 0;
    next.sold[k] = 0;
    next.parent[k] = 0;
    next.preempted[k] = false;
    next.arrival[k] = clock;
    next.overtakers[k] = 0;
    next.turn[k] = 0;
    next.places[k] = order.count;
    set_order(&mut next.order, j, &order.places);
    next
}

// A list of fewer than 32 with j behind it. Its array has 32 places, so its count is below 32 too.
pub fn put_last(q: JobList, j: u8) -> JobList
    requires { (q.count ≤ 32) × (length (list_of q) < 32) }
    ensures { result ≡ listed (list_of q ++ (j ∷ [])) }
{
    lists::append(q, j)
}
