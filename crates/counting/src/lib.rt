// Document 01, "Sound means": each used entry, and the counts of the entries that the other clauses speak of. One pass over the entries, with tables.
#![tactic(auto)]

ghost use Rattle.std.specs.Prelude.{◌≡◌, ℕ, ◌+◌, ◌*◌, ◌≤◌, ◌<◌, length, sum, is_some};
ghost use Rattle.laws.specs.Range.{sum_to};
ghost use Rattle.rules.specs.State.{at};
ghost use Rattle.counting.specs.Counting.{belongs_at, columns, RightCounts, no_pairs, Pairs};

// What the pass over the entries counts: waiting and busy entries of each job, waiting and busy ones to each destination, busy ones on each
// transport.
#[derive(Drop)]
pub struct EntryCounts {
    pub waiting: [u16; 32],
    pub busy: [u16; 32],
    pub held: [u16; 32],
    pub to: [u16; 32],
    pub on: [u16; 4],
}

fn row_sum(row: &[u16]) -> u16
    requires { sum row.now ≤ 65535 }
    ensures { result ≡ sum row.now }
{
    row.iter().sum()
}

// The sum of each row of 32 of the table.
fn row_sums(table: &[u16; 1024]) -> [u16; 32]
    requires { (j : ℕ) → j < 32 → sum_to (λ d. at table.now (32 * j + d)) 32 ≤ 65535 }
    ensures size { length result ≡ 32 }
    ensures sums { (j : ℕ) → j < 32 → at result j ≡ sum_to (λ d. at table.now (32 * j + d)) 32 }
{
    let mut sums = [0u16; 32];
    for j in 0..32 {
        sums[j] = row_sum(&table[32 * j..32 * j + 32]);
    }
    sums
}

// Adds row j of the table to the sums.
fn add_row(table: &[u16; 1024], j: usize, sums: &mut [u16; 32])
    requires j_bound { j < 32 }
    requires by_index { (d : ℕ) → d < 32 → at sums.old d + at table.now (32 * j + d) ≤ 65535 }
    ensures size { length sums.new ≡ 32 }
    ensures sums { (d : ℕ) → d < 32 → at sums.new d ≡ at sums.old d + at table.now (32 * j + d) }
{
    for d in 0..32 {
        sums[d] += table[32 * j + d];
    }
}

// The sum of each column.
fn column_sums(table: &[u16; 1024]) -> [u16; 32]
    requires { (d : ℕ) → d < 32 → sum_to (λ j. at table.now (32 * j + d)) 32 ≤ 65535 }
    ensures size { length result ≡ 32 }
    ensures sums { (d : ℕ) → d < 32 → at result d ≡ sum_to (λ j. at table.now (32 * j + d)) 32 }
{
    let mut sums = [0u16; 32];
    for j in 0..32 {
        add_row(table, j, &mut sums);
    }
    sums
}

// Whether an entry of job j to destination d is in its place: the job is present, on the destination's transport, and its order has the destination.
#[tactic(auto, unfolding(crate::specs::Counting::belongs_at))]
fn belongs(
    j: usize,
    d: usize,
    present: &[bool; 32],
    transport: &[u8; 32],
    home: &[u64; 32],
    destinations: usize,
    marked: &[bool; 8192],
) -> bool
    requires { destinations ≤ 32 }
    ensures { result
        ≡ belongs_at present.now transport.now home.now destinations marked.now j d }
{
    j < 32
        && d < destinations
        && present[j]
        && u64::from(transport[j]) == home[d]
        && marked[256 * j + d]
}

// One pass over the entries: whether each is free, or waiting or busy, of a present job whose order has its destination, on the destination's
// transport; if so, the counts. The table of zeros becomes that of the waiting entries of each job to each destination, d of job j at 32 * j + d; it is
// left as it came where an entry is not good.
pub fn count_entries(
    kind: &[u8; 512],
    job: &[u8; 512],
    destination: &[u8; 512],
    present: &[bool; 32],
    transport: &[u8; 32],
    home: &[u64; 32],
    destinations: usize,
    marked: &[bool; 8192],
    pairs: &mut [u16; 1024],
) -> Option<EntryCounts>
    requires destinations_bound { destinations ≤ 32 }
    requires by_index { (d : ℕ) → d < destinations → at home.now d < 4 }
    requires pairs_value { pairs.old ≡ no_pairs }
    ensures counts { RightCounts
        (columns
        kind.now
        job.now
        destination.now
        present.now
        transport.now
        home.now
        destinations
        marked.now)
        result }
    ensures pairs { Pairs (is_some result) kind.now job.now destination.now pairs.new }
{
    let mut busy = [0u16; 32];
    let mut to = [0u16; 32];
    let mut on = [0u16; 4];
    for e in 0..512 {
        let k = kind[e];
        if k == 0 {
            continue;
        }
        let j = usize::from(job[e]);
        let d = usize::from(destination[e]);
        let right = (k <= 2) & belongs(j, d, present, transport, home, destinations, marked);
        if !right {
            *pairs = [0u16; 1024];
            return None;
        }
        if k == 1 {
            pairs[32 * j + d] += 1;
        } else {
            busy[j] += 1;
            to[d] += 1;
            on[home[d] as usize] += 1;
        }
    }
    Some(EntryCounts {
        waiting: row_sums(pairs),
        busy,
        held: column_sums(pairs),
        to,
        on,
    })
}
