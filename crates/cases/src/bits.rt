// What a state holds, field by field: the numbers of a field joined by `|`, so that 0 says that each of them is 0.
use lines::answer;
use rules::{Busy, Destination, Entries, Feedback, Health, JobList, Jobs, Settings, Setup, State};

// A number for each field, in the order of the type.
pub fn put_bits(out: &mut [u8], s: State) -> usize {
    let fields = [
        of_setup(s.setup),
        u64::from(s.clock),
        u64::from(s.ticket),
        u64::from(s.turn),
        s.destinations.iter().fold(0, |x, &d| x | of_destination(d)),
        of_busy(s.busy),
        s.queues.iter().fold(0, |x, &q| x | of_list(q)),
        of_list(s.arrivals),
        of_jobs(s.jobs),
        of_entries(s.entries),
    ];
    let mut at = answer::put(out, 0, b"bits");
    for x in fields {
        at = answer::put_number(out, at, x);
    }
    answer::put_byte(out, at, b'\n')
}

fn of_setup(u: Setup) -> u64 {
    let settings = u.settings.iter().fold(0, |x, &g| x | of_settings(g));
    settings | u.transports | u.destinations | of(&u.home)
}

fn of_settings(g: Settings) -> u64 {
    let a = g.agents | g.cost | g.loan | g.discount | g.minimum | g.limit | g.initial;
    a | of_feedback(g.positive) | of_feedback(g.negative) | g.cohortlimit | g.suspension
}

fn of_feedback(f: Feedback) -> u64 {
    f.percent | f.form
}

// A dead one is never 0.
fn of_destination(d: Destination) -> u64 {
    match d.health {
        Health::Live(u) => u.window | u.success | u.failure | u.cohorts,
        Health::Dead(end) => end | 1,
    }
}

fn of_busy(b: Busy) -> u64 {
    of(&b.transport) | of(&b.destination)
}

fn of_list(l: JobList) -> u64 {
    of(&l.jobs) | u64::from(l.count)
}

fn of_jobs(g: Jobs) -> u64 {
    let a = of(&g.present) | of(&g.preempted);
    let b = of(&g.transport) | of(&g.parent) | of(&g.turn) | of(&g.places) | of(&g.order);
    let c = of(&g.n) | of(&g.picked) | of(&g.dropped) | of(&g.sold);
    a | b | c | of(&g.arrival) | of(&g.overtakers)
}

fn of_entries(e: Entries) -> u64 {
    of(&e.kind) | of(&e.job) | of(&e.destination) | of(&e.ticket)
}

// The numbers of a column.
fn of<T: Copy + Into<u64>>(column: &[T]) -> u64 {
    let mut x = 0;
    for &n in column {
        x |= n.into();
    }
    x
}
