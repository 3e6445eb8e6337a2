// One field of a state changed, by its name. The numbers behind the name say which place, then what it becomes:
//
//     clock X, ticket X, turn X                       of the state
//     transports X, destinations X, home D X          of the set-up
//     agents T X, cost T X, .., suspension T X        of transport T's settings; positive and negative are percents
//     live D WINDOW SUCCESS FAILURE COHORTS           a destination's health
//     dead D END
//     busytransport T X, busydestination D X          busy counts
//     queue T PLACE J, queuecount T X                 a transport's list
//     arrivals PLACE J, arrivalscount X               the arrival order
//     present J X, transport J X, n J X, ..           of a job; jobturn is its turn
//     order PLACE X                                   job J's destination order begins at 32 times J
//     kind E X, job E X, destination E X, stamp E X   of an entry; stamp is its ticket
//
// A place past the end stands for the last one, and of a number that is too large the low bits.
use lines::text::{at_most, word};
use rules::{Busy, Destination, Entries, Health, JobList, Jobs, Settings, Setup, State, Sums};

// The state with that field changed; none where no field has the name.
pub fn changed(field: &[u8], w: &[u64], mut s: State) -> Option<State> {
    let known = change_state(field, word(w, 0), &mut s)
        || change_setup(field, w, &mut s.setup)
        || change_settings(
            field,
            word(w, 1),
            &mut s.setup.settings[at_most(word(w, 0), 3)],
        )
        || change_destination(field, w, &mut s.destinations[at_most(word(w, 0), 31)])
        || change_busy(field, w, &mut s.busy)
        || change_queue(field, w, &mut s.queues[at_most(word(w, 0), 3)])
        || change_arrivals(field, w, &mut s.arrivals)
        || change_job(field, w, &mut s.jobs)
        || change_entry(field, w, &mut s.entries);
    known.then_some(s)
}

// Each of these changes one of its fields, and answers whether one has that name.

fn change_state(field: &[u8], x: u64, s: &mut State) -> bool {
    match field {
        b"clock" => s.clock = low_32(x),
        b"ticket" => s.ticket = low_32(x),
        b"turn" => s.turn = low_8(x),
        _ => return false,
    }
    true
}

fn change_setup(field: &[u8], w: &[u64], u: &mut Setup) -> bool {
    let x = word(w, 0);
    match field {
        b"transports" => u.transports = x,
        b"destinations" => u.destinations = x,
        b"home" => u.home[at_most(x, 31)] = word(w, 1),
        _ => return false,
    }
    true
}

fn change_settings(field: &[u8], x: u64, g: &mut Settings) -> bool {
    match field {
        b"agents" => g.agents = x,
        b"cost" => g.cost = x,
        b"loan" => g.loan = x,
        b"discount" => g.discount = x,
        b"minimum" => g.minimum = x,
        b"limit" => g.limit = x,
        b"initial" => g.initial = x,
        b"positive" => g.positive.percent = x,
        b"positiveform" => g.positive.form = x,
        b"negative" => g.negative.percent = x,
        b"negativeform" => g.negative.form = x,
        b"cohortlimit" => g.cohortlimit = x,
        b"suspension" => g.suspension = x,
        _ => return false,
    }
    true
}

fn change_destination(field: &[u8], w: &[u64], d: &mut Destination) -> bool {
    d.health = match field {
        b"live" => Health::Live(Sums {
            window: word(w, 1),
            success: word(w, 2),
            failure: word(w, 3),
            cohorts: word(w, 4),
        }),
        b"dead" => Health::Dead(word(w, 1)),
        _ => return false,
    };
    true
}

fn change_busy(field: &[u8], w: &[u64], b: &mut Busy) -> bool {
    let x = low_16(word(w, 1));
    match field {
        b"busytransport" => b.transport[at_most(word(w, 0), 3)] = x,
        b"busydestination" => b.destination[at_most(word(w, 0), 31)] = x,
        _ => return false,
    }
    true
}

// With no number at all the list stays.
fn change_queue(field: &[u8], w: &[u64], q: &mut JobList) -> bool {
    let Some((_, w)) = w.split_first() else {
        return matches!(field, b"queue" | b"queuecount");
    };
    change_list(field, b"queue", b"queuecount", w, q)
}

fn change_arrivals(field: &[u8], w: &[u64], l: &mut JobList) -> bool {
    change_list(field, b"arrivals", b"arrivalscount", w, l)
}

fn change_job(field: &[u8], w: &[u64], g: &mut Jobs) -> bool {
    let j = at_most(word(w, 0), 31);
    let x = word(w, 1);
    match field {
        b"present" => g.present[j] = x != 0,
        b"transport" => g.transport[j] = low_8(x),
        b"n" => g.n[j] = low_16(x),
        b"picked" => g.picked[j] = low_16(x),
        b"dropped" => g.dropped[j] = low_16(x),
        b"sold" => g.sold[j] = low_16(x),
        b"parent" => g.parent[j] = low_8(x),
        b"preempted" => g.preempted[j] = x != 0,
        b"arrival" => g.arrival[j] = low_32(x),
        b"overtakers" => g.overtakers[j] = low_32(x),
        b"jobturn" => g.turn[j] = low_8(x),
        b"places" => g.places[j] = low_8(x),
        b"order" => g.order[at_most(word(w, 0), 1023)] = low_8(x),
        _ => return false,
    }
    true
}

fn change_entry(field: &[u8], w: &[u64], e: &mut Entries) -> bool {
    let i = at_most(word(w, 0), 511);
    let x = word(w, 1);
    match field {
        b"kind" => e.kind[i] = low_8(x),
        b"job" => e.job[i] = low_8(x),
        b"destination" => e.destination[i] = low_8(x),
        b"stamp" => e.ticket[i] = low_32(x),
        _ => return false,
    }
    true
}

fn change_list(field: &[u8], places: &[u8], count: &[u8], w: &[u64], l: &mut JobList) -> bool {
    if field == places {
        l.jobs[at_most(word(w, 0), 31)] = low_8(word(w, 1));
    } else if field == count {
        l.count = low_8(word(w, 0));
    } else {
        return false;
    }
    true
}

// The low bits of a number.

fn low_8(x: u64) -> u8 {
    (x % 256) as u8
}

fn low_16(x: u64) -> u16 {
    (x % 65536) as u16
}

fn low_32(x: u64) -> u32 {
    (x % 4294967296) as u32
}
