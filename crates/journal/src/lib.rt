// A journal of events (A1): what a record holds, what stands at an offset, and what a writer answers (A8).
#![tactic(auto)]

use rules::{Outcome, Refusal};

// A record: a kind, and its fields. Of a name its length stands here and its bytes in the journal; of a job how many
// destinations it has, which stand beside the answer.
#[derive(Drop)]
pub enum Record {
    Name {
        destination: u64,
        length: u64,
    },
    Job {
        clock: u64,
        transport: u64,
        count: u64,
    },
    Pick {
        clock: u64,
    },
    Report {
        clock: u64,
        entry: u64,
        ticket: u64,
        outcome: Outcome,
    },
}

// A record that is read, and the offset of the next.
#[derive(Drop)]
pub struct Whole {
    pub what: Record,
    pub next: usize,
}

// A record that is refused, with 12, 13 or 14, and its offset.
#[derive(Drop)]
pub struct Unreadable {
    pub refusal: Refusal,
    pub offset: usize,
}

// What stands at an offset: a record; at or past the end none; or a record that is refused. Beside it a job's destinations, with zeros
// behind them. Where no job is read, all are zeros.
#[derive(Drop)]
pub struct Reading {
    pub answer: Result<Option<Whole>, Unreadable>,
    pub destinations: [u64; 256],
}
