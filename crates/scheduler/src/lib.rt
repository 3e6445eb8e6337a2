// The scheduler that a relay links: its six calls, in the order of document 01, and `run`, which makes a list of them. Each takes any values whatever,
// tests them itself, and gives back what the rules give for them (rules/specs/Calls.antt). A refused call hands the state back as it came and writes to no
// buffer. That demand 3 holds of every list of calls: specs/Transcript.antt.
#![tactic(auto)]

// The state of a set-up.
pub use startup::set_up;

// A job, with an entry for each destination.
pub use taking::take_job;

// The next entry to deliver.
pub use picking::pick;

// The outcome of a delivery.
pub use reporting::report;

// How many entries ever preempted a job.
pub use asking::ask;

// The board text.
pub use asking::board;

// A list of calls: docs/RUN.md.
pub use running::{ROW, RunAnswer, RunEnd, run};
