// Document 01, "Sound means", the clauses of jobs and of destinations, each over the columns that it reads. The clause of the entries is the
// crate `counting`, those of the lists `listing`; `soundness` joins them.
#![tactic(auto)]

pub mod destinations;
pub mod jobs;
