// Document 01, "Sound means", the clauses of the lists, each over the columns that it reads: "its destination order names no destination twice"; "each
// transport's list holds its present jobs once each; arrival ranks run from 0 without gap".
#![tactic(auto)]

pub mod orders;
pub mod queues;
