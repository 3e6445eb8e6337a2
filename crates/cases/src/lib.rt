// What the program `boundaries` reads, changes, shows and lends: the lines of its cases, a field of a state changed by its name, the fields of a state,
// and the lent buffers.
#![tactic(auto)]

pub mod bits;
pub mod change;
pub mod lent;
pub mod reading;
