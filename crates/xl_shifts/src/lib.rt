//! Threads that have many calls to make: each makes some of them in a row, and the others sleep meanwhile.
#![tactic(auto)]

mod shifts;

pub use shifts::{Shift, Shifts};
