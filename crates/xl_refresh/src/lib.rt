//! Workers: they take jobs of a desk, compose their pictures beside the edits, and hand them in.
#![tactic(auto)]

mod worker;

pub use worker::{WorkEnd, Worked, work};
