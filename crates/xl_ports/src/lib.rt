//! The outside as the engine sees it: a source of bytes, a sink for bytes, a shelf of files, and a gate that sessions
//! and workers pass.
//!
//! Each but the gate is a trait with a count of its faults, so that whoever calls it can say that a failure was the
//! outside's. What it holds is known where the implementation says so, as those in memory do. Here are also the loops
//! over these calls that take all the bytes.
#![tactic(auto)]

mod failed;
mod gate;
mod loading;
mod reading;
mod room;
mod shelf;
mod sink;
mod source;
mod writing;

pub use failed::{Failed, FailedOrMemory};
pub use gate::{Actor, Gate, Place};
pub use loading::load_all;
pub use reading::read_all;
pub use shelf::Shelf;
pub use sink::Sink;
pub use source::Source;
pub use writing::write_all;
