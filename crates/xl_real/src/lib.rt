//! The real devices: standard input, standard output, files by their paths, and a gate that holds nobody.
//!
//! The devices count their faults. What they hold is not known to contracts, and nothing of it is proved.
#![tactic(auto)]

mod drafts;
mod file_shelf;
mod open_gate;
mod places;
mod shelf_error;
mod stamps;
mod std_sink;
mod std_source;

pub use file_shelf::FileShelf;
pub use open_gate::OpenGate;
pub use shelf_error::ShelfError;
pub use stamps::read_regular;
pub use std_sink::StdSink;
pub use std_source::StdSource;
