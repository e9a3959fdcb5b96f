//! Sentences for people: why a command stopped, in the words of the field. Programs read the status and the lines of
//! the standard output, which these sentences never change.
#![tactic(auto)]

mod asked;
mod faults;
mod found;
mod idle_calls;
mod lines;
mod names;
mod packed;
mod replies;
mod stops;
mod watched_sink;
mod words;

pub use found::{FOUND_LEN, load_found};
pub use stops::{VERSION, message};
pub use watched_sink::WatchedSink;
