//! A script of session 0 alone that is played on an opened document, without threads, and the text of it.
//!
//! `play_alone` makes the calls and saves of the session straight on a core; `Viewing::view_script` those that save
//! nothing, each tile with those to its right and below. What is told of a run is the same where its sessions are played
//! beside each other.
#![tactic(auto)]

mod filters;
mod playing;
mod saving;
mod script_runs;
mod transcript;
mod viewing;
mod windows;

pub use filters::filter_counts;
pub use playing::{Replies, has_save_fault};
pub use script_runs::{Played, is_alone, know_eight, play_alone, replies_of};
pub use viewing::Viewing;
pub use xl_run::{Core, desk_of, next_id_of, open_core};
