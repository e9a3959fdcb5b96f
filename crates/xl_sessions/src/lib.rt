//! Sessions of a script and workers beside each other over a studio, and the text of what they did.
#![tactic(auto)]

mod beside;
mod joining;
mod played;
mod players;
mod seating;
mod session;
mod setting;
mod threads;

pub use beside::{PlayedBeside, play_beside};
pub use setting::Setting;
pub use xl_report::digest;
pub use xl_run::{
    Unplayed, desk_of, each_entry_is_printed, first_boxes, order_words, print_history,
};
