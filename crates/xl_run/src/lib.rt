//! What a run of a script begins with, a core on its document and for each session a desk with its filters, and what
//! comes out of it: the printed text of the history, or why a session ended before its last line.
#![tactic(auto)]

mod desk;
mod opening;
mod printing;
mod unplayed;

pub use desk::{desk_of, first_boxes};
pub use opening::open_core;
pub use printing::{asks_tile, each_entry_is_printed, order_words, print_history};
pub use unplayed::Unplayed;
pub use xl_core::{Begun, Core, Desk, Entry, EntryKind, SaveEnd, next_id_of};
