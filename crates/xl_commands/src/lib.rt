//! The commands that play no sessions beside each other, and what the others do before and after they play.
//!
//! `render`, `describe`, `pack`, `flatten`, `view` and `audit` each do one command on the file of a name.
//! `read_document` reads such a file, `read_script` a script from the source, and `made_with_file` makes the document
//! and the script of a seed. `write_replies` writes what is told of a run, and `sum_up` sums one up.
#![tactic(auto)]

mod auditing;
mod describing;
mod ended;
mod flattening;
mod loading;
mod made;
mod packing;
mod rendering;
mod replies;
mod scripts;
mod viewed_scripts;
mod viewing;

pub use auditing::audit;
pub use describing::describe;
pub use ended::{DONE, Ended, USAGE};
pub use flattening::flatten;
pub use loading::read_document;
pub use made::{made_with_file, save_first};
pub use packing::pack;
pub use rendering::render;
pub use replies::{sum_up, write_replies};
pub use scripts::read_script;
pub use viewing::view;
pub use xl_outcome::{
    BAD_SOURCE, CommandEnd, MEMORY, Rejection, SHELF_FAULT, SINK_FAULT, SOURCE_FAULT, Stopped,
    write_line, write_stop,
};
pub use xl_play::{Core, Played, Viewing, is_alone, know_eight, open_core, play_alone, replies_of};
pub use xl_report::Made;
