//! What a command comes to: what it writes, what becomes of its file, why it stops, and the line and the status of a stop.
#![tactic(auto)]

mod ended;
mod line;
mod stop_lines;
mod stopped;

pub use ended::CommandEnd;
pub use line::write_line;
pub use stop_lines::{BAD_SOURCE, MEMORY, SHELF_FAULT, SINK_FAULT, SOURCE_FAULT, write_stop};
pub use stopped::Stopped;
pub use xl_printed::Rejection;
