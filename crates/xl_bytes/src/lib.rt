//! The bytes of a file in parts, most of which are shared with the file that was read.
#![tactic(auto)]

mod file_bytes;
mod part;
mod storing;

pub use file_bytes::FileBytes;
pub use part::Part;
