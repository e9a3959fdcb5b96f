//! A document from the bytes of a file, or the first fault of the file.
#![tactic(auto)]

mod channel;
mod channel_head;
mod document_fields;
mod draft;
mod file;
mod head;
mod header;
mod kept;
mod layer;
mod listing;
mod lists;
mod mask;
mod owners;
mod placing;
mod sums;
mod words;

pub use file::{decode, decode_beside};
pub use header::is_side;
pub use spec_file::FILE_LIMIT;
pub use xl_fields::{Kind, ReadRefused, ReadRefusedOrMemory};
