//! A document saved on a shelf.
//!
//! The file of a document is made with a coder of its planes, and put in the place of the selected one. What that makes
//! of the shelf is just what a core asks of one that comes back from a save.
#![tactic(auto)]

mod saving;

pub use saving::{file_of, save_document, save_file};
pub use xl_write::FileBytes;
