//! XCF images in the system's files: an image or an editor of a file, and a document saved under a path.
//!
//! The errors have what the system said. Who saves elsewhere, as in memory, takes a shelf of `xl_ports`.
#![tactic(auto)]

mod errors;
mod opening;
mod saving;

pub use errors::Failure;
pub use opening::{edit_file, open_file};
pub use saving::save_file;
pub use xl_real::{FileShelf, ShelfError};
