//! What a group of edits, its undo or its redo does to the pictures that are kept.
//!
//! A [`Change`] is made when the group is accepted, with all the memory that it takes to go there and back any number
//! of times.
#![tactic(auto)]

mod change;
mod damage;

pub use change::Change;
pub use damage::Damage;
pub use xl_cache::Cache;
pub use xl_calls::Edit;
pub use xl_doc::{Document, NodeId, Rect};
pub use xl_pool::first_cache;
