//! What an edit that was not made yet can change of which pictures: it is tried on a share of the document.
#![tactic(auto)]

mod accepted;

pub use accepted::damage;
pub use xl_calls::Edit;
pub use xl_doc::{Document, NodeId, Rect};
