//! What sessions ask and are answered: edits, calls and replies.
//!
//! `specs/` has what each of these types means in the definitions.
#![tactic(auto)]

mod call;
mod edit;
mod edit_list;
mod reply;

pub use call::{Call, Group};
pub use edit::Edit;
pub use edit_list::Edits;
pub use reply::Reply;
pub use spec_document::{Rect, TileAt};
pub use spec_edit::EditRefused;
pub use xl_props::Bytes;
pub use xl_tree::NodeId;
