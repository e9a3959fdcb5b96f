//! The edits of pixels: fills, writes, copies and filters, of a layer, of its mask or of a channel, through the selection.
//!
//! Each call is one edit of one rectangle. After a refusal and after out of memory the document is as before.
#![tactic(auto)]

mod alpha;
mod channel_filling;
mod filling;
mod filtering;
mod mixing;
mod painting;
mod pixels;
mod places;
mod refused;
mod weighing;

pub use channel_filling::fill_channel;
pub use filtering::filter;
pub use pixels::{copy_rect, fill, fill_mask, write};
pub use refused::EditRefusedOrMemory;
pub use spec_edit::EditRefused;
pub use xl_doc::{Document, NodeId, Rect};
pub use xl_filters::Table;
