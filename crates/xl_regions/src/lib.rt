//! Rectangles of pictures: what a node covers of the canvas, and in which pictures a rectangle shows.
#![tactic(auto)]

mod cutting;
mod stacks;

pub use cutting::{extent, node_part};
pub use stacks::{add_region, bottom_visible, same_id, stack_of};
pub use xl_doc::{Document, NodeId, Rect};
