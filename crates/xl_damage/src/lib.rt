//! What an edit can change of which pictures.
//!
//! The list has pairs of a stack and a rectangle of its picture, cut to the canvas. Outside them no stack that is in
//! both documents shows anything else, which is the law of `spec_damage`. No picture is made to find it.
#![tactic(auto)]

mod pairs;

pub use pairs::{damage_before, damage_between};
pub use xl_calls::Edit;
pub use xl_doc::{Document, NodeId, Rect};
