//! The lines that tell what the sessions of a script were answered, and in which order.
#![tactic(auto)]

mod printing;

pub use printing::{print_order, print_reply};
pub use spec_text::OrderWord;
