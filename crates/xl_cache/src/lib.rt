//! The pictures of the tiles of all stacks that are kept, and which of them no longer hold.
//!
//! Contracts see a [`Cache`] as the plain cache of `spec_cache`: the slots of each stack, by the ids of the stacks.
#![tactic(auto)]

mod cache;
mod held;
mod slot;
mod slots;
mod span;

pub use cache::Cache;
pub use slots::Slots;
pub use spec_cache::{Finished, MAX_STACKS};
