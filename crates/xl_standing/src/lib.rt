//! What stands after the calls of a run: a document, what can be undone and redone of it, and the pictures of tiles
//! that are kept.
//!
//! A contract sees a [`Standing`] as what stands in the machine of `spec_history` after the calls that were answered,
//! with a cache of `spec_cache`. It has no list of what was done: who answers calls with it keeps that, or has it
//! printed.
#![tactic(auto)]

mod group;
mod made;
mod next_id;
mod painting;
mod standing;
mod step;

pub use group::{GroupRefusedOrMemory, MadeGroup, try_group};
pub use next_id::next_id_of;
pub use spec_history::MAX_ENTRIES;
pub use standing::Standing;
pub use step::Step;
pub use xl_desk::{Answered, Cache, Call, Desk, Reply, has_stack, has_tile, know_table};
pub use xl_marks::first_cache;
pub use xl_undo::Trail;
