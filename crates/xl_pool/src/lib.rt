//! The stacks of a document, and slots for those that come and go.
//!
//! What a change of a document does to the cache of its pictures is `gone_along` of `spec_standing`, and the laws say what
//! that comes to.
#![tactic(auto)]

mod first;
mod laws;
mod pool;
mod stacks;
mod steps;

pub use first::first_cache;
pub use laws::{
    change_leads_back, damage_of_a_group, first_cache_is_its_own, gone_along_is_between,
};
pub use pool::Pool;
pub use stacks::stacks_that_came;
pub use steps::{add_stacks, drop_stacks};
pub use xl_cache::Cache;
