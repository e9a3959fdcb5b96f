//! The history of a document, which is a list of entries, and what is done beside calls: a save, and the composing of
//! tiles elsewhere.
//!
//! A contract sees a document with its history and its shelf as an `Editing` of `specs`, which `xl_core` keeps.
#![tactic(auto)]

mod entry;
mod jobs;
mod past;
mod saving;
mod tally;

pub use entry::{Entry, EntryKind};
pub use jobs::{JobDesk, JobSource, Taken};
pub use past::Past;
pub use saving::{Begun, ShelfPlace, owed_in, reply_to_end};
pub use spec_cache::Finished;
pub use spec_world::SaveEnd;
pub use tally::Tally;
pub use xl_compose::{Done, Job, Picture, compose};
