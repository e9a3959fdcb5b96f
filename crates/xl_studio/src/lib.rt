//! A document that sessions edit side by side.
//!
//! A [`Studio`] keeps a core under a lock that is entered in turns, and each call of a session is one hold of the turn.
//! A [`Seat`] knows a beginning of the one history, its front, and which entries it made.
#![tactic(auto)]

mod calls;
mod jobs;
mod moment;
mod opening;
mod refreshing;
mod saving;
mod seat;
mod shared;
mod shifts;
mod taking;

pub use moment::Moment;
pub use seat::{Seat, Studio};
pub use shared::Shared;
pub use taking::Taking;
pub use xl_calls::{Group, NodeId, Reply, TileAt};
pub use xl_core::{Core, Desk, Entry, EntryKind, JobDesk, Taken};
pub use xl_shifts::Shift;
