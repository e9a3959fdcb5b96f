//! What a session brings to its calls, and what it is answered and shown.
//!
//! A [`Desk`] has the filters of a session and the room for the tile that it is handed. [`ask_filters`] asks them for a
//! group of edits, [`show`] and [`look`] hand a tile out.
#![tactic(auto)]

mod answered;
mod asking;
mod bytes;
mod desk;
mod tile;

pub use answered::{Answered, is_named, without_filters};
pub use asking::{ask_filters, blank_table, blank_tables, filter_count, table_for};
pub use bytes::know_table;
pub use desk::Desk;
pub use tile::{has_stack, has_tile, is_tile_marked, look, show};
pub use xl_cache::Cache;
pub use xl_calls::{Call, Edit, Reply};
