//! An image that several sessions edit beside each other, each in a thread of the caller's own.
//!
//! A [`SharedEditor`] keeps an image with its history, as an [`xcf::Editor`] does, and the shelf on which it is saved. Each of its
//! [`Session`]s makes its calls in turns with the others, in the words of an editor. No call has a `requires`.
#![tactic(auto)]

mod asking;
mod errors;
mod replies;
mod saving;
mod session;
mod shared;
mod shown;

pub use errors::{NoSession, NotSaved, NotShared};
pub use session::Session;
pub use shared::SharedEditor;
pub use shown::Shown;
pub use xl_ports::Shelf;
