//! Talks over a document: lines of sessions that come one by one, each of which is answered before the next is read.
#![tactic(auto)]

mod beginning;
mod calls;
mod ends;
mod lines;
mod saves;
mod server;
mod talking;
mod windows;

pub use ends::TalkEnd;
pub use server::Server;
pub use talking::{answer_all, close};
