//! A lock that is entered in the order of tickets, and whose value stands for a list of entries, the history of what
//! was done under it.
//!
//! A thread enters with its seat. A seat knows a beginning of the history, its front, and which of the entries it made.
#![tactic(auto)]

mod lock;
mod rule;
mod seat;
mod view;

pub use seat::{Held, TurnLock, TurnSeat};
pub use view::{Chronicle, Stage, View};
