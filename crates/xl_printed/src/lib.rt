//! Printed outputs, read back into replies and the words of their order, and the source that an audit reads one from.
#![tactic(auto)]

mod answers;
mod causes;
mod lines;
mod merging;
mod order;
mod output;
mod pieces;
mod printed;
mod reading;
mod replies;
mod shape;
mod source;

pub use answers::{Rejection, rejection_of, verdict_line};
pub use output::{Output, read_output};
pub use printed::{Printed, SessionReplies};
pub use reading::{Audit, Unread, read_audit};
pub use replies::read_reply;
pub use shape::read_shaped;
pub use source::split_source;
pub use spec_audit::MAX_SOURCE_BYTES;
