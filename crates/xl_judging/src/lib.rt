//! What a printed reply is judged by: the calls of a script, shares of the versions that printed peeks show, and
//! whether a printed reply and its digest are right.
#![tactic(auto)]

mod calls;
mod judging;
mod same;
mod versions;

pub use calls::{SessionCalls, call_at, script_calls};
pub use judging::{end_fits, is_printed, is_printed_without_digest, peek_fits, shows_version};
pub use versions::{Versions, wanted_versions};
pub use xl_printed::{Audit, MAX_SOURCE_BYTES, Output, Printed, read_shaped, split_source};
