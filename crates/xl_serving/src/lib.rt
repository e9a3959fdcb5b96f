//! The command `serve`: a file is edited line by line, each line of the source answered to the sink before the next is
//! read, and saved where a line asks for it.
#![tactic(auto)]

mod closing;
mod serving;
mod talking;

pub use serving::serve;
pub use xl_commands::{Ended, Stopped};
