//! The arguments of the program, read by clap: eight commands and `serve`, each with the name of a file.
//!
//! Each command is a simple command of clap's own, picked by the first argument.
#![tactic(auto)]

mod command;
mod grammar;
mod reading;

pub use command::Command;
pub use reading::{command_of, served_file};
