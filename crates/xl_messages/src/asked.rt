//! What the arguments ask for, and the name of its file.
use std::alloc::{AllocError, Global};
use xl_command::{Command, command_of, served_file};

/// A command that comes to its end by itself, or a talk over a file.
#[derive(Clone, Copy)]
pub enum Asked<'a> {
    Command(Command<'a>),
    Serve(&'a str),
}

/// What the arguments ask for, if they are in order.
pub fn asked_of<'a>(alloc: Global, words: &'a [&'a str]) -> Result<Option<Asked<'a>>, AllocError> {
    if let Some(command) = command_of(alloc, words)? {
        return Ok(Some(Asked::Command(command)));
    }
    match served_file(alloc, words)? {
        Some(name) => Ok(Some(Asked::Serve(name))),
        None => Ok(None),
    }
}

// The name of a command's file.
fn file_of_command(command: Command<'_>) -> &str {
    match command {
        Command::Edit(name, _) | Command::Make(name, _) => name,
        Command::Render(name) | Command::Flatten(name) | Command::Audit(name) => name,
        Command::Info(name, _) | Command::Pack(name, _) | Command::View(name, _, _) => name,
    }
}

/// The name of the file.
pub fn file_of(asked: Asked<'_>) -> &str {
    match asked {
        Asked::Command(command) => file_of_command(command),
        Asked::Serve(name) => name,
    }
}
