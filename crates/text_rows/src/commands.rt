//! Arguments and their commands.
use std::alloc::{AllocError, Global};
use std::test::Fail;
use xl_command::{Command, command_of};

// The command that the arguments are, for tests that need none of its clauses.
fn command<'a>(alloc: Global, arguments: &'a [&'a str]) -> Result<Option<Command<'a>>, AllocError> {
    command_of(alloc, arguments)
}

/// Arguments, and the command that they are.
const ARGUMENTS: [(&'static [&'static str], Option<Command<'static>>); 9] = [
    (&["edit", "f"], Some(Command::Edit("f", 2))),
    (
        &["edit", "f", "--workers", "8"],
        Some(Command::Edit("f", 8)),
    ),
    (&["render", "f"], Some(Command::Render("f"))),
    (&["info", "--", "f"], Some(Command::Info("f", false))),
    (&["info", "--all", "f"], Some(Command::Info("f", true))),
    (&["make", "f", "--seed=7"], Some(Command::Make("f", 7))),
    (&["audit", "f"], Some(Command::Audit("f"))),
    // too many workers
    (&["edit", "f", "--workers", "9"], None),
    // an option in place of a file
    (&["render", "--", "-f"], None),
];

// Whether the arguments are this command.
fn is_command<'a>(
    alloc: Global,
    arguments: &'a [&'a str],
    asked: Option<Command<'a>>,
) -> Result<bool, AllocError> {
    Ok(command(alloc, arguments)? == asked)
}

// The first of the arguments, counted from 0, that are another command.
fn first_otherwise(alloc: Global) -> Result<Option<usize>, AllocError> {
    for (i, row) in ARGUMENTS.iter().enumerate() {
        if !is_command(alloc, row.0, row.1)? {
            return Ok(Some(i));
        }
    }
    Ok(None)
}

#[test]
fn arguments_are_commands(rt: HostRuntime) -> Result<(), Fail> {
    assert_eq!(rt; first_otherwise(rt.alloc())?, None);
    Ok(())
}
