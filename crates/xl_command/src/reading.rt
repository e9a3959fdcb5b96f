//! The command that arguments are, by the matches that clap finds.
ghost use Rattle.std.specs.Prelude.{◌≡◌, nat_abs, ◌^◌, ◌-◌, ℕ, List, true, false, pos, Some, IfOk, IfSome, MatchOption};
ghost use Rattle.std.specs.Prelude.{option_map, codes};
ghost use Rattle.clap.specs.Words.{app_of, found_of, rows_of, matches_of, first_of, is_simple_and_free, IsParsedFrom, IsSignedIn};
ghost use Rattle.spec_command.specs.Grammar.{edit_app, edit_of, info_app, info_of, is_faultless, make_app, make_of, number_of};
ghost use Rattle.spec_command.specs.Grammar.{pack_app, pack_of, plain_app, view_app, view_of, is_given};
ghost use Rattle.spec_command.specs.Grammar.{plain_of, asked_in, asked_where};
ghost use Rattle.spec_command.specs.Arguments.{Argument, Asked};
ghost use Rattle.spec_command.specs.Arguments as definition;
ghost use Rattle.std.specs.Str.Parse.{signed_digits_value};
ghost use Rattle.xl_command.specs.Asking as asking;
ghost use Rattle.xl_command.specs.Asking.{asked_of, plain_name, arguments_of, IsInRange};

use crate::command::Command;
use crate::grammar::{
    edit_command, info_command, make_command, pack_command, plain_command, view_command,
};
use clap::ArgMatches;
use clap::error::ErrorKind;
use std::alloc::{AllocError, Global};

// The matches of arguments where the command takes them.
fn matches_in<'a>(
    command: clap::Command<'a>,
    arguments: &'a [&'a str],
) -> Result<Option<ArgMatches<'a>>, AllocError>
    requires simple { is_simple_and_free (app_of command) ≡ true }
    ensures ok { IfOk result (λ found. MatchOption found (is_faultless (app_of command.entry)
        (arguments_of arguments.entry.now) ≡ false)
        (λ m. (is_faultless (app_of command.entry) (arguments_of arguments.entry.now) ≡ true)
        × (rows_of (found_of m) ≡ matches_of (app_of command.entry)
        (arguments_of arguments.entry.now)) × IsParsedFrom command.entry m)) }
{
    match command.try_get_matches_from(arguments) {
        Ok(matches) => Ok(Some(matches)),
        Err(error) => {
            if error.kind() == ErrorKind::OutOfMemory {
                Err(AllocError)
            } else {
                Ok(None)
            }
        }
    }
}

// The name, unless it begins with a minus.
fn unless_option<'a>(name: &'a str) -> Option<&'a str>
    ensures { option_map (λ name. name.now) result ≡ plain_name (Some name.now) }
{
    match name.as_bytes() {
        [b'-', ..] => None,
        _ => Some(name),
    }
}

// The name of the file, unless it begins with a minus.
fn file_in<'a>(matches: &ArgMatches<'a>) -> Option<&'a str>
    ensures { option_map (λ name. name.now) result
        ≡ plain_name (first_of (codes "file") (rows_of (found_of matches.now))) }
{
    match matches.get_str("file") {
        None => None,
        Some(name) => unless_option(name),
    }
}

// A number that clap let through.
fn number(text: &str) -> u32
    requires { IsSignedIn (pos 0) (pos (2 ^ 32 - 1)) text.now }
    ensures { result ≡ nat_abs (signed_digits_value 10 text.now) }
{
    match text.parse::<i64>() {
        Ok(number) => number.unsigned_abs() as u32,
        Err(_) => unreachable!(),
    }
}

// The number of an option, or another where it is not given.
fn number_in(matches: &ArgMatches<'_>, id: &str, default: u32) -> u32
    requires { (text : List ℕ) → first_of id.now (rows_of (found_of matches.now)) ≡ Some text
        → IsSignedIn (pos 0) (pos (2 ^ 32 - 1)) text }
    ensures { result ≡ number_of (rows_of (found_of matches.now)) id.now default }
{
    match matches.get_str(id) {
        None => default,
        Some(text) => number(text),
    }
}

// Whether an option that has no value is given.
fn flag_in(matches: &ArgMatches<'_>, id: &str) -> bool
    ensures { result ≡ is_given (rows_of (found_of matches.now)) id.now }
{
    match matches.get_str(id) {
        None => false,
        Some(text) => text == "true",
    }
}

// The name of the file of a command without an option.
fn plain_file<'a>(
    alloc: Global,
    verb: &'a str,
    arguments: &'a [&'a str],
) -> Result<Option<&'a str>, AllocError>
    ensures { IfOk result (λ name. (ask : Argument → Asked) → option_map (λ name. ask name.now) name
        ≡ asked_where (plain_app verb.entry.now) (arguments_of arguments.entry.now)
        (plain_of ask)) }
{
    let Some(matches) = matches_in(plain_command(alloc, verb)?, arguments)? else {
        return Ok(None);
    };
    Ok(file_in(&matches))
}

fn render<'a>(
    alloc: Global,
    verb: &'a str,
    arguments: &'a [&'a str],
) -> Result<Option<Command<'a>>, AllocError>
    ensures asked { IfOk result (λ command. option_map asked_of command ≡ asked_where
        (plain_app verb.entry.now) (arguments_of arguments.entry.now)
        (plain_of definition.render)) }
    ensures range { IfOk result
        (λ command. IfSome command (λ command. IsInRange (asked_of command))) }
{
    match plain_file(alloc, verb, arguments)? {
        Some(name) => Ok(Some(Command::Render(name))),
        None => Ok(None),
    }
}

fn info<'a>(alloc: Global, arguments: &'a [&'a str]) -> Result<Option<Command<'a>>, AllocError>
    ensures asked { IfOk result (λ command. option_map asked_of command
        ≡ asked_where info_app (arguments_of arguments.entry.now) info_of) }
    ensures range { IfOk result
        (λ command. IfSome command (λ command. IsInRange (asked_of command))) }
{
    let Some(matches) = matches_in(info_command(alloc)?, arguments)? else {
        return Ok(None);
    };
    let Some(name) = file_in(&matches) else {
        return Ok(None);
    };
    Ok(Some(Command::Info(name, flag_in(&matches, "all"))))
}

fn edit<'a>(alloc: Global, arguments: &'a [&'a str]) -> Result<Option<Command<'a>>, AllocError>
    ensures asked { IfOk result (λ command. option_map asked_of command
        ≡ asked_where edit_app (arguments_of arguments.entry.now) edit_of) }
    ensures range { IfOk result
        (λ command. IfSome command (λ command. IsInRange (asked_of command))) }
{
    let Some(matches) = matches_in(edit_command(alloc)?, arguments)? else {
        return Ok(None);
    };
    let Some(name) = file_in(&matches) else {
        return Ok(None);
    };
    Ok(Some(Command::Edit(name, number_in(&matches, "workers", 2))))
}

fn make<'a>(alloc: Global, arguments: &'a [&'a str]) -> Result<Option<Command<'a>>, AllocError>
    ensures asked { IfOk result (λ command. option_map asked_of command
        ≡ asked_where make_app (arguments_of arguments.entry.now) make_of) }
    ensures range { IfOk result
        (λ command. IfSome command (λ command. IsInRange (asked_of command))) }
{
    let Some(matches) = matches_in(make_command(alloc)?, arguments)? else {
        return Ok(None);
    };
    let Some(name) = file_in(&matches) else {
        return Ok(None);
    };
    Ok(Some(Command::Make(name, number_in(&matches, "seed", 0))))
}

fn pack<'a>(alloc: Global, arguments: &'a [&'a str]) -> Result<Option<Command<'a>>, AllocError>
    ensures asked { IfOk result (λ command. option_map asked_of command
        ≡ asked_where pack_app (arguments_of arguments.entry.now) pack_of) }
    ensures range { IfOk result
        (λ command. IfSome command (λ command. IsInRange (asked_of command))) }
{
    let Some(matches) = matches_in(pack_command(alloc)?, arguments)? else {
        return Ok(None);
    };
    let Some(name) = file_in(&matches) else {
        return Ok(None);
    };
    Ok(Some(Command::Pack(name, flag_in(&matches, "plan"))))
}

fn flatten<'a>(
    alloc: Global,
    verb: &'a str,
    arguments: &'a [&'a str],
) -> Result<Option<Command<'a>>, AllocError>
    ensures asked { IfOk result (λ command. option_map asked_of command ≡ asked_where
        (plain_app verb.entry.now) (arguments_of arguments.entry.now)
        (plain_of definition.flatten)) }
    ensures range { IfOk result
        (λ command. IfSome command (λ command. IsInRange (asked_of command))) }
{
    match plain_file(alloc, verb, arguments)? {
        Some(name) => Ok(Some(Command::Flatten(name))),
        None => Ok(None),
    }
}

fn view<'a>(alloc: Global, arguments: &'a [&'a str]) -> Result<Option<Command<'a>>, AllocError>
    ensures asked { IfOk result (λ command. option_map asked_of command
        ≡ asked_where view_app (arguments_of arguments.entry.now) view_of) }
    ensures range { IfOk result
        (λ command. IfSome command (λ command. IsInRange (asked_of command))) }
{
    let Some(matches) = matches_in(view_command(alloc)?, arguments)? else {
        return Ok(None);
    };
    let Some(name) = file_in(&matches) else {
        return Ok(None);
    };
    let cols = number_in(&matches, "cols", 1);
    let rows = number_in(&matches, "rows", 1);
    Ok(Some(Command::View(name, cols, rows)))
}

fn audit<'a>(
    alloc: Global,
    verb: &'a str,
    arguments: &'a [&'a str],
) -> Result<Option<Command<'a>>, AllocError>
    ensures asked { IfOk result (λ command. option_map asked_of command ≡ asked_where
        (plain_app verb.entry.now) (arguments_of arguments.entry.now) (plain_of definition.audit)) }
    ensures range { IfOk result
        (λ command. IfSome command (λ command. IsInRange (asked_of command))) }
{
    match plain_file(alloc, verb, arguments)? {
        Some(name) => Ok(Some(Command::Audit(name))),
        None => Ok(None),
    }
}

/// The command that the arguments are. No other arguments are one.
pub fn command_of<'a>(
    alloc: Global,
    arguments: &'a [&'a str],
) -> Result<Option<Command<'a>>, AllocError>
    ensures asked { IfOk result (λ command. option_map asked_of command ≡ asked_in
        (arguments_of arguments.entry.now)) }
    ensures range { IfOk result
        (λ command. IfSome command (λ command. IsInRange (asked_of command))) }
{
    let Some(verb) = arguments.first() else {
        return Ok(None);
    };
    match *verb {
        "edit" => edit(alloc, arguments),
        "render" => render(alloc, *verb, arguments),
        "info" => info(alloc, arguments),
        "make" => make(alloc, arguments),
        "pack" => pack(alloc, arguments),
        "flatten" => flatten(alloc, *verb, arguments),
        "view" => view(alloc, arguments),
        "audit" => audit(alloc, *verb, arguments),
        _ => Ok(None),
    }
}

// The file of arguments that are in order for `serve`.
fn served_where<'a>(alloc: Global, arguments: &'a [&'a str]) -> Result<Option<&'a str>, AllocError>
    ensures { IfOk result (λ name. option_map (λ name. name.now) name ≡ asking.served_where
        (arguments_of arguments.entry.now)) }
{
    let Some(matches) = matches_in(plain_command(alloc, "serve")?, arguments)? else {
        return Ok(None);
    };
    Ok(file_in(&matches))
}

/// The file that the arguments ask to be served, if they do. No arguments are both this and a command of `command_of`.
pub fn served_file<'a>(
    alloc: Global,
    arguments: &'a [&'a str],
) -> Result<Option<&'a str>, AllocError>
    ensures { IfOk result (λ name. option_map (λ name. name.now) name ≡ asking.served_in
        (arguments_of arguments.entry.now)) }
{
    match arguments.first() {
        Some(verb) if *verb == "serve" => served_where(alloc, arguments),
        _ => Ok(None),
    }
}
