//! The commands as clap takes them.
ghost use Rattle.std.specs.Prelude.{◌≡◌, ◌^◌, ◌-◌, true, false, IfOk, codes};
ghost use Rattle.clap.specs.Words.{app_of, rule_of};
ghost use Rattle.spec_command.specs.Grammar.{file_rule, flag_rule, number_rule, plain_app};
ghost use Rattle.spec_command.specs.Grammar.{edit_app, info_app, make_app, pack_app, view_app};

use clap::{Arg, ArgAction, Command, value_parser};
use std::alloc::{AllocError, Global};

// The name of the file, which has to be there.
fn file<'a>(alloc: Global) -> Arg<'a>
    ensures rule { rule_of result ≡ file_rule }
    ensures local { result.global ≡ false }
{
    Arg::new(alloc, "file").required(true)
}

// How many workers there are, 0 to 8.
fn workers<'a>(alloc: Global) -> Arg<'a>
    ensures rule { rule_of result ≡ number_rule (codes "workers") 0 8 false }
    ensures local { result.global ≡ false }
{
    Arg::new(alloc, "workers")
        .long("workers")
        .value_parser(value_parser!(u32).range(0..=8))
}

// The seed, which has to be there.
fn seed<'a>(alloc: Global) -> Arg<'a>
    ensures rule { rule_of result ≡ number_rule (codes "seed") 0 (2 ^ 32 - 1) true }
    ensures local { result.global ≡ false }
{
    Arg::new(alloc, "seed")
        .long("seed")
        .required(true)
        .value_parser(value_parser!(u32))
}

// An option that has no value.
fn flag<'a>(alloc: Global, name: &'a str) -> Arg<'a>
    ensures rule { rule_of result ≡ flag_rule name.entry.now }
    ensures local { result.global ≡ false }
{
    Arg::new(alloc, name).long(name).action(ArgAction::SetTrue)
}

// A side of a window, 1 to 16 tiles, which has to be there.
fn side<'a>(alloc: Global, name: &'a str) -> Arg<'a>
    ensures rule { rule_of result ≡ number_rule name.entry.now 1 16 true }
    ensures local { result.global ≡ false }
{
    Arg::new(alloc, name)
        .long(name)
        .required(true)
        .value_parser(value_parser!(u32).range(1..=16))
}

/// A command with a file alone.
pub fn plain_command<'a>(alloc: Global, name: &'a str) -> Result<Command<'a>, AllocError>
    ensures { IfOk result (λ c. app_of c ≡ plain_app name.entry.now) }
{
    Command::new(alloc, name).arg(file(alloc))
}

/// `edit`: a file, and how many workers there are.
pub fn edit_command<'a>(alloc: Global) -> Result<Command<'a>, AllocError>
    ensures { IfOk result (λ c. app_of c ≡ edit_app) }
{
    plain_command(alloc, "edit")?.arg(workers(alloc))
}

/// `info`: a file, and whether all is told of it.
pub fn info_command<'a>(alloc: Global) -> Result<Command<'a>, AllocError>
    ensures { IfOk result (λ c. app_of c ≡ info_app) }
{
    plain_command(alloc, "info")?.arg(flag(alloc, "all"))
}

/// `make`: a file and a seed.
pub fn make_command<'a>(alloc: Global) -> Result<Command<'a>, AllocError>
    ensures { IfOk result (λ c. app_of c ≡ make_app) }
{
    plain_command(alloc, "make")?.arg(seed(alloc))
}

/// `pack`: a file, and whether the plans are told.
pub fn pack_command<'a>(alloc: Global) -> Result<Command<'a>, AllocError>
    ensures { IfOk result (λ c. app_of c ≡ pack_app) }
{
    plain_command(alloc, "pack")?.arg(flag(alloc, "plan"))
}

/// `view`: a file, and the sides of a window.
pub fn view_command<'a>(alloc: Global) -> Result<Command<'a>, AllocError>
    ensures { IfOk result (λ c. app_of c ≡ view_app) }
{
    let command = plain_command(alloc, "view")?.arg(side(alloc, "cols"))?;
    command.arg(side(alloc, "rows"))
}
