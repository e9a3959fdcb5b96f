//! Plays commands by rows of `data/`, and judges what each came to by what its row wants.
//!
//! README.md has the form of a row. `stdout` has what the runs on the standard output write, and for each file of rows
//! how many there are.
#![tactic(auto)]

mod devices;
mod judging;
mod ordered;
mod playing;
mod row;

use crate::judging::{fault_in, told};
use crate::playing::{Outcome, Player};
use crate::row::{Row, row_in};
use std::process::ExitCode;
use std::sync::Wait;
use std::thread::Threads;
use std::{fs, io};

/// The files that have rows.
const SETS: [&str; 9] = [
    "system.rows",
    "commands.rows",
    "audits.rows",
    "edits.rows",
    "failures.rows",
    "damaged.rows",
    "gimp.rows",
    "sessions.rows",
    "serve.rows",
];

/// Rows that want what does not come, so that it is seen that they are looked at.
const WRONG: &str = "wrong.rows";

/// The names of contents.
const CONTENTS: &str = "contents";

/// What stands ahead of a row.
const ROW_MARK: &str = "\n== ";

// What is not as a row wants it, if anything is.
fn fault_of<R: Threads + Wait + Sync>(
    player: &Player<'_, R>,
    known: &str,
    row: &Row<'_>,
    outcome: &Outcome,
) -> io::Result<Option<&'static str>> {
    let fault = fault_in(player.rt.alloc(), known, row, outcome)?;
    if fault.is_some() || row.value("audited")?.is_none() || player.accepts(row, outcome.text())? {
        return Ok(fault);
    }
    Ok(Some("not accepted by an audit"))
}

// Plays a row, and tells what is not as it wants it, and what came.
fn told_of<R: Threads + Wait + Sync>(
    player: &Player<'_, R>,
    known: &str,
    row: &Row<'_>,
) -> io::Result<Option<String>> {
    let outcome = player.play(row)?;
    match fault_of(player, known, row, &outcome)? {
        Some(fault) => Ok(Some(told(player.rt.alloc(), fault, &outcome)?)),
        None => Ok(None),
    }
}

fn told_of_text<R: Threads + Wait + Sync>(
    player: &Player<'_, R>,
    known: &str,
    text: &str,
) -> io::Result<Option<String>> {
    let row = row_in(player.rt.alloc(), text)?;
    told_of(player, known, &row)
}

// Whether a row comes to what it wants. Its first line is its name.
fn is_right<R: Threads + Wait + Sync>(
    player: &Player<'_, R>,
    known: &str,
    text: &str,
) -> io::Result<bool> {
    let name = text.lines().next().unwrap_or("");
    match told_of_text(player, known, text) {
        Ok(None) => return Ok(true),
        Ok(Some(fault)) => println!(player.rt; "{name}: {fault}")?,
        Err(error) => println!(player.rt; "{name}: {error}")?,
    }
    Ok(false)
}

// How many rows came to what they want, and how many did not.
fn tally<R: Threads + Wait + Sync>(
    player: &Player<'_, R>,
    known: &str,
    rows: &str,
) -> io::Result<(u64, u64)> {
    let mut right: u64 = 0;
    let mut wrong: u64 = 0;
    for text in rows.split(ROW_MARK).skip(1) {
        if is_right(player, known, text)? {
            right = right.saturating_add(1);
        } else {
            wrong = wrong.saturating_add(1);
        }
    }
    Ok((right, wrong))
}

fn show_set<R: Threads + Wait + Sync>(
    player: &Player<'_, R>,
    known: &str,
    name: &str,
) -> io::Result<()> {
    let rows = fs::read_to_string(player.rt, name)?;
    let (right, wrong) = tally(player, known, rows.as_str())?;
    println!(player.rt; "{name}: {right} right, {wrong} wrong")
}

fn show_sets<R: Threads + Wait + Sync>(player: &Player<'_, R>, known: &str) -> io::Result<()> {
    for name in SETS {
        show_set(player, known, name)?;
    }
    show_set(player, known, WRONG)
}

fn show_all<R: Threads + Wait + Sync>(rt: &HostRuntime, threads: &R) -> io::Result<()> {
    let known = fs::read_to_string(rt, CONTENTS)?;
    show_sets(&Player { rt, threads }, known.as_str())
}

fn main(rt: HostRuntime) -> ExitCode {
    match show_all(&rt, &rt) {
        Ok(()) => ExitCode::SUCCESS,
        Err(_) => ExitCode::FAILURE,
    }
}
