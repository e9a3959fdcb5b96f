//! Whether a run came to what its row wants.

use crate::ordered::is_ordered;
use crate::playing::Outcome;
use crate::row::{Part, Row, number_in};
use sha2::{Digest, Sha256};
use std::alloc::{AllocError, Global};
use std::io;

fn digest_of(alloc: Global, bytes: &[u8]) -> Result<String, AllocError> {
    hex::encode(alloc, &Sha256::digest(bytes))
}

/// What is not as the row wants it, if anything is. `known` tells the names of some contents: each line has a digest
/// and a name.
pub fn fault_in(
    alloc: Global,
    known: &str,
    row: &Row<'_>,
    outcome: &Outcome,
) -> io::Result<Option<&'static str>> {
    if outcome.missed {
        return Ok(Some("a hold was given up"));
    }
    if u32::from(outcome.status) != number_in(row.needed("status")?)? {
        return Ok(Some("another status"));
    }
    if outcome.status == 0 && outcome.has_draft() {
        return Ok(Some("a draft is open"));
    }
    if !has_wanted_text(alloc, row, outcome.text())? {
        return Ok(Some("another text"));
    }
    if !leaves_what_is_wanted(alloc, known, row, outcome)? {
        return Ok(Some("another file"));
    }
    Ok(None)
}

// A row that names no text takes any, and of several it takes each.
fn has_wanted_text(alloc: Global, row: &Row<'_>, text: &[u8]) -> io::Result<bool> {
    let mut is_any = true;
    for part in &row.parts {
        if part.is_text() {
            is_any = false;
            if is_text(alloc, *part, text)? {
                return Ok(true);
            }
        }
    }
    Ok(is_any)
}

fn is_text(alloc: Global, part: Part<'_>, text: &[u8]) -> Result<bool, AllocError> {
    match part.key {
        "text" => Ok(part.body.as_bytes() == text),
        "digest" => Ok(part.value == digest_of(alloc, text)?.as_str()),
        _ => is_ordered(alloc, part.body, str::from_utf8(text).unwrap_or("")),
    }
}

// Likewise of the contents that may be left. Where a line stands behind them, the text has to have that line.
fn leaves_what_is_wanted(
    alloc: Global,
    known: &str,
    row: &Row<'_>,
    outcome: &Outcome,
) -> io::Result<bool> {
    let mut is_any = true;
    for part in &row.parts {
        if part.key == "leaves" {
            is_any = false;
            if are_left(alloc, known, part.value, outcome.leaves())?
                && has_line(outcome.text(), part.body)
            {
                return Ok(true);
            }
        }
    }
    Ok(is_any)
}

fn has_line(text: &[u8], line: &str) -> bool {
    line.is_empty() || has_line_in(str::from_utf8(text).unwrap_or(""), line)
}

fn has_line_in(text: &str, line: &str) -> bool {
    for other in text.lines() {
        if other == line {
            return true;
        }
    }
    false
}

// Whether these contents have those digests or names, with a space between two.
fn are_left(
    alloc: Global,
    known: &str,
    wanted: &str,
    left: &[Option<Vec<u8>>],
) -> Result<bool, AllocError> {
    let mut names = wanted.split(' ');
    for content in left {
        let name = names.next().unwrap_or("");
        let digest = digest_left(alloc, content)?;
        let line = format!(in alloc; "{digest} {name}")?;
        if digest.as_str() != name && !has_line_in(known, line.as_str()) {
            return Ok(false);
        }
    }
    Ok(names.next().is_none())
}

// The digest of what is left, or `none` where that is no file.
fn digest_left(alloc: Global, content: &Option<Vec<u8>>) -> Result<String, AllocError> {
    match content {
        Some(bytes) => digest_of(alloc, bytes),
        None => String::from_str(alloc, "none"),
    }
}

/// Says what is wrong, and then what a run came to.
pub fn told(alloc: Global, fault: &str, outcome: &Outcome) -> Result<String, AllocError> {
    let mut line = format!(in alloc; "{fault}\nstatus {}, leaves", outcome.status)?;
    for content in outcome.leaves() {
        line.push(' ')?;
        line.push_str(digest_left(alloc, content)?.as_str())?;
    }
    line.push('\n')?;
    line.push_str(String::from_utf8_lossy(alloc, outcome.text())?.as_str())?;
    Ok(line)
}
