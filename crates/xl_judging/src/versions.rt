//! The versions that printed peeks show.
ghost use Rattle.std.specs.Prelude.{◌≡◌, ◌≤◌, true, [], OnOk, IfOk, Some, None, MatchOption};
ghost use Rattle.xl_judging.specs.Calls.{line_in};
ghost use Rattle.xl_judging.specs.Versions.{version_named, is_wanted, WantsMore, WantsOfWord, AreWanted, share_at, with_share};
ghost use Rattle.spec_audit.specs.Walk.{printed_at};

use crate::calls::{SessionCalls, call_at};
use spec_history::MAX_ENTRIES;
use std::alloc::{AllocError, Global};
use xl_calls::{Call, Reply};
use xl_doc::Document;
use xl_printed::Output;
use xl_script::OrderWord;

// The version that the printed reply to a peek shows, where the word is that of a peek.
fn version_named(calls: &[SessionCalls], output: &Output, word: OrderWord) -> Option<u32>
    ensures { result ≡ version_named (line_in calls.now word)
        (printed_at output.now.replies word).reply }
{
    let Some(Call::Peek(_, _)) = call_at(calls, word) else {
        return None;
    };
    match output.printed(word).reply {
        Reply::Tile { version } => Some(version),
        _ => None,
    }
}

// Marks a version as wanted, if a history may have so many.
fn want(wanted: &mut Vec<bool>, version: u32) -> Result<(), AllocError>
    ensures this { OnOk result (version ≤ MAX_ENTRIES → is_wanted wanted.new.items version
        ≡ true) }
    ensures others { OnOk result (WantsMore wanted.old.items wanted.new.items) }
{
    let place = version as usize;
    if place > MAX_ENTRIES {
        return Ok(());
    }
    if place >= wanted.len() {
        wanted.resize(place + 1, false)?;
    }
    wanted[place] = true;
    Ok(())
}

// Marks the version that the reply to a word shows, if it is that of a peek.
fn want_of_word(
    calls: &[SessionCalls],
    output: &Output,
    word: OrderWord,
    wanted: &mut Vec<bool>,
) -> Result<(), AllocError>
    ensures this { OnOk result (WantsOfWord calls.now output.now.replies wanted.new.items word) }
    ensures others { OnOk result (WantsMore wanted.old.items wanted.new.items) }
{
    match version_named(calls, output, word) {
        Some(version) => want(wanted, version),
        None => Ok(()),
    }
}

/// Which versions are shown by the printed replies to peeks.
pub fn wanted_versions(
    alloc: Global,
    calls: &[SessionCalls],
    output: &Output,
) -> Result<Vec<bool>, AllocError>
    ensures { IfOk result (λ wanted. AreWanted calls.now output.now.replies wanted.items
        output.now.order) }
{
    let mut wanted = Vec::new(alloc);
    for word in output.order.as_slice() {
        want_of_word(calls, output, *word, &mut wanted)?;
    }
    Ok(wanted)
}

/// Shares of the versions that are wanted, as far as they were made.
#[derive(Drop)]
pub struct Versions {
    pub wanted: Vec<bool>,
    pub shares: Vec<Option<Document>>,
}

impl Versions {
    /// No version was made.
    pub fn new(alloc: Global, wanted: Vec<bool>) -> Versions
        ensures wanted { result.wanted ≡ wanted }
        ensures shares { result.shares.items ≡ [] }
    {
        Versions {
            wanted,
            shares: Vec::new(alloc),
        }
    }

    fn is_wanted(&self, version: usize) -> bool
        ensures { result ≡ is_wanted self.now.wanted.items version }
    {
        match self.wanted.get(version) {
            Some(is_wanted) => *is_wanted,
            None => false,
        }
    }

    /// The document of the next version.
    pub fn add(&mut self, alloc: Global, document: &Document) -> Result<(), AllocError>
        ensures wanted { OnOk result (self.new.wanted ≡ self.old.wanted) }
        ensures shares { OnOk result (self.new.shares.items
            ≡ with_share self.old.wanted.items document.now self.old.shares.items) }
    {
        let version = self.shares.len();
        if version >= self.wanted.len() {
            return Ok(());
        }
        let share = if self.is_wanted(version) {
            Some(document.share(alloc)?)
        } else {
            None
        };
        self.shares.push(share)?;
        Ok(())
    }

    /// The document of a version that is wanted and was made.
    pub fn document(&self, version: u32) -> Option<&Document>
        ensures { MatchOption result
            (share_at self.now.shares.items version ≡ None)
            (λ d. share_at self.now.shares.items version ≡ Some d.now) }
    {
        match self.shares.get(version as usize) {
            Some(Some(document)) => Some(document),
            Some(None) | None => None,
        }
    }
}
