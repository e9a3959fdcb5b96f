//! The text of a history.
ghost use Rattle.spec_document.specs.Document.{Document};
ghost use Rattle.spec_history.specs.History.{Entry as Plain, mine};
ghost use Rattle.spec_history.specs.Kept.{IsLegal};
ghost use Rattle.spec_seats.specs.Digests.{asks_tile, is_tile_reply, shows_tile, digests_in};
ghost use Rattle.spec_seats.specs.Ended.{AreEnded};
ghost use Rattle.spec_text.specs.Printed.{order_text, word_of_entry};
ghost use Rattle.spec_text.specs.Text.{is_save_memory, printed};
ghost use Rattle.std.specs.List.{AllByRecursion};
ghost use Rattle.std.specs.Prelude.{◌≡◌, ℕ, false, ◌<◌, List, ◌∷◌, ◌++◌, drop, map, IfOk, OnOk, string_bytes};
ghost use Rattle.std.specs.Prelude.{unwrap_or, slice_get, []};
ghost use Rattle.xl_calls.specs.Calls.{call_of};
ghost use Rattle.xl_calls.specs.Replies.{reply_of};
ghost use Rattle.xl_run.specs.Printing.{IsPrinted, line_here, first_digest, lines_with, lines_of_sessions};

use std::alloc::{AllocError, Global};
use xl_calls::{Call, Reply};
use xl_core::{Entry, EntryKind};
use xl_script::{OrderWord, SESSIONS, print_order, print_reply};

/// Whether a call asks for a tile.
pub fn asks_tile(call: &Call) -> bool
    ensures { result ≡ asks_tile (call_of call.now) }
{
    match call {
        Call::Tile(..) | Call::Peek(..) => true,
        Call::Edit(_) | Call::Undo(_) | Call::Redo | Call::Top => false,
    }
}

fn is_tile(reply: &Reply) -> bool
    ensures { result ≡ is_tile_reply (reply_of reply.now) }
{
    matches!(reply, Reply::Tile { .. })
}

// Whether a tile was asked for, and shown.
fn shows_tile(entry: &Entry) -> bool
    ensures { result ≡ shows_tile entry.now.kind entry.now.reply }
{
    match &entry.kind {
        EntryKind::Asked { call, .. } => asks_tile(call) && is_tile(&entry.reply),
        EntryKind::Start | EntryKind::End => false,
    }
}

// Appends the line that an entry has where it stands. A save has its line at its end.
fn print_entry(
    alloc: Global,
    text: &mut String,
    entry: &Entry,
    digest: &str,
) -> Result<(), AllocError>
    requires { IsPrinted entry.now.reply }
    ensures { OnOk result (string_bytes text.new ≡ string_bytes text.old ++ line_here digest.now
        entry.now entry.now.kind) }
{
    match entry.kind {
        EntryKind::Start => Ok(()),
        EntryKind::Asked { .. } | EntryKind::End => print_reply(
            alloc,
            text,
            entry.session,
            entry.index,
            &entry.reply,
            digest,
        ),
    }
}

// The first digest, if there is one.
fn first_digest<'a>(digests: &'a [String]) -> &'a str
    ensures { result.now ≡ first_digest (map string_bytes digests.now) }
{
    match digests.first() {
        Some(digest) => digest.as_str(),
        None => "",
    }
}

// All digests but the first.
fn later_digests<'a>(digests: &'a [String]) -> &'a [String]
    ensures { map string_bytes result.now ≡ drop 1 (map string_bytes digests.now) }
{
    match digests.split_first() {
        Some((_, later)) => later,
        None => digests,
    }
}

// Appends the line of an entry of the session, and answers the digests of its later ones.
fn print_own<'a>(
    alloc: Global,
    text: &mut String,
    entry: &Entry,
    digests: &'a [String],
) -> Result<&'a [String], AllocError>
    requires { IsPrinted entry.now.reply }
    ensures { IfOk result (λ later. (es : List Plain) → string_bytes text.new ++ lines_with
        (map string_bytes later.now) es ≡ string_bytes text.old ++ lines_with
        (map string_bytes digests.now) (entry.now ∷ es)) }
{
    if shows_tile(entry) {
        print_entry(alloc, text, entry, first_digest(digests))?;
        return Ok(later_digests(digests));
    }
    print_entry(alloc, text, entry, "")?;
    Ok(digests)
}

// Appends the lines of a session.
fn print_session(
    alloc: Global,
    text: &mut String,
    entries: &[Entry],
    session: u8,
    digests: &[String],
) -> Result<(), AllocError>
    requires { AllByRecursion (λ e. IsPrinted e.reply) entries.now }
    ensures { OnOk result (string_bytes text.new ≡ string_bytes text.old ++ lines_with
        (map string_bytes digests.now) (mine entries.now session)) }
{
    let mut rest = entries;
    let mut left = digests;
    while let Some((entry, later)) = rest.split_first() {
        rest = later;
        if entry.session == session {
            left = print_own(alloc, text, entry, left)?;
        }
    }
    Ok(())
}

fn order_word(entry: &Entry) -> OrderWord
    ensures { result ≡ word_of_entry entry.now }
{
    OrderWord {
        session: entry.session,
        index: entry.index,
        end: matches!(entry.kind, EntryKind::End),
    }
}

/// The words of the order line.
pub fn order_words(alloc: Global, entries: &[Entry]) -> Result<Vec<OrderWord>, AllocError>
    ensures { IfOk result (λ words. words.items ≡ map word_of_entry entries.now) }
{
    let mut words = Vec::with_capacity(alloc, entries.len())?;
    for entry in entries {
        words.push(order_word(entry))?;
    }
    Ok(words)
}

// The digests of a session.
fn digests_at<'a>(digests: &'a [Vec<String>], session: u8) -> &'a [String]
    ensures { map string_bytes result.now ≡ unwrap_or
        (slice_get (map (λ ds. map string_bytes ds.items) digests.now) session) [] }
{
    match digests.get(usize::from(session)) {
        Some(own) => own.as_slice(),
        None => &[],
    }
}

// For each session the lines of its entries, with the digests of the tiles that it was shown, and then the order line.
fn print_all(
    alloc: Global,
    entries: &[Entry],
    digests: &[Vec<String>],
) -> Result<String, AllocError>
    requires { AllByRecursion (λ e. IsPrinted e.reply) entries.now }
    ensures { IfOk result (λ text. string_bytes text ≡ lines_of_sessions
        (map (λ ds. map string_bytes ds.items) digests.now) entries.now 8
        ++ order_text entries.now) }
{
    let mut text = String::new(alloc);
    for session in 0..SESSIONS {
        print_session(
            alloc,
            &mut text,
            entries,
            session,
            digests_at(digests, session),
        )?;
    }
    let words = order_words(alloc, entries)?;
    print_order(alloc, &mut text, words.as_slice())?;
    Ok(text)
}

/// The printed text of a legal history in which each save has ended. `digests` has a list for each session, of the
/// tiles that it was shown.
pub fn print_history(
    alloc: Global,
    entries: &[Entry],
    digests: &[Vec<String>],
) -> Result<String, AllocError>
    requires { AllByRecursion (λ e. IsPrinted e.reply) entries.now }
    ensures { (base : Document) → IsLegal base entries.now
        → ((session : ℕ) → session < 8 → AreEnded (mine entries.now session))
        → ((session : ℕ) → session < 8
        → unwrap_or (slice_get (map (λ ds. map string_bytes ds.items) digests.now) session) []
        ≡ digests_in base entries.now (mine entries.now session))
        → IfOk result (λ text. string_bytes text ≡ printed base entries.now) }
{
    print_all(alloc, entries, digests)
}

/// Each entry of a legal history can be printed, where no save ended as out of memory.
pub fn each_entry_is_printed()
    ensures { (base : Document) (es : List Plain) → IsLegal base es
        → AllByRecursion (λ e. is_save_memory e.reply ≡ false) es
        → AllByRecursion (λ e. IsPrinted e.reply) es }
{}
