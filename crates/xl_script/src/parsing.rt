ghost use Rattle.std.specs.Prelude.{◌≡◌, ◌<◌, ◌≤◌, ◌^◌, [], ◌∷◌, length, map, count_by, ◌==◌, false, IfOk, IfErr};
ghost use Rattle.std.specs.List.{AllByRecursion};
ghost use Rattle.spec_script.specs.Script as grammar;
ghost use Rattle.spec_script.specs.Fits.{FitsFilters};
ghost use Rattle.spec_script.specs.Words.{lines_of};
ghost use Rattle.spec_view.specs.Script.{view_lists, IsViewedLine};
ghost use Rattle.xl_script.specs.Gives.{ScriptOf, BlamesLine};
ghost use Rattle.xl_script.specs.Lines.{lists_of};
ghost use Rattle.xl_script.specs.Scopes.{line_in, script_in};
ghost use Rattle.xl_script.specs.Sessions.{TakenAs, TakenIf, ParsedAs};
ghost use Rattle.xl_script.specs.declared.bad_line.BadLineOrMemory.TheVariants.{Refused};

use crate::bad_line::{BadLine, BadLineOrMemory};
use crate::commands::command_of;
use crate::scope::Scope;
use crate::script::Script;
use crate::sessions::Sessions;
use spec_script::MAX_SCRIPT_BYTES;
use std::alloc::Global;
use xl_words::{Cause, CauseOrMemory, first_line};

fn newlines(text: &[u8]) -> usize
    ensures value { result ≡ count_by (λ b. b == 10) text.now }
    ensures bound { result ≤ length text.now }
{
    text.iter().filter(|b| **b == b'\n').count()
}

// The number of the line that the last byte a script may have stands in.
fn line_of_last(text: &[u8]) -> u32
    requires { MAX_SCRIPT_BYTES < length text.now }
    ensures { result ≡ grammar.line_of_byte text.now MAX_SCRIPT_BYTES }
{
    1 + newlines(&text[..MAX_SCRIPT_BYTES]) as u32
}

fn refusal(line: u32, cause: Cause) -> BadLineOrMemory
    ensures { result ≡ Refused (record { line = line; cause = cause }) }
{
    BadLineOrMemory::Refused(BadLine { line, cause })
}

/// Whether a line is empty or a comment.
pub fn is_skipped(line: &[u8]) -> bool
    ensures { result ≡ grammar.is_skipped line.now }
{
    matches!(line, [] | [b'#', ..])
}

// Does what a line asks for that is not skipped, where it may stand in a script of this scope.
#[tactic(auto, using(crate::proofs::Scoped::nothing_in, crate::proofs::Scoped::refused_in, crate::proofs::Scoped::asked_in))]
fn take_asking(
    alloc: Global,
    scope: Scope,
    sessions: &mut Sessions,
    number: u32,
    line: &[u8],
) -> Result<(), CauseOrMemory>
    requires { grammar.is_skipped line.now ≡ false }
    ensures { TakenIf result sessions.new (grammar.take_line number (line_in scope line.now)
        sessions.old) }
{
    let asked = command_of(alloc, line)?;
    scope.check(&asked)?;
    sessions.take(alloc, number, asked)
}

// Takes a line, where it may stand in a script of this scope.
#[tactic(auto, using(crate::proofs::Scoped::skipped_in))]
fn take_line(
    alloc: Global,
    scope: Scope,
    sessions: &mut Sessions,
    number: u32,
    line: &[u8],
) -> Result<(), BadLineOrMemory>
    ensures taken { TakenAs number result sessions.new (grammar.take_line number
        (line_in scope line.now) sessions.old) }
    ensures blamed { IfErr result BlamesLine }
{
    if is_skipped(line) {
        return Ok(());
    }
    match take_asking(alloc, scope, sessions, number, line) {
        Ok(()) => Ok(()),
        Err(CauseOrMemory::Refused(cause)) => Err(refusal(number, cause)),
        Err(CauseOrMemory::Memory) => Err(BadLineOrMemory::Memory),
    }
}

// The sessions after all lines of a text, or the first line that is refused.
fn all_lines(
    alloc: Global,
    scope: Scope,
    text: &[u8],
    chests: &[u32],
) -> Result<Sessions, BadLineOrMemory>
    requires { length text.now ≤ MAX_SCRIPT_BYTES }
    ensures parsed { ParsedAs result (grammar.take_lines 1 (map (line_in scope) (lines_of text.now))
        (grammar.start chests.now)) }
    ensures blamed { IfErr result BlamesLine }
{
    let mut sessions = Sessions::new(alloc, chests)?;
    let mut rest = text;
    let mut number: u32 = 1;
    while !rest.is_empty() {
        let (line, after) = first_line(rest);
        take_line(alloc, scope, &mut sessions, number, line)?;
        rest = after;
        number += 1;
    }
    Ok(sessions)
}

// The lines of each session, or the line that is refused.
fn read(alloc: Global, scope: Scope, text: &[u8], chests: &[u32]) -> Result<Script, BadLineOrMemory>
    ensures read { ScriptOf result (script_in scope text.now chests.now) }
    ensures blamed { IfErr result BlamesLine }
{
    if text.len() > MAX_SCRIPT_BYTES {
        return Err(refusal(line_of_last(text), Cause::TooLong));
    }
    let sessions = all_lines(alloc, scope, text, chests)?;
    match sessions.never_ended() {
        Some(line) => Err(refusal(line, Cause::NotEnded)),
        None => Ok(sessions.into_script(alloc)?),
    }
}

/// The lines of each session, or the line that is refused. `chests` are the numbers of the sessions' filters.
///
/// A text of more than `MAX_SCRIPT_BYTES` bytes is refused at the line of the byte of that number, whatever follows.
pub fn parse(alloc: Global, text: &[u8], chests: &[u32]) -> Result<Script, BadLineOrMemory>
    ensures read { ScriptOf result (grammar.script text.now chests.now) }
    ensures fits { IfOk result (λ script. FitsFilters chests.now (lists_of script)) }
    ensures blamed { IfErr result BlamesLine }
{
    read(alloc, Scope::Whole, text, chests)
}

/// The lines of session 0, where the script may be viewed, or the line that is refused: by the rules of `parse`, or
/// since it is of another session, a save or a peek. `filters` is the number of the session's filters.
pub fn parse_viewed(alloc: Global, text: &[u8], filters: u32) -> Result<Script, BadLineOrMemory>
    ensures read { ScriptOf result (view_lists text.now filters) }
    ensures fits { IfOk result (λ script. FitsFilters (filters ∷ []) (lists_of script)) }
    ensures blamed { IfErr result BlamesLine }
    ensures viewed { IfOk result (λ script. AllByRecursion IsViewedLine
        (grammar.list_at (lists_of script) 0)) }
{
    read(alloc, Scope::Viewed, text, &[filters])
}
