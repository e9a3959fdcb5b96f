//! The calls of a script, session by session.
ghost use Rattle.std.specs.Prelude.{◌≡◌, [], ◌∷◌, ◌++◌, map, OnOk, IfOk, MatchOption};
ghost use Rattle.spec_script.specs.Script as script;
ghost use Rattle.spec_text.specs.Text.{calls_of};
ghost use Rattle.xl_judging.specs.Calls.{calls_in, line_at, line_in, IsNoCall};
ghost use Rattle.xl_calls.specs.Calls.{call_of};
ghost use Rattle.xl_script.specs.Lines.{line_of, lines_of, lists_of};

use std::alloc::{AllocError, Global};
use std::marker::Model;
use xl_calls::Call;
use xl_script::{Line, OrderWord, SESSIONS, Script};

/// The calls of a session: its lines but those by which it drops a filter.
#[derive(Drop)]
pub struct SessionCalls<'a> {
    items: Vec<&'a Line>,
}

impl<'a> Model for SessionCalls<'a> {
    ghost use Rattle.std.specs.Prelude.{List, map};
    ghost use Rattle.spec_script.specs.Script as script;
    ghost use Rattle.xl_script.specs.Lines.{line_of};

    ghost Value = { List script.Line };

    ghost view = { λ c. map (λ l. line_of l.now) c.items.items };
}

impl<'a> SessionCalls<'a> {
    fn new(alloc: Global) -> Self
        ensures { result ≡ [] }
    {
        SessionCalls {
            items: Vec::new(alloc),
        }
    }

    fn push(&mut self, line: &'a Line) -> Result<(), AllocError>
        ensures { OnOk result (self.new ≡ self.old ++ line_of line.now ∷ []) }
    {
        self.items.push(line)?;
        Ok(())
    }

    // The call at this place, if it is none of a save.
    fn get(&self, index: u32) -> Option<&'a Call>
        ensures { MatchOption result
            (IsNoCall (line_at self.now index))
            (λ c. line_at self.now index ≡ script.call (call_of c.now)) }
    {
        match self.items.get(index as usize).copied() {
            Some(Line::Call(call)) => Some(call),
            Some(Line::Save) | Some(Line::Forget(_)) | None => None,
        }
    }
}

fn session_calls<'a>(alloc: Global, lines: &'a [Line]) -> Result<SessionCalls<'a>, AllocError>
    ensures { IfOk result (λ calls. calls ≡ calls_of (lines_of lines.now)) }
{
    let mut calls = SessionCalls::new(alloc);
    for line in lines {
        match line {
            Line::Call(_) | Line::Save => calls.push(line)?,
            Line::Forget(_) => {}
        }
    }
    Ok(calls)
}

/// The calls of each of the eight sessions.
pub fn script_calls<'a>(
    alloc: Global,
    script: &'a Script,
) -> Result<Vec<SessionCalls<'a>>, AllocError>
    ensures { IfOk result (λ calls. calls.items ≡ calls_in (lists_of script.now)) }
{
    let mut calls = Vec::new(alloc);
    for session in 0..SESSIONS {
        calls.push(session_calls(alloc, script.lines(session))?)?;
    }
    Ok(calls)
}

/// The call of a word. None where it is a save.
pub fn call_at<'a>(calls: &[SessionCalls<'a>], word: OrderWord) -> Option<&'a Call>
    ensures { MatchOption result
        (IsNoCall (line_in calls.now word))
        (λ c. line_in calls.now word ≡ script.call (call_of c.now)) }
{
    match calls.get(word.session as usize) {
        Some(session) => session.get(word.index),
        None => None,
    }
}
