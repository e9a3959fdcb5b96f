//! The lines of a talk, which are heard one by one.
ghost use Rattle.std.specs.Prelude.{◌≡◌, ◌<◌, Some, IfOk, IfSome};
ghost use Rattle.spec_script.specs.Script as grammar;
ghost use Rattle.spec_script.specs.Words.{words_of};
ghost use Rattle.spec_serve.specs.Hearing as talk;
ghost use Rattle.xl_script.specs.Commands.{asked_of, command_is};
ghost use Rattle.xl_script.specs.Heard.{Hears};

use crate::command::Request;
use crate::commands::{Asked, command_of, session};
use crate::parsing::is_skipped;
use crate::script::{Line, SESSIONS};
use crate::sessions::Sessions;
use std::alloc::{AllocError, Global};
use std::marker::Model;
use xl_words::{Cause, CauseOrMemory, first_word};

/// What a line asks for: a line of a session's script that is whole now, or nothing yet; or why it is bad.
#[derive(Drop)]
pub enum Heard {
    Plays(u8, Line),
    Nothing,
    Bad(Cause),
}

/// What was heard so far: the groups that are open, the filters that are there, and the last bad line of each session
/// and of none, by which a group is void that a bad line stands in.
#[derive(Drop)]
pub struct Hearing {
    sessions: Sessions,
    bad_lines: [u32; SESSIONS as usize],
    bad_other: u32,
}

impl Model for Hearing {
    ghost use Rattle.std.specs.Prelude.{◌≡◌};
    ghost use Rattle.spec_serve.specs.Hearing as talk;

    ghost Value = { talk.Hearing };

    ghost view = { λ h. record { parsed = h.sessions; bad_lines = h.bad_lines; bad_other = h.bad_other } };

    ghost invariant = { λ h. h.sessions.calls ≡ 0 };
}

// The session that a line names.
fn named_by(line: &[u8]) -> Option<u8>
    ensures named { result ≡ talk.named_by (words_of line.now) }
    ensures below { IfSome result (λ n. n < 8) }
{
    let (first, _rest) = first_word(line);
    session(first)
}

// Whether a line asks for the end of a group.
fn is_end(command: &Request) -> bool
    ensures { result ≡ talk.is_end (command_is command.now) }
{
    match command {
        Request::End => true,
        Request::Edit(_)
        | Request::Begin(_)
        | Request::Call(_)
        | Request::Save
        | Request::Forget(_) => false,
    }
}

impl Hearing {
    /// Nothing was heard yet. `chests` are the numbers of the sessions' filters.
    pub fn new(alloc: Global, chests: &[u32]) -> Result<Hearing, AllocError>
        ensures { IfOk result (λ h. h ≡ talk.start_hearing chests.now) }
    {
        Ok(Hearing {
            sessions: Sessions::new(alloc, chests)?,
            bad_lines: [0; SESSIONS as usize],
            bad_other: 0,
        })
    }

    // Remembers a bad line.
    fn refuse(&mut self, number: u32, line: &[u8])
        ensures { self.new ≡ talk.bad_at number (talk.named_by (words_of line.now)) self.old }
    {
        match named_by(line) {
            Some(session) => self.bad_lines[session as usize] = number,
            None => self.bad_other = number,
        }
    }

    // Whether the open group of a session cannot be made.
    fn cannot_end(&self, session: u8) -> bool
        requires { session < 8 }
        ensures { result ≡ talk.cannot_end session self.now (talk.group_at self.now.parsed session) }
    {
        self.sessions
            .is_unmade(session, self.bad_lines[session as usize], self.bad_other)
    }

    // Drops the open group of a session.
    fn drop_group(&mut self, session: u8)
        requires { session < 8 }
        ensures { self.new ≡ (talk.dropped session self.old).hearing }
    {
        self.sessions.drop_group(session);
    }

    // What a line asks for that may be taken.
    fn take(
        &mut self,
        alloc: Global,
        number: u32,
        line: &[u8],
        asked: Asked<'_>,
    ) -> Result<Heard, AllocError>
        requires { asked.session < 8 }
        ensures { Hears result self.old self.new (talk.taken number (words_of line.now) self.old
            asked.entry.session (grammar.take_by number (asked_of asked.entry) self.old.parsed)) }
    {
        let session = asked.session;
        match self.sessions.take(alloc, number, asked) {
            Ok(()) => match self.sessions.take_whole(session) {
                Some(line) => Ok(Heard::Plays(session, line)),
                None => Ok(Heard::Nothing),
            },
            Err(CauseOrMemory::Refused(cause)) => {
                self.refuse(number, line);
                Ok(Heard::Bad(cause))
            }
            Err(CauseOrMemory::Memory) => Err(AllocError),
        }
    }

    // What a line asks for that is in the grammar.
    fn take_or_drop(
        &mut self,
        alloc: Global,
        number: u32,
        line: &[u8],
        asked: Asked<'_>,
    ) -> Result<Heard, AllocError>
        requires { asked.session < 8 }
        ensures { Hears result self.old self.new (talk.scripted number (words_of line.now) self.old
            (Some (asked_of asked.entry))) }
    {
        if is_end(&asked.command) && self.cannot_end(asked.session) {
            self.drop_group(asked.session);
            return Ok(Heard::Bad(Cause::EmptyGroup));
        }
        self.take(alloc, number, line, asked)
    }

    /// What a line asks for that is no request, and what was heard then.
    pub fn hear(&mut self, alloc: Global, number: u32, line: &[u8]) -> Result<Heard, AllocError>
        ensures { Hears result self.old self.new (talk.hear_script number line.now self.old) }
    {
        if is_skipped(line) {
            return Ok(Heard::Nothing);
        }
        match command_of(alloc, line) {
            Ok(asked) => self.take_or_drop(alloc, number, line, asked),
            Err(CauseOrMemory::Refused(cause)) => {
                self.refuse(number, line);
                Ok(Heard::Bad(cause))
            }
            Err(CauseOrMemory::Memory) => Err(AllocError),
        }
    }
}
