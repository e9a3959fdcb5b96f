ghost use Rattle.std.specs.Prelude.{◌≡◌, ◌+◌, ◌<◌, Some, None, MatchOption, IfOk};
ghost use Rattle.spec_audit.specs.Reading as reading;
ghost use Rattle.xl_printed.specs.FirstLine.{first_line};

use crate::pieces::cut_at;
use crate::printed::{Printed, SessionReplies};
use crate::replies::read_reply;
use std::alloc::{AllocError, Global};
use xl_script::SESSIONS;
use xl_words::{number, number_below};

const SESSION_LIMIT: u64 = SESSIONS as u64;

/// A session, a point, and the index of its call.
pub fn read_place(word: &[u8]) -> Option<(u8, u32)>
    ensures { result ≡ reading.read_place word.now }
{
    let (session, index) = cut_at(b'.', word)?;
    let session = number_below(SESSION_LIMIT, session)? as u8;
    let index = number(index)?;
    Some((session, index))
}

// The reply in a line, where it is that of this call.
fn read_line(session: u8, index: u32, line: &[u8]) -> Option<Printed<'_>>
    ensures { result ≡ reading.read_line session index line.now }
{
    let (place, text) = cut_at(b' ', line)?;
    let place = read_place(place)?;
    if place.0 == session && place.1 == index {
        read_reply(text)
    } else {
        None
    }
}

// The reply in the first line, where it is that of this call, and what is behind the line.
fn first_reply(session: u8, index: u32, text: &[u8]) -> Option<(Printed<'_>, &[u8])>
    ensures { MatchOption result
        (first_line session index text.now ≡ None)
        (λ p. first_line session index text.now ≡ Some (p.0, p.1.now)) }
{
    let (line, after) = cut_at(b'\n', text)?;
    Some((read_line(session, index, line)?, after))
}

/// The replies in the first `count` lines, which are those of a session, and what is behind them.
pub fn read_lines(
    alloc: Global,
    session: u8,
    count: u32,
    text: &[u8],
) -> Result<Option<(SessionReplies<'_>, &[u8])>, AllocError>
    ensures { IfOk result (λ o. MatchOption o
        (reading.read_lines session 0 count text.now ≡ None)
        (λ t. reading.read_lines session 0 count text.now ≡ Some (t.0, t.1.now))) }
{
    let mut replies = SessionReplies::new(alloc);
    let mut rest = text;
    for index in 0..count {
        let Some((reply, after)) = first_reply(session, index, rest) else {
            return Ok(None);
        };
        replies.push(reply)?;
        rest = after;
    }
    Ok(Some((replies, rest)))
}
