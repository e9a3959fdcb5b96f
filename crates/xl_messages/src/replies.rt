//! The replies of calls that did nothing.
use std::alloc::{AllocError, Global};
use xl_printed::read_reply;
use xl_script::Reply;
use xl_words::split_once;

// Why a call did nothing, if it did nothing. What a save that failed came to has its own status, and a peek that finds
// no tile has its answer.
fn idle_cause(alloc: Global, reply: Reply) -> Result<Option<String>, AllocError> {
    let text = match reply {
        Reply::Refused { index, cause } => {
            format!(in alloc; "edit {index} of its group: {cause}")?
        }
        Reply::Moved { now } => {
            format!(in alloc; "the latest version is {now}, and not the one that is named")?
        }
        Reply::NothingToUndo => String::from_str(alloc, "there is nothing to undo")?,
        Reply::NothingToRedo => String::from_str(alloc, "there is nothing to redo")?,
        Reply::NotTop { top } => {
            format!(in alloc; "an undo would undo group {top}, and not the one that is named")?
        }
        Reply::NoStack { node } => format!(in alloc; "there is no group node {node}")?,
        Reply::OutsideTile => String::from_str(alloc, "the picture has no such tile")?,
        Reply::HistoryFull => String::from_str(alloc, "the history is full")?,
        Reply::Changed { .. }
        | Reply::Tile { .. }
        | Reply::Stale { .. }
        | Reply::Top { .. }
        | Reply::Saved { .. }
        | Reply::SaveFault { .. }
        | Reply::SaveMemory { .. } => return Ok(None),
    };
    Ok(Some(text))
}

/// The sentence on a call, with a newline, where this is the line of its reply and it did nothing.
pub fn idle_text(alloc: Global, line: &[u8]) -> Result<Option<String>, AllocError> {
    let Some((call, reply)) = split_once(b' ', line) else {
        return Ok(None);
    };
    let Some(printed) = read_reply(reply) else {
        return Ok(None);
    };
    let Some(cause) = idle_cause(alloc, printed.reply)? else {
        return Ok(None);
    };
    let call = call.escape_ascii();
    Ok(Some(format!(in alloc; "call {call}: {cause}\n")?))
}
