//! What is told of a run of sessions, and how it is written.
ghost use Rattle.std.specs.Prelude.{◌≡◌, IfOk, OnOk, IsOk, string_bytes};
ghost use Rattle.spec_generated.specs.Summary.{summary_of};
ghost use Rattle.spec_run.specs.Failed.{WhetherFailed};
ghost use Rattle.spec_saves.specs.Names.{save_faults};
ghost use Rattle.xl_commands.specs.Played.{WritesReplies};
ghost use Rattle.xl_play.specs.History.{document as last_document};
ghost use Rattle.xl_outcome.specs.AtSource.{IfOfSource};

use crate::made::picture_digest;
use std::alloc::{AllocError, Global};
use xl_outcome::Stopped;
use xl_play::{Core, Replies, has_save_fault};
use xl_ports::{Shelf, Sink, write_all};
use xl_report::summary;

/// Writes the text of a run.
pub fn write_replies<K: Sink>(
    sink: &mut K,
    replies: Result<Replies, AllocError>,
) -> Result<(), Stopped>
    ensures writes { WritesReplies K.held K.faults sink.old sink.new replies result }
    ensures past_source { IfOfSource result ⊥ }
{
    let Ok(replies) = replies else {
        return Err(Stopped::Memory);
    };
    if write_all(sink, replies.text.as_bytes()).is_err() {
        return Err(Stopped::SinkFault);
    }
    if replies.save_failed {
        return Err(Stopped::SaveFault);
    }
    Ok(())
}

/// The line that sums up what was made of a document, in the place of its sessions' lines, and whether a save failed.
pub fn sum_up<D: Shelf>(
    alloc: Global,
    core: &Core<D>,
    text: Result<String, AllocError>,
) -> Result<Replies, AllocError>
    ensures played { OnOk result (IsOk text) }
    ensures text { IfOk result (λ told. string_bytes told.text ≡ summary_of
        (last_document core.now.history)) }
    ensures failed { IfOk result (λ told. WhetherFailed told.save_failed
        (save_faults core.now.history.entries)) }
{
    let _replaced = text?;
    let digest = picture_digest(alloc, core.document())?;
    let text = summary(alloc, digest.as_str())?;
    Ok(Replies {
        text,
        save_failed: has_save_fault(core.entries()),
    })
}
