//! A record of a document that is not handed in.
ghost use Rattle.std.specs.Prelude.{◌≡◌, IfOk};
ghost use Rattle.spec_undo.specs.Changed.{changed_in};
ghost use Rattle.xl_undo.specs.Leads.{LeadsBack};

use crate::recording::Record;
use std::alloc::{AllocError, Global};
use xl_doc::Document;

/// What leads from `after` back to `before`: a share of `before`.
pub fn record(alloc: Global, before: &Document, after: &Document) -> Result<Record, AllocError>
    ensures leads { IfOk result (λ r. LeadsBack before.now after.now r) }
    ensures tiles { IfOk result (λ r. r.tiles ≡ changed_in before.now after.now) }
{
    Ok(Record::new(before.share(alloc)?, after))
}
