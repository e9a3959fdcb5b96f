//! Steps back and forth over groups of edits.
ghost use Rattle.std.specs.Prelude.{◌≡◌, ◌≤◌};
ghost use Rattle.spec_standing.specs.Steps.{IsChange, change_of, stepped};
ghost use Rattle.spec_standing.specs.Change.{IsCacheOf, gone_along};

use std::marker::Model;
use xl_doc::{Document, know_limits};
use xl_marks::{Cache, Change};
use xl_undo::Lead;

/// A group of edits that was made, or undone: what leads back over it, and what that does to the pictures
/// that are kept.
#[derive(Drop)]
pub struct Step {
    lead: Lead,
    change: Change,
}

impl Model for Step {
    ghost use Rattle.std.specs.Coded.{codes};
    ghost use Rattle.std.specs.Prelude.{◌≡◌};
    ghost use Rattle.spec_document.specs.Code.{coded_document};
    ghost use Rattle.spec_standing.specs.Steps as steps;
    ghost use Rattle.spec_standing.specs.Steps.{IsChange};

    ghost Value = { steps.Step };

    ghost coded = { Prim.hlevel (codes, coded_document) };

    ghost view = { λ s. record { from = s.lead.from; to = s.lead.to; damage = s.change.damage } };

    ghost invariant = { λ s. IsChange s.lead.from s.lead.to s.change };
}

impl Step {
    /// The step along a lead, where the change is that from where it leads from. It takes no memory.
    pub(crate) fn new(lead: Lead, change: Change) -> Step
        requires change { IsChange lead.from lead.to change }
        ensures { result ≡ record { from = lead.from; to = lead.to; damage = change.damage } }
    {
        Step { lead, change }
    }

    /// Takes the step to a new version: the document and the pictures that are kept are those of where it leads. It
    /// leads back from then on. It takes no memory.
    pub(crate) fn take(&mut self, document: &mut Document, cache: &mut Cache, version: u32)
        requires version { 1 ≤ version }
        requires from { self.old.from ≡ document.old }
        requires kept { IsCacheOf document.old cache.old }
        ensures to { document.new ≡ self.old.to }
        ensures cache { cache.new ≡ gone_along (change_of self.old) version cache.old }
        ensures back { self.new ≡ stepped self.old }
    {
        know_limits(document);
        self.lead.revert(document);
        know_limits(document);
        self.change.go(cache, version);
    }
}
