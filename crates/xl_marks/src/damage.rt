//! What edits damage.
ghost use Rattle.std.specs.Prelude.{◌≡◌, ℕ, ◌<◌, ◌≤◌, ◌++◌, [], None, IfOk, OnOk, OnErr};
ghost use Rattle.std.specs.List.{AllByRecursion};
ghost use Rattle.spec_damage.specs.Damage as damage;
ghost use Rattle.spec_edit.specs.Refusal.{refusal};
ghost use Rattle.spec_document.specs.Forest.{ids};
ghost use Rattle.xl_calls.specs.Edits.{edit_of};
ghost use Rattle.xl_damage.specs.Between.{IsMade};
ghost use Rattle.xl_damage.specs.Painted.{IsPaint};
ghost use Rattle.xl_regions.specs.Pairs.{pairs_of};
ghost use Rattle.spec_standing.specs.Change.{marked_by};

use std::alloc::{AllocError, Global};
use std::marker::Model;
use xl_cache::Cache;
use xl_calls::Edit;
use xl_damage::{damage_before, damage_between};
use xl_doc::{Document, NodeId, Rect};

/// The rectangles in which edits may change pictures, each with its stack, in the order of the edits.
#[derive(Drop)]
pub struct Damage {
    pairs: Vec<(NodeId, Rect)>,
}

impl Model for Damage {
    ghost use Rattle.std.specs.Prelude.{List};
    ghost use Rattle.spec_damage.specs.Damage.{Pair};
    ghost use Rattle.xl_regions.specs.Pairs.{pairs_of};

    ghost Value = { List Pair };

    ghost view = { λ d. pairs_of d.pairs.items };
}

impl Damage {
    /// No damage yet. No memory is taken.
    pub fn new(alloc: Global) -> Damage
        ensures { result ≡ [] }
    {
        Damage {
            pairs: Vec::new(alloc),
        }
    }

    /// The damage of an edit that paints one layer alone, by the document before it.
    pub fn of_paint(alloc: Global, before: &Document, edit: &Edit) -> Result<Damage, AllocError>
        requires passes { refusal before.now (edit_of edit.now) ≡ None }
        requires paints { (id : ℕ) × IsPaint id (edit_of edit.now) }
        ensures { IfOk result (λ d. d ≡ damage.damage before.now (edit_of edit.now)) }
    {
        Ok(Damage {
            pairs: damage_before(alloc, before, edit)?,
        })
    }

    /// The rectangles, each with its stack.
    pub fn as_slice(&self) -> &[(NodeId, Rect)]
        ensures { pairs_of result.now ≡ self.now }
    {
        self.pairs.as_slice()
    }

    /// Marks the rectangles at a version. Where a stack has no slots nothing is marked.
    pub(crate) fn mark(&self, cache: &mut Cache, version: u32)
        requires version { 1 ≤ version }
        ensures { cache.new ≡ marked_by self.now version cache.old }
    {
        for (stack, rect) in self.pairs.as_slice() {
            cache.mark(*stack, *rect, version);
        }
    }

    /// Adds the damage of an edit, by the documents before and after it. `next_id` is the id that a new node got.
    pub fn add(
        &mut self,
        alloc: Global,
        before: &Document,
        after: &Document,
        next_id: u32,
        edit: &Edit,
    ) -> Result<(), AllocError>
        requires passes { refusal before.now (edit_of edit.now) ≡ None }
        requires positive { 1 ≤ next_id }
        requires above { AllByRecursion (λ id. id < next_id) (ids before.now.nodes) }
        requires made { IsMade before.now after.now next_id (edit_of edit.now) }
        ensures added { OnOk result (self.new ≡ self.old ++ damage.damage before.now
            (edit_of edit.now)) }
        ensures as_before { OnErr result (self.new ≡ self.old) }
    {
        let list = damage_between(alloc, before, after, next_id, edit)?;
        self.pairs.extend_from_slice(list.as_slice())?;
        Ok(())
    }
}
