//! The damage of an edit, by the document before it alone.
ghost use Rattle.std.specs.Prelude.{◌≡◌, ◌-◌, ◌<◌, ◌^◌, None, true, IfOk};
ghost use Rattle.spec_damage.specs.Damage as damage;
ghost use Rattle.spec_document.specs.Ids as ids;
ghost use Rattle.spec_edit.specs.Edit.{IsEdit};
ghost use Rattle.spec_edit.specs.Effect.{makes_node};
ghost use Rattle.spec_edit.specs.Refusal.{refusal};
ghost use Rattle.xl_regions.specs.Pairs.{pairs_of};
ghost use Rattle.xl_calls.specs.Edits.{edit_of};

use std::alloc::{AllocError, Global};
use xl_calls::Edit;
use xl_damage::damage_between;
use xl_doc::{Document, NodeId, Rect};
use xl_edit::{EditRefusedOrMemory, apply};
use xl_filters::{FilterKind, FilterState, Table};

/// What an edit that is not refused can change of which pictures: a list of stacks and rectangles of theirs, cut to the
/// canvas.
///
/// The edit is made on a share of the document. Who has the documents before and after it calls [`damage_between`].
pub fn damage(
    alloc: Global,
    before: &Document,
    edit: &Edit,
) -> Result<Vec<(NodeId, Rect)>, AllocError>
    requires edit { IsEdit (edit_of edit.now) }
    requires passes { refusal before.now (edit_of edit.now) ≡ None }
    requires next { ids.next_id before.now < 2 ^ 32 }
    requires another { makes_node (edit_of edit.now) ≡ true → ids.next_id before.now < 2 ^ 32 - 1 }
    ensures { IfOk result (λ list. pairs_of list.items ≡ damage.damage before.now
        (edit_of edit.now)) }
{
    let any_table = Table::of(FilterState {
        kind: FilterKind::Invert,
        amount: 0,
        uses: 0,
    });
    let mut after = before.share(alloc)?;
    let next_id = before.tree.greatest_id() + 1;
    let mut id_left = next_id;
    match apply(alloc, &mut after, &mut id_left, edit, &any_table) {
        Ok(()) => damage_between(alloc, before, &after, next_id, edit),
        Err(EditRefusedOrMemory::Refused(_)) => unreachable!(),
        Err(EditRefusedOrMemory::Memory) => Err(AllocError),
    }
}
