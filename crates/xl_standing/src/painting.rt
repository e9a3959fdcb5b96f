//! Groups of one edit that paints one layer, which are made on the document itself: what they cost does not hang on the
//! number of nodes.
ghost use Rattle.std.specs.Prelude.{◌≡◌, ℕ, ◌∷◌, [], false, IfOk, IfErr, IfSome, OnOk, OnErr, None, Some, Ok, Err};
ghost use Rattle.spec_edit.specs.Apply.{apply_group, is_filter};
ghost use Rattle.spec_edit.specs.Edit.{IsEdit};
ghost use Rattle.spec_edit.specs.Effect.{effect, makes_node};
ghost use Rattle.spec_edit.specs.Refusal.{refusal};
ghost use Rattle.xl_calls.specs.Applicable.{HasNext};
ghost use Rattle.xl_calls.specs.Edits.{edit_of};
ghost use Rattle.xl_edit.specs.Applied.{at};
ghost use Rattle.xl_standing.specs.Made.{IsMadeOf, MayPaint};
ghost use Rattle.xl_standing.specs.Painted.{IsWhy};
ghost use Rattle.xl_standing.specs.declared.painting.NotPainted.TheVariants.{Refused};

use crate::made::Made;
use std::alloc::{AllocError, Global};
use xl_calls::{Edit, EditRefused};
use xl_checks::{copyable, fillable, mask_fillable, writable};
use xl_desk::blank_table;
use xl_doc::{Document, NodeId};
use xl_edit::{EditRefusedOrMemory, apply};
use xl_filters::Tables;
use xl_marks::{Change, Damage};
use xl_undo::{KeptLayer, Lead};

/// Why an edit is not painted: it is refused, or it is another edit.
#[derive(Drop)]
pub(crate) enum NotPainted {
    Other,
    Refused(EditRefused),
}

impl From<EditRefused> for NotPainted {
    ghost from_gives = { λ cause why. why ≡ Refused cause };

    fn from(cause: EditRefused) -> Self {
        NotPainted::Refused(cause)
    }
}

/// The one edit of a group. None of another group.
pub(crate) fn only(edits: &[Edit]) -> Option<&Edit>
    ensures { IfSome result (λ edit. edits.now ≡ edit.now ∷ []) }
{
    let (first, rest) = edits.split_first()?;
    if rest.is_empty() { Some(first) } else { None }
}

/// The layer that an edit paints.
pub(crate) fn painted(document: &Document, edit: &Edit) -> Result<NodeId, NotPainted>
    ensures may { IfOk result (λ id. MayPaint document.now id.0 (edit_of edit.now)) }
    ensures why { IfErr result (IsWhy document.now (edit_of edit.now)) }
{
    match edit {
        Edit::Fill { id, rect, pixel } => {
            fillable(document, *id, *rect, pixel.as_slice())?;
            Ok(*id)
        }
        Edit::Write { id, rect, bytes } => {
            writable(document, *id, *rect, bytes.as_slice())?;
            Ok(*id)
        }
        Edit::CopyRect {
            id,
            rect,
            from,
            u,
            v,
        } => {
            copyable(document, *id, *rect, *from, *u, *v)?;
            Ok(*id)
        }
        Edit::FillMask { id, rect, value } => {
            mask_fillable(document, *id, *rect, *value)?;
            Ok(*id)
        }
        _ => Err(NotPainted::Other),
    }
}

/// Makes a group of one edit that paints a layer. After out of memory the document is as before.
pub(crate) fn paint(
    alloc: Global,
    document: &mut Document,
    next_id: u32,
    id: NodeId,
    edit: &Edit,
) -> Result<Made, AllocError>
    requires edit { IsEdit (edit_of edit.now) }
    requires next { HasNext document.old next_id (edit_of edit.now) }
    requires may { MayPaint document.old id.0 (edit_of edit.now) }
    ensures made { IfOk result (IsMadeOf (at document.old next_id) (at document.new next_id)
        (edit_of edit.now ∷ [])) }
    ensures tables { IfOk result (λ made. made.tables ≡ []) }
    ensures as_before { OnErr result (document.new ≡ document.old) }
{
    let damage = Damage::of_paint(alloc, document, edit)?;
    let change = Change::of_same_stacks(alloc, document, damage)?;
    let before = KeptLayer::of(alloc, document, id)?;
    apply_plain(alloc, document, next_id, edit)?;
    let lead = Lead::over_layer(before, document);
    Ok(Made {
        lead,
        change,
        tables: Tables::new(alloc),
    })
}

// Applies an edit that is not refused, no filter, and makes no node. After out of memory the document is as before.
fn apply_plain(
    alloc: Global,
    document: &mut Document,
    next_id: u32,
    edit: &Edit,
) -> Result<(), AllocError>
    requires edit { IsEdit (edit_of edit.now) }
    requires next { HasNext document.old next_id (edit_of edit.now) }
    requires allowed { refusal document.old (edit_of edit.now) ≡ None }
    requires plain { is_filter (edit_of edit.now) ≡ false }
    requires keeps { makes_node (edit_of edit.now) ≡ false }
    ensures applied { OnOk result (apply_group (at document.old next_id) (edit_of edit.now ∷ []) []
        ≡ Ok (at document.new next_id)) }
    ensures made { OnOk result (document.new ≡ effect document.old next_id [] (edit_of edit.now)) }
    ensures as_before { OnErr result (document.new ≡ document.old) }
{
    let mut next_id = next_id;
    let table = blank_table();
    match apply(alloc, document, &mut next_id, edit, &table) {
        Ok(()) => Ok(()),
        Err(EditRefusedOrMemory::Refused(_)) => unreachable!(),
        Err(EditRefusedOrMemory::Memory) => Err(AllocError),
    }
}
