//! What an edit of each kind can change.
ghost use Rattle.std.specs.Prelude.{◌≡◌, None, IfOk};
ghost use Rattle.spec_document.specs.Document.{Document as Plain, is_indexed};
ghost use Rattle.spec_edit.specs.declared.EditRefused.TheVariants.{NotIndexed};
ghost use Rattle.spec_edit.specs.Edit.{IsEdit};
ghost use Rattle.spec_edit.specs.Refusal.{no_node, refusal, unless};
ghost use Rattle.xl_doc.specs.Numbered.{AreNumbered};
ghost use Rattle.xl_calls.specs.Edits.{edit_of};

use sample_documents::document;
use std::alloc::{AllocError, Global};
use xl_checks::{Bytes, check_node, is_indexed};
use xl_trial::{Document, Edit, NodeId, Rect, damage};

/// The file with a zero byte at a place, if it has this place.
pub fn with_zero(alloc: Global, file: &[u8], at: usize) -> Result<Vec<u8>, AllocError> {
    let mut bytes = file.to_vec(alloc)?;
    if let Some(byte) = bytes.get_mut(at) {
        *byte = 0;
    }
    Ok(bytes)
}

// What an edit can change that is not refused.
fn damage_of(alloc: Global, doc: &Document, edit: &Edit) -> Result<Vec<(NodeId, Rect)>, AllocError>
    requires numbered { AreNumbered doc.now.nodes }
    requires edit { IsEdit (edit_of edit.now) }
    requires passes { refusal doc.now (edit_of edit.now) ≡ None }
{
    damage(alloc, doc, edit)
}

// What an edit can change that is refused only where there is no such node.
fn damage_by_node(
    alloc: Global,
    doc: &Document,
    id: NodeId,
    edit: &Edit,
) -> Result<Vec<(NodeId, Rect)>, AllocError>
    requires numbered { AreNumbered doc.now.nodes }
    requires edit { IsEdit (edit_of edit.now) }
    requires rule { refusal doc.now (edit_of edit.now) ≡ no_node doc.now id.0 }
{
    match check_node(doc, id) {
        Ok(()) => damage_of(alloc, doc, edit),
        Err(_) => Err(AllocError),
    }
}

/// What can change where a node of a file's document is shown or hidden.
pub fn damage_by_showing(
    alloc: Global,
    file: &[u8],
    id: u32,
    on: bool,
) -> Result<Vec<(NodeId, Rect)>, AllocError> {
    let doc = document(alloc, file)?;
    let id = NodeId(id);
    let list = damage_by_node(alloc, &doc, id, &Edit::SetVisible { id, on });
    drop(doc);
    list
}

/// What can change with the opacity of a node.
pub fn damage_by_fading(
    alloc: Global,
    file: &[u8],
    id: u32,
) -> Result<Vec<(NodeId, Rect)>, AllocError> {
    let doc = document(alloc, file)?;
    let id = NodeId(id);
    let list = damage_by_node(alloc, &doc, id, &Edit::SetOpacity { id, value: 9 });
    drop(doc);
    list
}

// A colour map of one colour.
fn one_colour(alloc: Global) -> Result<Edit, AllocError>
    ensures edit { IfOk result (λ edit. IsEdit (edit_of edit)) }
    ensures rule { IfOk result (λ edit. (d : Plain) → refusal d (edit_of edit) ≡ unless
        (is_indexed d.base) NotIndexed) }
{
    let bytes = Bytes::from_slice(alloc, &[1, 2, 3])?;
    Ok(Edit::SetColours { bytes })
}

// What an edit can change that is refused only where the document is not indexed.
fn damage_by_colours(
    alloc: Global,
    doc: &Document,
    edit: &Edit,
) -> Result<Vec<(NodeId, Rect)>, AllocError>
    requires numbered { AreNumbered doc.now.nodes }
    requires edit { IsEdit (edit_of edit.now) }
    requires rule { refusal doc.now (edit_of edit.now) ≡ unless (is_indexed doc.now.base)
        NotIndexed }
{
    if is_indexed(doc) {
        damage_of(alloc, doc, edit)
    } else {
        Err(AllocError)
    }
}

/// What can change with the colour map of a file's document.
pub fn damage_by_colouring(alloc: Global, file: &[u8]) -> Result<Vec<(NodeId, Rect)>, AllocError> {
    let edit = one_colour(alloc)?;
    let doc = document(alloc, file)?;
    let list = damage_by_colours(alloc, &doc, &edit);
    drop(doc);
    list
}
