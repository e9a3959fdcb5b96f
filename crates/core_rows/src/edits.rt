//! The edits of a session.
ghost use Rattle.std.specs.Prelude.{[], ◌∷◌, IfOk};
ghost use Rattle.spec_edit.specs.Edit.{IsEdit};
ghost use Rattle.spec_history.specs.Calls.{IsGroupOfEdits};
ghost use Rattle.spec_tables.specs.Agrees.{AreThere};
ghost use Rattle.xl_calls.specs.Edits.{edit_of, edits_of};

use std::alloc::{AllocError, Global};
use xl_calls::{Bytes, Edit, Edits, Group, NodeId, Rect};

/// The image.
pub(crate) const IMAGE: NodeId = NodeId(0);

/// The group that is made, which is the document's second node.
pub(crate) const GROUP: NodeId = NodeId(2);

/// The layer.
const LAYER: NodeId = NodeId(1);

/// What an edit does.
#[derive(Clone, Copy)]
pub(crate) enum Change {
    /// The layer gets this opacity.
    Fade(u8),
    /// The layer's pixel becomes another.
    Fill,
    /// A group is made.
    AddGroup,
    /// The group goes.
    DropGroup,
}

// A group of one edit.
fn group_of(alloc: Global, edit: Edit) -> Result<Group, AllocError>
    requires within { IsEdit (edit_of edit) }
    requires plain { AreThere [] (edit_of edit ∷ []) }
    ensures built { IfOk result (λ group. IsGroupOfEdits (edits_of group.edits)) }
    ensures plain { IfOk result (λ group. AreThere [] (edits_of group.edits)) }
{
    let mut edits = Edits::new(alloc);
    edits.push(edit)?;
    Ok(Group { guard: None, edits })
}

// The fill of the layer's pixel.
fn fill(alloc: Global, pixel: &[u8]) -> Result<Group, AllocError>
    ensures built { IfOk result (λ group. IsGroupOfEdits (edits_of group.edits)) }
    ensures plain { IfOk result (λ group. AreThere [] (edits_of group.edits)) }
{
    let pixel = Bytes::from_slice(alloc, pixel)?;
    let rect = Rect {
        x: 0,
        y: 0,
        w: 1,
        h: 1,
    };
    group_of(
        alloc,
        Edit::Fill {
            id: LAYER,
            rect,
            pixel,
        },
    )
}

// The making of a group above the layer.
fn add_group(alloc: Global, name: &[u8]) -> Result<Group, AllocError>
    ensures built { IfOk result (λ group. IsGroupOfEdits (edits_of group.edits)) }
    ensures plain { IfOk result (λ group. AreThere [] (edits_of group.edits)) }
{
    let name = Bytes::from_slice(alloc, name)?;
    group_of(
        alloc,
        Edit::NewGroup {
            parent: IMAGE,
            place: 0,
            name,
        },
    )
}

/// The edit that makes a change.
pub(crate) fn edit_for(alloc: Global, change: Change) -> Result<Group, AllocError>
    ensures built { IfOk result (λ group. IsGroupOfEdits (edits_of group.edits)) }
    ensures plain { IfOk result (λ group. AreThere [] (edits_of group.edits)) }
{
    match change {
        Change::Fade(value) => group_of(alloc, Edit::SetOpacity { id: LAYER, value }),
        Change::Fill => fill(alloc, &[1, 2, 3, 255]),
        Change::AddGroup => add_group(alloc, b"group"),
        Change::DropGroup => group_of(alloc, Edit::Delete { id: GROUP }),
    }
}
