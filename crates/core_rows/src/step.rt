//! What the tests ask.
ghost use Rattle.std.specs.Prelude.{IfOk};
ghost use Rattle.core_rows.specs.Asked.{IsPlain, IsPlainEdit};
ghost use Rattle.xl_calls.specs.Calls.{call_of};
ghost use Rattle.xl_calls.specs.Edits.{edit_of};

use std::alloc::{AllocError, Global};
use xl_calls::{Bytes, Call, Edit, Edits, Group, NodeId, Rect, TileAt};

/// The code of the mode multiply.
const MULTIPLY: u32 = 3;

/// A call that names no filter. A tile is that of a stack at a column and a row, and a peek has seen the last version.
#[derive(Clone, Copy)]
pub enum Step {
    Tile(u32, u32, u32),
    Peek(u32, u32, u32),
    Undo,
    Delete(u32),
    Fade(u32, u8),
    /// Both in one group.
    FadeTwo(u32, u32),
    /// The first pixel of a layer with colours and alpha becomes another.
    Fill(u32),
    /// That of a grey layer without alpha.
    FillGrey(u32),
    Hide(u32),
    Move(u32, i32, i32),
    Multiply(u32),
}

// A group of one edit.
fn group_of(alloc: Global, edit: Edit) -> Result<Call, AllocError>
    requires { IsPlainEdit (edit_of edit) }
    ensures { IfOk result (λ call. IsPlain (call_of call)) }
{
    let mut edits = Edits::new(alloc);
    edits.push(edit)?;
    Ok(Call::Edit(Group { guard: None, edits }))
}

// A group of two edits: the same opacity of two nodes.
fn fade_two(alloc: Global, id: u32, other: u32) -> Result<Call, AllocError>
    ensures { IfOk result (λ call. IsPlain (call_of call)) }
{
    let mut edits = Edits::new(alloc);
    edits.push(Edit::SetOpacity {
        id: NodeId(id),
        value: 9,
    })?;
    edits.push(Edit::SetOpacity {
        id: NodeId(other),
        value: 9,
    })?;
    Ok(Call::Edit(Group { guard: None, edits }))
}

// The fill of the first pixel of a layer.
fn fill_first(alloc: Global, id: u32, pixel: &[u8]) -> Result<Call, AllocError>
    ensures { IfOk result (λ call. IsPlain (call_of call)) }
{
    let pixel = Bytes::from_slice(alloc, pixel)?;
    let rect = Rect {
        x: 0,
        y: 0,
        w: 1,
        h: 1,
    };
    group_of(
        alloc,
        Edit::Fill {
            id: NodeId(id),
            rect,
            pixel,
        },
    )
}

/// The call of a step.
pub fn call(alloc: Global, step: Step) -> Result<Call, AllocError>
    ensures { IfOk result (λ call. IsPlain (call_of call)) }
{
    match step {
        Step::Tile(stack, col, row) => Ok(Call::Tile(NodeId(stack), TileAt { col, row })),
        Step::Peek(stack, col, row) => Ok(Call::Peek(NodeId(stack), TileAt { col, row })),
        Step::Undo => Ok(Call::Undo(None)),
        Step::Delete(id) => group_of(alloc, Edit::Delete { id: NodeId(id) }),
        Step::Fade(id, value) => group_of(
            alloc,
            Edit::SetOpacity {
                id: NodeId(id),
                value,
            },
        ),
        Step::FadeTwo(id, other) => fade_two(alloc, id, other),
        Step::Fill(id) => fill_first(alloc, id, &[1, 2, 3, 255]),
        Step::FillGrey(id) => fill_first(alloc, id, &[1]),
        Step::Hide(id) => group_of(
            alloc,
            Edit::SetVisible {
                id: NodeId(id),
                on: false,
            },
        ),
        Step::Move(id, x, y) => group_of(
            alloc,
            Edit::SetOffset {
                id: NodeId(id),
                x,
                y,
            },
        ),
        Step::Multiply(id) => group_of(
            alloc,
            Edit::SetMode {
                id: NodeId(id),
                mode: MULTIPLY,
            },
        ),
    }
}
