//! The stacks above a stack, and the nodes at the bottom of one.
ghost use Rattle.std.specs.Prelude.{◌≡◌, ◌==◌, [], ◌∷◌, not, filter, option_map, IfOk, OnOk};
ghost use Rattle.std.specs.List.{list_any};
ghost use Rattle.spec_damage.specs.Damage as damage;
ghost use Rattle.xl_regions.specs.Pairs.{numbers, copies, spread, Adds};
ghost use Rattle.xl_grid.specs.Small.{IsSmall};

use crate::cutting::part_on_canvas;
use std::alloc::{AllocError, Global};
use xl_doc::{Document, NodeId, Rect};
use xl_grid::is_empty;

/// The stack that a node stands in.
pub fn stack_of(doc: &Document, id: NodeId) -> NodeId
    ensures { result.0 ≡ damage.stack_of doc.now.nodes id.0 }
{
    if id.0 == 0 {
        return NodeId(0);
    }
    match doc.tree.ancestors(id).as_slice().first() {
        None => NodeId(0),
        Some(stack) => *stack,
    }
}

/// The stacks above a stack, the innermost first, and the whole image last.
fn stacks_above(alloc: Global, doc: &Document, stack: NodeId) -> Result<Vec<NodeId>, AllocError>
    ensures { IfOk result (λ stacks. numbers stacks.items ≡ damage.stacks_above doc.now.nodes
        stack.0) }
{
    let mut stacks = Vec::new(alloc);
    if stack.0 == 0 || doc.tree.find(stack).is_none() {
        return Ok(stacks);
    }
    let above = doc.tree.ancestors(stack);
    for id in above.as_slice() {
        stacks.push(*id)?;
    }
    stacks.push(NodeId(0))?;
    Ok(stacks)
}

/// The last child of a stack that is visible.
pub fn bottom_visible(doc: &Document, stack: NodeId) -> Option<NodeId>
    ensures { option_map (λ i. i.0) result ≡ damage.bottom_visible doc.now stack.0 }
{
    doc.tree.bottom_visible(stack)
}

/// Whether both are one node, or neither is any.
pub fn same_id(first: Option<NodeId>, second: Option<NodeId>) -> bool
    ensures { result ≡ damage.same_id (option_map (λ i. i.0) first) (option_map (λ i. i.0) second) }
{
    match (first, second) {
        (None, None) => true,
        (None, Some(_)) | (Some(_), None) => false,
        (Some(first), Some(second)) => first.0 == second.0,
    }
}

// Whether a stack is among these.
fn has_stack(stacks: &[NodeId], stack: NodeId) -> bool
    ensures { result ≡ list_any (λ m. m == stack.0) (numbers stacks.now) }
{
    for other in stacks {
        if other.0 == stack.0 {
            return true;
        }
    }
    false
}

// Adds the same rectangle of each of these stacks.
fn add_copies(
    list: &mut Vec<(NodeId, Rect)>,
    stacks: &[NodeId],
    rect: Rect,
) -> Result<(), AllocError>
    ensures { OnOk result (Adds list.old.items list.new.items (copies rect (numbers stacks.now))) }
{
    for stack in stacks {
        list.push((*stack, rect))?;
    }
    Ok(())
}

/// Adds the same rectangle of each of these stacks that is not among those before.
fn add_other_copies(
    list: &mut Vec<(NodeId, Rect)>,
    before: &[NodeId],
    stacks: &[NodeId],
    rect: Rect,
) -> Result<(), AllocError>
    ensures { OnOk result (Adds list.old.items list.new.items (copies rect
        (filter (λ n. not (list_any (λ m. m == n) (numbers before.now))) (numbers stacks.now)))) }
{
    for stack in stacks {
        if !has_stack(before, *stack) {
            list.push((*stack, rect))?;
        }
    }
    Ok(())
}

/// Adds a rectangle of a stack, cut to the canvas, and then the same for each stack above it, before the edit or after
/// it. Nothing where no point of it is on the canvas.
pub fn add_region(
    alloc: Global,
    list: &mut Vec<(NodeId, Rect)>,
    before: &Document,
    after: &Document,
    stack: NodeId,
    rect: Rect,
) -> Result<(), AllocError>
    requires { IsSmall rect }
    ensures { OnOk result (Adds list.old.items list.new.items
        (spread before.now after.now (record { stack = stack.0; rect = rect } ∷ []))) }
{
    let part = part_on_canvas(before, rect);
    if is_empty(part) {
        return Ok(());
    }
    let old = stacks_above(alloc, before, stack)?;
    let new = stacks_above(alloc, after, stack)?;
    list.push((stack, part))?;
    add_copies(list, old.as_slice(), part)?;
    add_other_copies(list, old.as_slice(), new.as_slice(), part)?;
    Ok(())
}
