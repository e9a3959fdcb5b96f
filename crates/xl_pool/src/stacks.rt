//! The stacks of a document.
ghost use Rattle.std.specs.Prelude.{◌≡◌, ◌≤◌, [], ◌∷◌, ◌++◌, length, filter, not, IfOk, OnOk};
ghost use Rattle.spec_history.specs.Machine.{has_stack};
ghost use Rattle.spec_world.specs.World.{group_ids, stack_ids};
ghost use Rattle.xl_regions.specs.Pairs.{numbers};
ghost use Rattle.xl_doc.specs.Nodes.{nodes_of};
ghost use Rattle.spec_standing.specs.Change.{came_to};
ghost use Rattle.spec_cache.specs.declared.TheConstants.{MAX_STACKS};

use std::alloc::{AllocError, Global};
use xl_doc::{Document, Node, NodeId};
use xl_tree::{Split, Stack};

/// Adds the groups among these nodes, at any depth.
fn add_groups(list: &mut Vec<NodeId>, nodes: Stack<'_, Node>) -> Result<(), AllocError>
    ensures { OnOk result (numbers list.new.items ≡ numbers list.old.items ++ group_ids
        (nodes_of nodes.entry)) }
{
    match nodes.split() {
        Split::Empty => Ok(()),
        Split::Leaf { under, .. } => add_groups(list, under),
        Split::Group {
            id,
            children,
            under,
            ..
        } => {
            list.push(id)?;
            add_groups(list, children)?;
            add_groups(list, under)
        }
    }
}

/// The image and the groups.
pub(crate) fn stacks(alloc: Global, doc: &Document) -> Result<Vec<NodeId>, AllocError>
    ensures value { IfOk result (λ list. numbers list.items ≡ stack_ids doc.now) }
    ensures few { IfOk result (λ list. length list.items ≤ MAX_STACKS) }
{
    let mut list = Vec::new(alloc);
    list.push(NodeId(0))?;
    add_groups(&mut list, doc.tree.top())?;
    Ok(list)
}

fn has_stack(doc: &Document, stack: NodeId) -> bool
    ensures { result ≡ has_stack doc.now stack.0 }
{
    doc.tree.stack(stack).is_some()
}

/// Adds a stack, unless a document has it.
fn add_if_new(list: &mut Vec<NodeId>, old: &Document, stack: NodeId) -> Result<(), AllocError>
    ensures { OnOk result (numbers list.new.items ≡ numbers list.old.items ++ filter
        (λ k. not (has_stack old.now k)) (stack.0 ∷ [])) }
{
    if has_stack(old, stack) {
        return Ok(());
    }
    list.push(stack)?;
    Ok(())
}

/// Adds the groups among these nodes, at any depth, that a document has not.
#[tactic(auto, using(crate::proofs::Came::came_joined))]
fn add_new_groups(
    list: &mut Vec<NodeId>,
    old: &Document,
    nodes: Stack<'_, Node>,
) -> Result<(), AllocError>
    ensures { OnOk result (numbers list.new.items ≡ numbers list.old.items ++ filter
        (λ k. not (has_stack old.now k)) (group_ids (nodes_of nodes.entry))) }
{
    match nodes.split() {
        Split::Empty => Ok(()),
        Split::Leaf { under, .. } => add_new_groups(list, old, under),
        Split::Group {
            id,
            children,
            under,
            ..
        } => {
            add_if_new(list, old, id)?;
            add_new_groups(list, old, children)?;
            add_new_groups(list, old, under)
        }
    }
}

/// The stacks of the new document that the old one has not: groups, since each document has the image. Where there is
/// none no memory is taken.
pub fn stacks_that_came(
    alloc: Global,
    old: &Document,
    new: &Document,
) -> Result<Vec<NodeId>, AllocError>
    ensures value { IfOk result (λ list. numbers list.items ≡ came_to old.now new.now) }
    ensures few { IfOk result (λ list. length list.items ≤ MAX_STACKS) }
{
    let mut came = Vec::new(alloc);
    add_new_groups(&mut came, old, new.tree.top())?;
    Ok(came)
}
