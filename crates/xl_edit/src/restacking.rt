//! A node that moves to another place, with all below it.
ghost use Rattle.std.specs.Prelude.{◌≡◌, ◌≤◌, None, Some, IfErr, OnOk};
ghost use Rattle.spec_document.specs.Forest.{levels, stack_at};
ghost use Rattle.spec_document.specs.Changes.{branch_of, put_into, without};
ghost use Rattle.spec_document.specs.declared.TheConstants.{MAX_DEPTH};
ghost use Rattle.spec_edit.specs.Edit as edits;
ghost use Rattle.spec_edit.specs.Refusal.{bad_place, children, inside, no_node, refusal, stands_in};
ghost use Rattle.xl_doc.specs.Nodes.{nodes_of, MarksAgree};
ghost use Rattle.xl_paint.specs.Applied.{Makes};
ghost use Rattle.xl_edit.specs.Children.{is_at_top, is_child};
ghost use Rattle.xl_checks.specs.Found.{outcome};
ghost use Rattle.xl_tree.specs.Refusals.{restack_refusal};

use spec_edit::EditRefused;
use xl_checks::{check_depth, check_node, check_parent, child_count};
use xl_doc::{Document, Node, NodeId, Tree, know_limits};
use xl_paint::EditRefusedOrMemory;
use xl_tree::{Split, Stack};

/// Moves a node with all below it into a stack, before the child at a place, which counts after the node is taken out.
/// Errors: `NoNode`, `NotGroup`, `Inside`, `BadPlace`, `TooDeep`.
pub(crate) fn restack(
    doc: &mut Document,
    id: NodeId,
    parent: NodeId,
    place: u32,
) -> Result<(), EditRefusedOrMemory>
    ensures { Makes doc.old doc.new (edits.restack id.0 parent.0 place) result }
{
    check_restack(doc, id, parent, place)?;
    move_node(&mut doc.tree, id, parent, place);
    Ok(())
}

// Moves a node to where the tree allows it.
fn move_node(tree: &mut Tree<Node>, id: NodeId, parent: NodeId, place: u32)
    requires marks { MarksAgree tree.old }
    requires free { restack_refusal id.0 parent.0 place (nodes_of tree.old) ≡ None }
    requires low { levels (put_into parent.0 place (branch_of id.0 (nodes_of tree.old))
        (without id.0 (nodes_of tree.old))) ≤ MAX_DEPTH }
    ensures done { nodes_of tree.new ≡ put_into parent.0 place (branch_of id.0 (nodes_of tree.old))
        (without id.0 (nodes_of tree.old)) }
    ensures marks { MarksAgree tree.new }
{
    let Ok(()) = tree.restack(id, parent, place) else {
        unreachable!();
    };
}

// Refuses a move by the first rule that it breaks. Errors: `NoNode`, `NotGroup`, `Inside`, `BadPlace`, `TooDeep`.
fn check_restack(doc: &Document, id: NodeId, parent: NodeId, place: u32) -> Result<(), EditRefused>
    ensures refused { IfErr result (λ cause. refusal doc.now (edits.restack id.0 parent.0 place)
        ≡ Some cause) }
    ensures allowed { OnOk result (refusal doc.now (edits.restack id.0 parent.0 place) ≡ None) }
{
    check_node(doc, id)?;
    check_parent(doc, parent)?;
    check_outside(doc, id, parent)?;
    check_place_without(doc, id, parent, place)?;
    check_depth(doc, parent, levels_from(doc, id))?;
    Ok(())
}

// Refuses a stack that is the node that moves, or stands below it.
fn check_outside(doc: &Document, id: NodeId, stack: NodeId) -> Result<(), EditRefused>
    ensures value { result ≡ outcome (inside doc.now id.0 stack.0) }
    ensures outside { OnOk result (inside doc.now id.0 stack.0 ≡ None) }
{
    if stands_in(doc, stack, id) {
        return Err(EditRefused::Inside(stack.0));
    }
    Ok(())
}

// Whether a node is the other one or stands below it.
fn stands_in(doc: &Document, node: NodeId, other: NodeId) -> bool
    ensures { result ≡ stands_in doc.now.nodes node.0 other.0 }
{
    let above = doc.tree.ancestors(node);
    node.0 == other.0 || above.as_slice().contains(&other)
}

// Refuses a place past the last child that a stack has without a node.
fn check_place_without(
    doc: &Document,
    id: NodeId,
    stack: NodeId,
    place: u32,
) -> Result<(), EditRefused>
    requires outside { inside doc.now id.0 stack.0 ≡ None }
    ensures { result ≡ outcome (bad_place (without id.0 doc.now.nodes) stack.0 place) }
{
    let count = child_count_without(doc, id, stack);
    if place > count {
        return Err(EditRefused::BadPlace(count));
    }
    Ok(())
}

// How many children a stack outside of a node has without it.
fn child_count_without(doc: &Document, id: NodeId, stack: NodeId) -> u32
    requires outside { inside doc.now id.0 stack.0 ≡ None }
    ensures { result ≡ children (without id.0 doc.now.nodes) stack.0 }
{
    know_limits(doc);
    let count = child_count(doc, stack);
    if has_child(doc, stack, id) {
        count - 1
    } else {
        count
    }
}

fn has_child(doc: &Document, stack: NodeId, id: NodeId) -> bool
    ensures { result ≡ is_child id.0 (stack_at stack.0 doc.now.nodes) }
{
    match doc.tree.stack(stack) {
        None => false,
        Some(nodes) => is_at_top(nodes, id),
    }
}

fn is_at_top(nodes: Stack<'_, Node>, id: NodeId) -> bool
    ensures { result ≡ is_at_top id.0 (nodes_of nodes.entry) }
{
    match nodes.split() {
        Split::Empty => false,
        Split::Leaf {
            id: first,
            under,
            ..
        } => id.0 == first.0 || is_at_top(under, id),
        Split::Group {
            id: first,
            under,
            ..
        } => id.0 == first.0 || is_at_top(under, id),
    }
}

// The levels from a node down, the node itself being 1.
fn levels_from(doc: &Document, id: NodeId) -> u32
    requires there { no_node doc.now id.0 ≡ None }
    ensures value { result ≡ levels (branch_of id.0 doc.now.nodes) }
    ensures some { 1 ≤ result }
    ensures few { result ≤ MAX_DEPTH }
{
    know_limits(doc);
    doc.tree.levels(id)
}
