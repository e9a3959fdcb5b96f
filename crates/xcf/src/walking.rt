//! The nodes of a document in a list.
ghost use Rattle.std.specs.Prelude.{◌≡◌, ◌+◌, ◌≤◌, ◌++◌, map, IfOk, OnOk};
ghost use Rattle.spec_document.specs.Forest.{levels};
ghost use Rattle.xl_doc.specs.Nodes.{MarksAgree, nodes_of};
ghost use Rattle.xcf.specs.Listed.{item_of, listed, listed_at};

use std::alloc::{AllocError, Global};
use xl_doc::{Document, Node, NodeId};
use xl_tree::{Split, Stack};

// Adds the nodes of a stack that stands in so many groups, and all below them, from the top down.
#[tactic(auto, using(crate::proofs::Walked::leaf_under, crate::proofs::Walked::group_children, crate::proofs::Walked::group_under, crate::proofs::Walked::low_leaf, crate::proofs::Walked::low_children, crate::proofs::Walked::low_under))]
fn add_nodes<'a>(
    list: &mut Vec<(NodeId, u8, &'a Node)>,
    depth: u8,
    nodes: Stack<'a, Node>,
) -> Result<(), AllocError>
    requires agree { MarksAgree nodes }
    requires low { depth + levels nodes ≤ 8 }
    ensures { OnOk result (map (λ p. item_of p.0.0 p.1 p.2.now) list.new.items
        ≡ map (λ p. item_of p.0.0 p.1 p.2.now) list.old.items
        ++ listed_at depth (nodes_of nodes.entry)) }
{
    match nodes.split() {
        Split::Empty => Ok(()),
        Split::Leaf { id, node, under } => {
            list.push((id, depth, node))?;
            add_nodes(list, depth, under)
        }
        Split::Group {
            id,
            node,
            children,
            under,
        } => {
            list.push((id, depth, node))?;
            add_nodes(list, depth + 1, children)?;
            add_nodes(list, depth, under)
        }
    }
}

/// The layers and groups of a document, each with its id and in how many groups it stands: from the top down, a group
/// before its children. It is a list of the nodes as they stand, so that ids that a deletion left free are not in it.
///
/// Its one error is that memory ran out.
pub fn nodes(alloc: Global, document: &Document) -> Result<Vec<(NodeId, u8, &Node)>, AllocError>
    ensures { IfOk result (λ list. map (λ p. item_of p.0.0 p.1 p.2.now) list.items
        ≡ listed document.now.nodes) }
{
    let mut list = Vec::new(alloc);
    let top = document.tree.top();
    let _low = top.levels();
    add_nodes(&mut list, 0, top)?;
    Ok(list)
}
