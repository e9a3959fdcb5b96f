//! The layer that takes the place of all nodes.
ghost use Rattle.std.specs.Prelude.{◌≡◌, ◌+◌, ◌*◌, ◌≤◌, false, IfOk};
ghost use Rattle.spec_document.specs.Forest.{leaf, none};
ghost use Rattle.spec_flat.specs.Flattened.{flat_layer};
ghost use Rattle.xl_compose.specs.Cost.{visible_below};
ghost use Rattle.xl_doc.specs.Nodes.{layer_of, nodes_of, IsLeaf, MarksAgree};

use crate::tiles::layer_plane;
use std::alloc::{AllocError, Global};
use std::sync::ledger::Ledger;
use xl_blend::Steps;
use xl_doc::{
    Body, Bytes, Document, Handle, Layer, Mode, Node, NodeId, PropList, Tree, picture_kind,
};

// The layer, as a tree takes it.
fn layer_handle<L: Ledger>(
    alloc: Global,
    doc: &Document,
    steps: &mut Steps<L>,
) -> Result<Handle<Node>, AllocError>
    ensures layer { IfOk result (λ node. layer_of node ≡ flat_layer doc.now) }
    ensures leaf { IfOk result (λ node. IsLeaf node.body) }
    ensures cost { steps.new ≤ steps.old + visible_below doc.now 0
        * (doc.now.width * doc.now.height) }
{
    let plane = layer_plane(alloc, doc, steps)?;
    let layer = Layer {
        kind: picture_kind(doc.base) as u8,
        x: 0,
        y: 0,
        plane,
        mask: None,
        apply_mask: true,
    };
    let node = Node {
        name: Bytes::new(alloc),
        opacity: 255,
        mode: Mode::Normal,
        visible: true,
        lock_alpha: false,
        lock_content: false,
        kept: PropList::new(alloc),
        body: Body::Leaf(layer),
    };
    Handle::new(alloc, node)
}

/// A tree with the layer that shows the image as its one node.
pub(crate) fn layer_tree<L: Ledger>(
    alloc: Global,
    doc: &Document,
    id: NodeId,
    steps: &mut Steps<L>,
) -> Result<Tree<Node>, AllocError>
    requires { 1 ≤ id.0 }
    ensures nodes { IfOk result (λ tree. nodes_of tree ≡ leaf id.0 (flat_layer doc.now) none) }
    ensures marks { IfOk result (λ tree. MarksAgree tree) }
    ensures cost { steps.new ≤ steps.old + visible_below doc.now 0
        * (doc.now.width * doc.now.height) }
{
    let node = layer_handle(alloc, doc, steps)?;
    let mut tree = Tree::new(alloc)?;
    tree.put_last(&[], id, node);
    Ok(tree)
}
