//! A layer that is kept while its document gets another one in its place.
ghost use Rattle.std.specs.Prelude.{◌≡◌, IfOk, nat_eq};
ghost use Rattle.std.specs.List.{IsDistinct};
ghost use Rattle.spec_document.specs.Forest.{ids, find, a_leaf};
ghost use Rattle.spec_document.specs.Document.{Layer};
ghost use Rattle.spec_document.specs.Changes.{with_leaf};
ghost use Rattle.xl_doc.specs.Nodes.{nodes_of, layer_of, IsLeaf, MarksAgree};
ghost use Rattle.xl_undo.specs.Layers.{HasLayer, ChangesLayer};

use std::alloc::{AllocError, Global};
use std::marker::Model;
use std::mem;
use std::snapshot::Snapshot;
use xl_doc::{Document, Handle, Node, NodeId, Tree, know_limits};
use xl_tree::Share;

/// A layer as a document has it, to be put back once another one is in its place. It shares the layer's tiles.
#[derive(Drop)]
pub struct KeptLayer {
    id: NodeId,
    node: Handle<Node>,
    // The document: for contracts alone.
    document: Snapshot<Document>,
}

impl Model for KeptLayer {
    ghost use Rattle.std.specs.Coded.{codes};
    ghost use Rattle.spec_document.specs.Code.{coded_document};
    ghost use Rattle.xl_undo.specs.Layers.{LayerIn, IsNodeOf};

    ghost Value = { LayerIn };

    ghost coded = { Prim.hlevel (codes, coded_document) };

    ghost view = { λ k. record { id = k.id.0; document = k.document.value } };

    ghost invariant = { λ k. IsNodeOf k.document.value k.id.0 k.node };
}

impl KeptLayer {
    /// The layer with an id. What it takes of memory does not hang on the number of nodes.
    pub fn of(alloc: Global, document: &Document, id: NodeId) -> Result<KeptLayer, AllocError>
        requires { HasLayer document.now id.0 }
        ensures { IfOk result (λ kept. kept ≡ record { id = id.0; document = document.now }) }
    {
        know_limits(document);
        let node = shared_node(alloc, &document.tree, id)?;
        Ok(KeptLayer {
            id,
            node,
            document: Snapshot::of(document),
        })
    }

    /// Puts the layer back into the document that has another one in its place, which is kept from then on. It takes no
    /// memory.
    pub(crate) fn exchange(&mut self, doc: &mut Document)
        requires { ChangesLayer self.old.id self.old.document doc.old }
        ensures doc { doc.new ≡ self.old.document }
        ensures kept { self.new ≡ record { id = self.old.id; document = doc.old } }
        ensures changes { ChangesLayer self.old.id doc.old self.old.document }
    {
        know_limits(doc);
        let was = Snapshot::of(doc);
        exchange_in(&mut doc.tree, self.id, &mut self.node);
        self.document = was;
    }
}

// What is in the node of a layer, once more.
fn shared_node(alloc: Global, tree: &Tree<Node>, id: NodeId) -> Result<Handle<Node>, AllocError>
    requires marks { MarksAgree tree.now }
    requires layer { (l : Layer) × (find id.0 (nodes_of tree.now) ≡ a_leaf l) }
    ensures leaf { IfOk result (λ node. IsLeaf node.body) }
    ensures found { IfOk result (λ node. find id.0 (nodes_of tree.now) ≡ a_leaf (layer_of node)) }
{
    let Some(node) = tree.find(id) else {
        unreachable!();
    };
    let copy = node.share(alloc)?;
    Handle::new(alloc, copy)
}

// Exchanges what is in the node of a layer for another layer.
fn exchange_in(tree: &mut Tree<Node>, id: NodeId, node: &mut Handle<Node>)
    requires ids { IsDistinct nat_eq (ids tree.old) }
    requires marks { MarksAgree tree.old }
    requires layer { (l : Layer) × (find id.0 (nodes_of tree.old) ≡ a_leaf l) }
    requires leaf { IsLeaf node.old.body }
    ensures tree { nodes_of tree.new ≡ with_leaf id.0 (λ l. layer_of node.old) (nodes_of tree.old) }
    ensures marks { MarksAgree tree.new }
    ensures leaf { IsLeaf node.new.body }
    ensures found { find id.0 (nodes_of tree.old) ≡ a_leaf (layer_of node.new) }
{
    let Some(handle) = tree.find_mut(id) else {
        unreachable!();
    };
    mem::swap(handle, node);
}
