//! The way from one document to another, and back.
ghost use Rattle.std.specs.Prelude.{◌≡◌};
ghost use Rattle.xl_undo.specs.Layers.{ChangesLayer};
ghost use Rattle.xl_undo.specs.Leads.{back_along};

use crate::back::Back;
use crate::kept_layer::KeptLayer;
use std::marker::Model;
use std::mem;
use std::snapshot::Snapshot;
use xl_doc::Document;

/// What leads from one document to another, and back once it has been followed.
///
/// It is a share of the document that it leads to, or of the one layer in which the two differ, and so holds a tile of
/// its own only where the other document has another one.
#[derive(Drop)]
pub struct Lead {
    // The document that it leads from: for contracts alone.
    from: Snapshot<Document>,
    to: Back,
}

impl Model for Lead {
    ghost use Rattle.std.specs.Coded.{codes};
    ghost use Rattle.spec_document.specs.Code.{coded_document};
    ghost use Rattle.xl_undo.specs.Leads.{Way};
    ghost use Rattle.xl_undo.specs.Ways.{back_to, IsBackFrom};

    ghost Value = { Way };

    ghost coded = { Prim.hlevel (codes, coded_document) };

    ghost view = { λ l. record { from = l.from.value; to = back_to l.to } };

    ghost invariant = { λ l. IsBackFrom l.from.value l.to };
}

impl Lead {
    /// What leads from `after` back to `before`. It takes no memory, and looks at no tile.
    pub fn new(before: Document, after: &Document) -> Lead
        ensures { result ≡ record { from = after.now; to = before } }
    {
        Lead {
            from: Snapshot::of(after),
            to: Back::Whole(before),
        }
    }

    /// What leads from `after` back to the document of a layer, of which `after` has another one in its place. It takes
    /// no memory, and looks at no other node.
    pub fn over_layer(before: KeptLayer, after: &Document) -> Lead
        requires { ChangesLayer before.id before.document after.now }
        ensures { result ≡ record { from = after.now; to = before.document } }
    {
        Lead {
            from: Snapshot::of(after),
            to: Back::Layer(before),
        }
    }

    /// Makes the document that it leads to of the one that it leads from. It then leads back. It takes no memory.
    pub fn revert(&mut self, doc: &mut Document)
        requires from { self.old.from ≡ doc.old }
        ensures to { doc.new ≡ self.old.to }
        ensures back { self.new ≡ back_along self.old }
    {
        match &mut self.to {
            Back::Whole(to) => mem::swap(doc, to),
            Back::Layer(kept) => kept.exchange(doc),
        }
        self.from = Snapshot::of(doc);
    }
}
