ghost use Rattle.std.specs.Prelude.{◌≡◌};
ghost use Rattle.spec_document.specs.Limits.{IsDocument};

use std::marker::Model;
use xl_doc::{Base, Channel, Channels, ColourMap, Document, Node, PropList, Tree};

/// The fields of a document that is not whole yet, so that its limits are not known.
#[derive(Drop)]
pub struct DocumentFields {
    pub width: u32,
    pub height: u32,
    pub base: Base,
    pub compression: u8,
    pub colours: ColourMap,
    pub kept: PropList,
    pub tree: Tree<Node>,
    pub channels: Channels,
    pub selection: Option<Channel>,
}

impl Model for DocumentFields {
    ghost use Rattle.spec_document.specs.Document as doc;
    ghost use Rattle.spec_document.specs.Code.{coded_document};

    ghost Value = { doc.Document };

    ghost coded = { coded_document };

    ghost use Rattle.xl_doc.specs.Nodes.{nodes_of};
    ghost use Rattle.xl_read.specs.Parts.{AreParts};

    ghost view = { λ p. record {
      width = p.width;
      height = p.height;
      base = p.base;
      compression = p.compression;
      colours = p.colours;
      kept = p.kept;
      nodes = nodes_of p.tree;
      channels = p.channels;
      selection = p.selection;
    } };

    ghost invariant = { λ p. AreParts p.tree };
}

impl DocumentFields {
    /// The document with these fields, once it is within its limits.
    pub fn into_document(self) -> Document
        requires { IsDocument self }
        ensures { result ≡ self }
    {
        Document {
            width: self.width,
            height: self.height,
            base: self.base,
            compression: self.compression,
            colours: self.colours,
            kept: self.kept,
            tree: self.tree,
            channels: self.channels,
            selection: self.selection,
        }
    }
}
