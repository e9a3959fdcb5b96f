//! Undo records that tell how many tiles they keep.
ghost use Rattle.std.specs.Prelude.{◌≡◌};
ghost use Rattle.spec_undo.specs.Changed.{changed_in};
ghost use Rattle.xl_undo.specs.Leads.{LeadsBack, turned};

use crate::counting::changed_tiles;
use crate::lead::Lead;
use std::marker::Model;
use xl_doc::Document;

/// What leads from one document to another, and back once it has been followed, with the number of tiles that differ.
///
/// To count them every tile of a plane that both documents have is unpacked and compared, also where they share it. Where
/// nobody asks, a [`Lead`] does without.
#[derive(Drop)]
pub struct Record {
    lead: Lead,
    tiles: u32,
}

impl Model for Record {
    ghost use Rattle.std.specs.Coded.{codes};
    ghost use Rattle.spec_document.specs.Code.{coded_document};
    ghost use Rattle.xl_undo.specs.Leads.{Leads};

    ghost Value = { Leads };

    ghost coded = { Prim.hlevel (codes, coded_document) };

    ghost view = { λ r. record { from = r.lead.from; to = r.lead.to; tiles = r.tiles } };
}

impl Record {
    /// What leads from `after` back to `before`. It takes no memory.
    pub fn new(before: Document, after: &Document) -> Record
        ensures leads { LeadsBack before after.now result }
        ensures tiles { result.tiles ≡ changed_in before after.now }
    {
        let tiles = changed_tiles(&before, after);
        Record {
            lead: Lead::new(before, after),
            tiles,
        }
    }

    /// Makes the document that the record leads to of the one that it leads from. The record then leads back. It takes
    /// no memory.
    pub fn revert(&mut self, doc: &mut Document)
        requires from { self.old.from ≡ doc.old }
        ensures to { doc.new ≡ self.old.to }
        ensures back { self.new ≡ turned self.old }
    {
        self.lead.revert(doc);
    }

    /// How many tiles differed when the record was made: the tiles of layers, masks, channels and selections with other
    /// bytes, and all tiles of those that only one of the documents has, or whose sides or bytes per pixel differ.
    pub fn tiles_kept(&self) -> u32
        ensures { result ≡ self.now.tiles }
    {
        self.tiles
    }
}
