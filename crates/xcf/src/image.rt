ghost use Rattle.std.specs.Prelude.{◌≡◌, IfOk};
ghost use Rattle.spec_document.specs.Limits.{AreBytes};
ghost use Rattle.spec_edit.specs.Edit as edits;
ghost use Rattle.spec_filters.specs.Filters.{table_of};
ghost use Rattle.xcf.specs.Opened.{Opens, image_of};
ghost use Rattle.xcf.specs.Edited.{EditsBy};
ghost use Rattle.xcf.specs.Edited.{Edits as ComesTo};
ghost use Rattle.xl_doc.specs.Numbered.{AreNumbered};
ghost use Rattle.xl_calls.specs.Edits.{edits_of};

use crate::errors::{NotEdited, NotOpened};
use crate::group::check_group;
use crate::opening::open;
use spec_history::MAX_EDITS;
use std::alloc::Global;
use std::marker::Model;
use xl_calls::{Edit, Edits};
use xl_doc::{Document, NodeId, Rect};
use xl_edit::{EditRefusedOrMemory, apply};
use xl_filters::{FilterKind, FilterState, Table, Tables};
use xl_standing::{GroupRefusedOrMemory, MadeGroup, know_table, next_id_of, try_group};

/// A document, and the id that its next new node gets, which is above all ids that it has or had.
#[derive(Drop)]
pub struct Image {
    document: Document,
    next_id: u32,
}

impl Model for Image {
    ghost use Rattle.std.specs.Coded.{codes};
    ghost use Rattle.spec_document.specs.Code.{coded_document};
    ghost use Rattle.spec_edit.specs.Apply.{At};
    ghost use Rattle.spec_edit.specs.Limited.{IsAt};

    ghost Value = { At };

    ghost coded = { Prim.hlevel (codes, coded_document) };

    ghost view = { λ i. record { document = i.document; next = i.next_id } };

    ghost invariant = { λ i. IsAt (record { document = i.document; next = i.next_id }) };
}

// The table of a filter that was never used: for each byte the byte that takes its place.
fn first_table(kind: FilterKind, amount: u8) -> Table
    ensures table { result ≡ table_of (record { kind = kind; amount = amount; uses = 0 }) }
    ensures bytes { AreBytes result }
{
    let table = Table::of(FilterState {
        kind,
        amount,
        uses: 0,
    });
    know_table(&table);
    table
}

impl Image {
    /// The image that a file holds, from the file's bytes. Its tiles stay in these bytes and are unpacked as they are
    /// looked at.
    ///
    /// Errors: `Refused` with the first rule that the file breaks and its offset, `TooLong` for more than 2^31 bytes,
    /// `Memory`.
    pub fn open(alloc: Global, file: Vec<u8>) -> Result<Image, NotOpened>
        ensures opens { Opens file.items (λ image. image.document) result }
        ensures first { IfOk result (λ image. image ≡ image_of image.document) }
    {
        let document = open(alloc, file)?;
        Ok(Image::of(document))
    }

    // A document whose nodes are numbered in their order.
    fn of(document: Document) -> Image
        requires { AreNumbered document.nodes }
        ensures { result ≡ image_of document }
    {
        let next_id = next_id_of(&document);
        Image { document, next_id }
    }

    /// The document: what [`crate::tile`], [`crate::picture`] and [`crate::save`] take.
    pub fn document(&self) -> &Document
        ensures { result.now ≡ self.now.document }
    {
        &self.document
    }

    /// Makes a group of 1 to 1024 edits in turn, all or none. Filters are made by [`Image::filter`].
    ///
    /// Errors, after each of which the image is as before: `Refused` with the first edit that is refused and why,
    /// `NotGroup` for no edits, too many, a filter among them, or one that is past the limits of its type, `NoIds`
    /// where at most 1024 ids are left for new nodes, `Memory`.
    pub fn edit(&mut self, alloc: Global, edits: Edits) -> Result<(), NotEdited>
        ensures { ComesTo self.old self.new (edits_of edits) result }
    {
        self.edit_by(alloc, edits.as_slice())
    }

    // The same of edits that are lent.
    #[tactic(auto, using(crate::proofs::Plain::few, crate::proofs::Plain::each, crate::proofs::Plain::no_tables, crate::proofs::Plain::bare))]
    fn edit_by(&mut self, alloc: Global, edits: &[Edit]) -> Result<(), NotEdited>
        ensures { ComesTo self.old self.new (edits_of edits.now) result }
    {
        check_group(edits)?;
        if self.next_id >= u32::MAX - MAX_EDITS {
            return Err(NotEdited::NoIds);
        }
        let tables = Tables::new(alloc);
        match try_group(alloc, &self.document, self.next_id, edits, tables) {
            Ok(made) => {
                let MadeGroup {
                    document,
                    next_id,
                    ..
                } = made;
                *self = Image { document, next_id };
                Ok(())
            }
            Err(GroupRefusedOrMemory::Refused { index, cause }) => Err(NotEdited::Refused {
                index,
                cause,
            }),
            Err(GroupRefusedOrMemory::Memory) => Err(NotEdited::Memory),
        }
    }

    /// Puts the colour bytes in a rectangle of a layer, in its own coordinates, through a filter that was never used,
    /// and through the selection. Of `amount` see [`xl_filters`]: `Invert` has none.
    ///
    /// Errors, after each of which the image is as before: `Refused` with index 0 and why, `Memory`.
    pub fn filter(
        &mut self,
        alloc: Global,
        id: NodeId,
        rect: Rect,
        kind: FilterKind,
        amount: u8,
    ) -> Result<(), NotEdited>
        ensures { EditsBy (table_of (record { kind = kind; amount = amount; uses = 0 }))
            self.old self.new (edits.filter id.0 rect 0) result }
    {
        let table = first_table(kind, amount);
        let edit = Edit::Filter { id, rect, slot: 0 };
        match apply(alloc, &mut self.document, &mut self.next_id, &edit, &table) {
            Ok(()) => Ok(()),
            Err(EditRefusedOrMemory::Refused(cause)) => Err(NotEdited::Refused { index: 0, cause }),
            Err(EditRefusedOrMemory::Memory) => Err(NotEdited::Memory),
        }
    }
}
