//! What is made from a seed, and its first save.
ghost use Rattle.std.specs.Prelude.{◌≡◌, ◌⊎◌, ℕ, pos, Some, IfOk, OnOk, OnErr, string_bytes};
ghost use Rattle.spec_command.specs.Arguments.{make as make_of};
ghost use Rattle.spec_document.specs.Limits.{IsDocument};
ghost use Rattle.spec_document.specs.Picture.{picture_bytes};
ghost use Rattle.spec_generated.specs.Generated.{document, script};
ghost use Rattle.spec_layout.specs.Layout.{Written};
ghost use Rattle.spec_text.specs.Text.{digest_of};
ghost use Rattle.spec_world.specs.declared.SaveEnd.TheVariants as save_end;
ghost use Rattle.xl_outcome.specs.Outcome.{FailsAtShelf, FaultsRose, opened};
ghost use Rattle.xl_script.specs.Lines.{lists_of};
ghost use Rattle.xl_snapshot.specs.Saving.{IsSavedOn};

use std::alloc::{AllocError, Global};
use xl_compose::Recompose;
use xl_doc::{Document, NodeId, Pictures, Rect, know_limits};
use xl_ports::{Failed, Shelf};
use xl_report::{Made, digest};
use xl_rle::Greedy;
use xl_snapshot::{FileBytes, file_of, save_file};

/// What is made from a seed, and the file of its document.
pub fn made_with_file(alloc: Global, seed: u32) -> Result<(Made, FileBytes), AllocError>
    ensures document { IfOk result (λ made. made.0.document ≡ document seed) }
    ensures script { IfOk result (λ made. lists_of made.0.script ≡ script seed) }
    ensures file { IfOk result (λ made. Written made.1 (document seed)) }
    ensures limits { IfOk result (λ made. IsDocument made.0.document) }
{
    let made = xl_report::make(alloc, seed)?;
    let file = file_of(alloc, &made.document, &mut Greedy)?;
    know_limits(&made.document);
    Ok((made, file))
}

/// Saves the file of a document that is made, before its script is played.
pub fn save_first<D: Shelf>(name: &str, file: &FileBytes, shelf: &mut D) -> Result<(), Failed>
    ensures saved { OnOk result ((seed : ℕ) → Written file.now (document seed) → IsSavedOn
        (opened (D.shelf_state shelf.old) (D.shelf_state shelf.new) name.now)
        (document seed) save_end.Done
        (D.shelf_state shelf.new)) }
    ensures failed { OnErr result ((seed : ℕ) → Written file.now (document seed) → FailsAtShelf
        (D.shelf_state shelf.old)
        (D.shelf_state shelf.new) (make_of name.now seed)
        × FaultsRose (D.shelf_state shelf.old)
        (D.shelf_state shelf.new) (make_of name.now seed)) }
    ensures loads { (D.shelf_state shelf.new).loads ≡ (D.shelf_state shelf.old).loads }
    ensures selected { ((D.shelf_state shelf.new).selected ≡ (D.shelf_state shelf.old).selected) ⊎
        ((D.shelf_state shelf.new).selected ≡ Some name.now) }
    ensures named { OnOk result ((D.shelf_state shelf.new).selected ≡ Some name.now) }
{
    shelf.select(name)?;
    save_file(file, shelf)
}

// The canvas of a document.
fn canvas(doc: &Document) -> Rect
    ensures { result ≡ record { x = pos 0; y = pos 0; w = doc.now.width; h = doc.now.height } }
{
    Rect {
        x: 0,
        y: 0,
        w: doc.width,
        h: doc.height,
    }
}

// The digest of a document's picture.
pub(crate) fn picture_digest(alloc: Global, doc: &Document) -> Result<String, AllocError>
    ensures { IfOk result (λ text. string_bytes text ≡ digest_of
        (picture_bytes doc.now 0 0 0 doc.now.width doc.now.height)) }
{
    let bytes = 4 * (doc.width as usize * doc.height as usize);
    let mut picture = vec![in alloc; 0; bytes]?;
    Recompose::new().fill(alloc, doc, NodeId(0), canvas(doc), &mut picture)?;
    digest(alloc, &picture)
}
