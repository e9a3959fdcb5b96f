ghost use Rattle.std.specs.Prelude.{◌≡◌, ◌⊎◌, Some, IfOk, OnOk};
ghost use Rattle.spec_document.specs.Limits.{IsDocument};
ghost use Rattle.xl_doc.specs.Numbered.{AreNumbered};
ghost use Rattle.xl_outcome.specs.AtSource.{IfOfSource};
ghost use Rattle.xl_outcome.specs.Outcome.{IsUntouched, LoadsFew, ShelfCause};
ghost use Rattle.xl_outcome.specs.Parts.{Loads};
ghost use Rattle.xl_commands.specs.Loading.{LoadsMeasured};
ghost use Rattle.xl_ports.specs.Disk.{read_at};

use std::alloc::Global;
use std::sync::Arc;
use std::thread::Threads;
use xl_doc::Document;
use xl_fields::ReadRefusedOrMemory;
use xl_outcome::Stopped;
use xl_ports::{Failed, FailedOrMemory, Shelf, load_all};
use xl_read::{FILE_LIMIT, decode_beside};

/// A document, and how many bytes its file has.
#[derive(Drop)]
pub struct Loaded {
    pub document: Document,
    pub length: usize,
}

/// The document of a file, some of whose tiles are read beside one another where threads can be made.
pub fn read_document<R: Threads + Sync, D: Shelf>(
    rt: &R,
    alloc: Global,
    name: &str,
    shelf: &mut D,
) -> Result<Document, Stopped>
    ensures loads { Loads (read_at (D.shelf_state shelf.old).disk name.now) result }
    ensures limits { IfOk result (λ document. IsDocument document) }
    ensures numbered { IfOk result (λ document. AreNumbered document.nodes) }
    ensures past_source { IfOfSource result ⊥ }
    ensures cause { ShelfCause (D.shelf_state shelf.old).reading (D.shelf_state shelf.new).reading
        result }
    ensures untouched { IsUntouched (D.shelf_state shelf.old)
        (D.shelf_state shelf.new) }
    ensures few_loads { LoadsFew (D.shelf_state shelf.old) (D.shelf_state shelf.new) }
    ensures named { OnOk result ((D.shelf_state shelf.new).selected ≡ Some name.now) }
    ensures selected { ((D.shelf_state shelf.new).selected ≡ (D.shelf_state shelf.old).selected) ⊎
        ((D.shelf_state shelf.new).selected ≡ Some name.now) }
{
    let loaded = load_document(rt, alloc, name, shelf)?;
    Ok(loaded.document)
}

/// The document of a file, and the file's length.
pub fn load_document<R: Threads + Sync, D: Shelf>(
    rt: &R,
    alloc: Global,
    name: &str,
    shelf: &mut D,
) -> Result<Loaded, Stopped>
    ensures loads { LoadsMeasured (read_at (D.shelf_state shelf.old).disk name.now) result }
    ensures limits { IfOk result (λ loaded. IsDocument loaded.document) }
    ensures numbered { IfOk result (λ loaded. AreNumbered loaded.document.nodes) }
    ensures past_source { IfOfSource result ⊥ }
    ensures cause { ShelfCause (D.shelf_state shelf.old).reading (D.shelf_state shelf.new).reading
        result }
    ensures untouched { IsUntouched (D.shelf_state shelf.old)
        (D.shelf_state shelf.new) }
    ensures few_loads { LoadsFew (D.shelf_state shelf.old) (D.shelf_state shelf.new) }
    ensures named { OnOk result ((D.shelf_state shelf.new).selected ≡ Some name.now) }
    ensures selected { ((D.shelf_state shelf.new).selected ≡ (D.shelf_state shelf.old).selected) ⊎
        ((D.shelf_state shelf.new).selected ≡ Some name.now) }
{
    match shelf.select(name) {
        Ok(()) => {}
        Err(Failed) => return Err(Stopped::ShelfFault),
    }
    // A file of so many bytes is refused, so no more of one are read.
    let bytes = match load_all(alloc, shelf, FILE_LIMIT) {
        Ok(bytes) => bytes,
        Err(FailedOrMemory::Failed) => return Err(Stopped::ShelfFault),
        Err(FailedOrMemory::Memory) => return Err(Stopped::Memory),
    };
    let length = bytes.len();
    let Ok(file) = Arc::new(alloc, bytes) else {
        return Err(Stopped::Memory);
    };
    match decode_beside(rt, alloc, &file) {
        Ok(document) => Ok(Loaded { document, length }),
        Err(ReadRefusedOrMemory::Refused(refused)) => Err(Stopped::Refused(refused)),
        Err(ReadRefusedOrMemory::Memory) => Err(Stopped::Memory),
    }
}
