ghost use Rattle.std.specs.Prelude.{IfErr};
ghost use Rattle.xcf_disk.specs.Files.{IsOfSaving};

use crate::errors::Failure;
use std::io;
use std::io::ErrorKind;
use xcf::{Document, save};
use xl_ports::{Failed, Shelf};
use xl_real::{FileShelf, ShelfError};

// Puts the bytes of a file under a path, in place of what is there.
fn put(file: &[u8], path: &str, shelf: &mut FileShelf) -> Result<(), Failed> {
    shelf.select(path)?;
    xl_save::save(file, shelf)
}

// What the system said of the last call that failed.
fn said_of(shelf: &FileShelf) -> ShelfError {
    match shelf.error() {
        Some(error) => *error,
        None => ShelfError::File(io::Error::from(ErrorKind::Other)),
    }
}

/// Saves a document as the file of a path, in place of what is there: by a draft beside it, which takes its name. A
/// symbolic link is followed, and the file keeps its permission bits but for set-user, set-group and sticky.
///
/// Errors: `Memory`, after which no file has changed, and `NotSaved` with what the system said, or that another process
/// saves the file or changed it within the call, or that it is no regular file. Then a read of the file gives the old
/// one or the new one, and a crash leaves one of them, as far as a rename is whole and fsync lasts.
pub fn save_file(rt: &HostRuntime, path: &str, document: &Document) -> Result<(), Failure>
    ensures { IfErr result IsOfSaving }
{
    let file = save(rt.alloc(), document)?;
    let mut shelf = FileShelf::new(rt);
    match put(&file, path, &mut shelf) {
        Ok(()) => Ok(()),
        Err(Failed) => Err(Failure::NotSaved(said_of(&shelf))),
    }
}
