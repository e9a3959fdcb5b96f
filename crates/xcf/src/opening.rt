ghost use Rattle.std.specs.Prelude.{◌≡◌, IfOk};
ghost use Rattle.xcf.specs.Opened.{Opens};
ghost use Rattle.xl_doc.specs.Numbered.{AreNumbered};

use crate::errors::NotOpened;
use std::alloc::Global;
use std::sync::Arc;
use xl_doc::Document;
use xl_read::{FILE_LIMIT, ReadRefusedOrMemory, decode};

/// The document that a file holds, from the file's bytes, its nodes numbered from 1. Its tiles stay in these bytes and
/// are unpacked as they are looked at.
///
/// Errors: `Refused` with the first rule that the file breaks and its offset, `TooLong` for more than 2^31 bytes,
/// `Memory`.
pub fn open(alloc: Global, file: Vec<u8>) -> Result<Document, NotOpened>
    ensures opens { Opens file.items (λ document. document) result }
    ensures numbered { IfOk result (λ document. AreNumbered document.nodes) }
{
    // No file of more bytes is read.
    if file.len() > FILE_LIMIT {
        return Err(NotOpened::TooLong);
    }
    let Ok(file) = Arc::new(alloc, file) else {
        return Err(NotOpened::Memory);
    };
    match decode(alloc, &file) {
        Ok(document) => Ok(document),
        Err(ReadRefusedOrMemory::Refused(refused)) => Err(NotOpened::Refused(refused)),
        Err(ReadRefusedOrMemory::Memory) => Err(NotOpened::Memory),
    }
}
