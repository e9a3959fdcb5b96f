//! The documents of small files, for tests.
#![tactic(auto)]

ghost use Rattle.std.specs.Prelude.{IfOk};
ghost use Rattle.xl_doc.specs.Numbered.{AreNumbered};

use std::alloc::{AllocError, Global};
use std::sync::Arc;
use xl_doc::Document;
use xl_read::{FILE_LIMIT, decode};

/// The document of a file. A file that is refused is answered as out of memory.
pub fn document(alloc: Global, file: &[u8]) -> Result<Document, AllocError>
    ensures { IfOk result (λ document. AreNumbered document.nodes) }
{
    let bytes = file.to_vec(alloc)?;
    if bytes.len() > FILE_LIMIT {
        return Err(AllocError);
    }
    let shared = Arc::new(alloc, bytes)?;
    match decode(alloc, &shared) {
        Ok(document) => Ok(document),
        Err(_) => Err(AllocError),
    }
}
