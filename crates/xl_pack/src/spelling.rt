//! The smallest file of a document, and what its coder tells of the planes.
ghost use Rattle.std.specs.Prelude.{false, true, IfOk};
ghost use Rattle.spec_document.specs.Limits.{IsDocument};
ghost use Rattle.xl_pack.specs.Spelled.{IsSpelled};

use crate::smallest::{FileBytes, encode_smallest};
use std::alloc::{AllocError, Global};
use xl_compose::Recompose;
use xl_doc::Document;
use xl_small::{Small, Telling};

/// A file, how many planes are spelled in it, and the lines of their plans.
#[derive(Drop)]
pub struct Spelled {
    pub file: FileBytes,
    pub planes: u64,
    pub lines: Vec<u8>,
}

// Without the lines.
fn spell_and_count(alloc: Global, document: &Document) -> Result<Spelled, AllocError>
    requires { IsDocument document.now }
    ensures { IfOk result (λ s. IsSpelled document.now false s.file s.lines.items s.planes) }
{
    let mut coder = Small::new();
    let file = encode_smallest(alloc, document, &mut coder, &mut Recompose::new())?;
    let planes = coder.planes();
    Ok(Spelled {
        file,
        planes,
        lines: Vec::new(alloc),
    })
}

// With the lines.
fn spell_and_tell(alloc: Global, document: &Document) -> Result<Spelled, AllocError>
    requires { IsDocument document.now }
    ensures { IfOk result (λ s. IsSpelled document.now true s.file s.lines.items s.planes) }
{
    let mut coder = Telling::new(alloc);
    let file = encode_smallest(alloc, document, &mut coder, &mut Recompose::new())?;
    Ok(Spelled {
        file,
        planes: coder.planes(),
        lines: coder.into_lines(),
    })
}

/// The smallest file of a document, with the lines where they are asked for.
pub fn spell(alloc: Global, document: &Document, with_plans: bool) -> Result<Spelled, AllocError>
    requires { IsDocument document.now }
    ensures { IfOk result (λ s. IsSpelled document.now with_plans s.file s.lines.items
        s.planes) }
{
    if with_plans {
        spell_and_tell(alloc, document)
    } else {
        spell_and_count(alloc, document)
    }
}
