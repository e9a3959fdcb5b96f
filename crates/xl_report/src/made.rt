//! A document and a script that are made from a seed.
ghost use Rattle.std.specs.Prelude.{◌≡◌, IfOk};
ghost use Rattle.spec_generated.specs.Generated.{document, script};
ghost use Rattle.xl_script.specs.Lines.{lists_of};

use crate::drawing::Draws;
use crate::look::looks;
use crate::made_document::document_with;
use crate::made_lines::script;
use std::alloc::{AllocError, Global};
use xl_doc::Document;
use xl_script::Script;

/// Eight layers in two groups, and for each of them a session that fills it.
#[derive(Drop)]
pub struct Made {
    pub document: Document,
    pub script: Script,
}

/// What is made from a seed.
pub fn make(alloc: Global, seed: u32) -> Result<Made, AllocError>
    ensures document { IfOk result (λ made. made.document ≡ document seed) }
    ensures script { IfOk result (λ made. lists_of made.script ≡ script seed) }
{
    let mut draws = Draws::new(seed);
    let looks = looks(alloc, &mut draws)?;
    let script = script(alloc, &mut draws)?;
    let document = document_with(alloc, looks.as_slice())?;
    Ok(Made { document, script })
}
