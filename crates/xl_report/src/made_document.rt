//! The document that is made from a seed.
ghost use Rattle.std.specs.Prelude.{◌≡◌, length, IfOk};
ghost use Rattle.std.specs.List.{AllByRecursion};
ghost use Rattle.spec_generated.specs.Generated.{document_with};
ghost use Rattle.xl_report.specs.Looks.{IsLook};

use crate::look::Look;
use crate::made_nodes::two_groups;
use std::alloc::{AllocError, Global};
use xl_doc::{Base, Channels, ColourMap, Document, PropList};

// The width of the canvas.
const WIDTH: u32 = 1024;

// The height of the canvas.
const HEIGHT: u32 = 768;

const RUN_LENGTH: u8 = 1;

/// The document whose layers look so.
pub fn document_with(alloc: Global, looks: &[Look]) -> Result<Document, AllocError>
    requires eight { length looks.now ≡ 8 }
    requires looks { AllByRecursion IsLook looks.now }
    ensures { IfOk result (λ d. d ≡ document_with looks.now) }
{
    let colours = ColourMap::new(alloc);
    let kept = PropList::new(alloc);
    let channels = Channels::new(alloc)?;
    let tree = two_groups(alloc, looks)?;
    Ok(Document {
        width: WIDTH,
        height: HEIGHT,
        base: Base::Rgb,
        compression: RUN_LENGTH,
        colours,
        kept,
        tree,
        channels,
        selection: None,
    })
}
