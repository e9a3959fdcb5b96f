//! What contracts are told of a document.
ghost use Rattle.spec_document.specs.Limits.{IsDocument};

use crate::document::Document;

/// Tells contracts that a document is within its limits.
pub fn know_limits(doc: &Document)
    ensures { IsDocument doc.now }
{
    let _width = doc.width;
}
