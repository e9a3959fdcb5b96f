//! What keeps an image from being made flat.
ghost use Rattle.std.specs.Prelude.{◌≡◌};
ghost use Rattle.spec_flat.specs.Flat.{flat_refusal};
ghost use Rattle.xl_flat.specs.Flattening.{refusal_of};

use spec_document::MAX_AREA;
use spec_flat::{FlatRefused, MOST_TOP_NODES};
use xl_checks::{canvas_area, child_count, is_indexed};
use xl_doc::{Document, NodeId};

/// Refuses an image that cannot be made flat, by the first cause that holds.
pub(crate) fn check(doc: &Document) -> Result<(), FlatRefused>
    ensures { refusal_of result ≡ flat_refusal doc.now }
{
    if doc.selection.is_some() {
        return Err(FlatRefused::Selected);
    }
    if is_indexed(doc) {
        return Err(FlatRefused::Indexed);
    }
    let nodes = child_count(doc, NodeId(0));
    if nodes > MOST_TOP_NODES {
        return Err(FlatRefused::TooMany(nodes));
    }
    let canvas = canvas_area(doc);
    let area = canvas + canvas * doc.channels.len() as u64;
    if area > MAX_AREA {
        return Err(FlatRefused::TooLarge(area));
    }
    Ok(())
}
