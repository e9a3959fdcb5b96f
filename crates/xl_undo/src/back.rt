//! What a lead holds of the document that it leads to.

use crate::kept_layer::KeptLayer;
use xl_doc::Document;

/// A share of the whole document, or the one layer in which it is not the document that is led from.
#[derive(Drop)]
pub(crate) enum Back {
    Whole(Document),
    Layer(KeptLayer),
}
