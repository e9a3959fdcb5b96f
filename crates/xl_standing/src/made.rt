//! A group of edits that was made.

use xl_filters::Tables;
use xl_marks::Change;
use xl_undo::Lead;

/// What leads back over a group of edits that a document has taken, what it does to the pictures that are kept, and the
/// tables that its filters answered.
#[derive(Drop)]
pub(crate) struct Made {
    pub(crate) lead: Lead,
    pub(crate) change: Change,
    pub(crate) tables: Tables,
}
