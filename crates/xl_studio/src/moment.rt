use xl_core::Entry;
use xl_doc::Document;

/// What a front lists, for contracts alone: first the opening, with the document and the shelf, and then each entry of
/// the history. A save's start has the shelf that it handed out.
pub enum Moment<D> {
    Opened { base: Document, shelf: D },
    Made { entry: Entry, handed: Option<D> },
}
