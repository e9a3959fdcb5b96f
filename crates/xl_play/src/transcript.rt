//! The lines of session 0 so far.

/// The text of the calls and saves that were made, and the index of the next.
#[derive(Drop)]
pub(crate) struct Transcript {
    pub(crate) index: u32,
    pub(crate) text: String,
}
