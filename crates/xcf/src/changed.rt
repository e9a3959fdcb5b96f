/// A version that a group of edits made, or its undo, or its redo.
#[derive(Clone, Copy, Debug, PartialEq, Eq)]
pub struct Changed {
    /// The new version's number.
    pub version: u32,
    /// The group that was made, undone or made again, counted from 1.
    pub group: u32,
    /// The id that the next new node gets.
    pub next: u32,
}
