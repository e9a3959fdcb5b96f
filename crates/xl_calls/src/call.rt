//! What a session asks.
use crate::edit_list::Edits;
use spec_document::TileAt;
use xl_tree::NodeId;

/// Edits that are made together or not at all: 1 to 1024 of them.
///
/// With a guard they are made only where the latest version has that number.
#[derive(Drop)]
pub struct Group {
    pub guard: Option<u32>,
    pub edits: Edits,
}

/// What a session asks. The node of a tile is a stack: 0 for the image, or a group.
#[derive(Drop)]
pub enum Call {
    /// Makes a group of edits.
    Edit(Group),
    /// Undoes the last group, if it is the one that is named.
    Undo(Option<u32>),
    /// Makes the group again that was undone last.
    Redo,
    /// The tile of the latest version.
    Tile(NodeId, TileAt),
    /// The tile as it is kept, which may be that of an older version.
    Peek(NodeId, TileAt),
    /// Which group an undo would undo, and the latest version.
    Top,
}
