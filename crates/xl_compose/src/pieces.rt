//! The pieces that the picture of a tile is composed of, in the order in which they are laid.
use crate::tile::Picture;
use xl_blend::Mode;
use xl_doc::Layer;

/// A piece, and the level of the stack whose picture it changes. The stack that is asked for is at level 0, and the
/// children of a group are one level above it.
#[derive(Drop)]
pub struct Piece {
    pub level: u32,
    pub what: What,
}

/// The pieces of a stack, in the order in which they are laid, and for how many levels there is to be room.
#[derive(Drop)]
pub struct Pile {
    pub pieces: Vec<Piece>,
    pub levels: u32,
}

/// What becomes of the picture of a level.
#[derive(Drop)]
pub enum What {
    /// It begins without anything.
    Blank,
    /// A layer, with its opacity and its mask, is laid over it. The layer is a share.
    Leaf {
        mode: Mode,
        opacity: u8,
        layer: Layer,
    },
    /// It is the picture of a group, which need not be composed again. The picture is a copy.
    Clean {
        picture: Picture,
    },
    /// The picture of the next level is laid over it, with an opacity.
    Stack {
        mode: Mode,
        opacity: u8,
    },
}
