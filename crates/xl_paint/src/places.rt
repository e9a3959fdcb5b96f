//! Where bytes are written.

/// Where the top left pixel of a plane lies on the canvas, and whether its pixels are places of a colour map.
#[derive(Clone, Copy)]
pub(crate) struct Site {
    pub x: i32,
    pub y: i32,
    pub indexed: bool,
}

/// Which bytes of a layer are written.
#[derive(Clone, Copy)]
pub(crate) enum LayerPart {
    Pixels,
    Mask,
}

/// How the bytes of a rectangle are given: row by row, or as one pixel that they repeat.
#[derive(Clone, Copy)]
pub(crate) enum Spread {
    Rows,
    Pixel,
}

/// The new bytes of a rectangle.
#[derive(Drop)]
pub(crate) struct NewBytes {
    pub given: Vec<u8>,
    pub spread: Spread,
}
