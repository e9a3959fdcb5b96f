//! What is asked of a new layer.

/// Where a new layer lies on the canvas, its sides and its type.
#[derive(Clone, Copy)]
pub struct LayerShape {
    pub x: i32,
    pub y: i32,
    pub w: u32,
    pub h: u32,
    pub kind: u32,
}
