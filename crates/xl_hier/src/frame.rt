ghost use Rattle.std.specs.Prelude.{◌≡◌};
ghost use Rattle.spec_document.specs.Grid as grid;
ghost use Rattle.xl_hier.specs.Frame.{IsFrame};

use xl_grid::tiles_along;

/// The sides of a plane, its bytes per pixel, and how its tiles are stored.
#[derive(Clone, Copy)]
pub struct Frame {
    pub width: usize,
    pub height: usize,
    pub bpp: usize,
    pub compression: u8,
    ghost limits: { IsFrame width height bpp compression },
}

impl Frame {
    /// How many tiles stand side by side.
    pub fn columns(&self) -> usize
        ensures { result ≡ grid.tiles_along self.now.width }
    {
        tiles_along(self.width)
    }

    /// How many rows of tiles there are.
    pub fn rows(&self) -> usize
        ensures { result ≡ grid.tiles_along self.now.height }
    {
        tiles_along(self.height)
    }
}
