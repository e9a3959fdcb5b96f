ghost use Rattle.std.specs.Prelude.{◌≡◌, ◌-◌, ◌*◌, ◌≤◌, min};

use xl_compose::Picture;

/// The picture of one tile at a version of the image: its sides in pixels, and RGBA, four bytes a pixel, row by row.
#[derive(Drop)]
pub struct Shown {
    pub(crate) version: u32,
    pub(crate) width: u32,
    pub(crate) height: u32,
    pub(crate) picture: Picture,
    ghost narrow: { width ≤ 64 },
    ghost low: { height ≤ 64 },
}

impl Shown {
    /// The version that it shows.
    pub fn version(&self) -> u32
        ensures { result ≡ self.now.version }
    {
        self.version
    }

    /// How many pixels a row has: 64, and fewer in the last column of tiles where the canvas ends there.
    pub fn width(&self) -> u32
        ensures value { result ≡ self.now.width }
        ensures few { result ≤ 64 }
    {
        self.width
    }

    /// How many rows there are: 64, and fewer in the last row of tiles where the canvas ends there.
    pub fn height(&self) -> u32
        ensures value { result ≡ self.now.height }
        ensures few { result ≤ 64 }
    {
        self.height
    }

    /// The RGBA bytes, row by row: four for each pixel of the tile.
    pub fn bytes(&self) -> &[u8]
        ensures { result.now ≡ self.now.picture }
    {
        self.picture.bytes()
    }
}

/// How many pixels of a tile there are along a side of the canvas.
pub(crate) fn side_of(canvas: u32, place: u32) -> u32
    ensures value { result ≡ min 64 (canvas - 64 * place) }
    ensures few { result ≤ 64 }
{
    let before = 64 * u64::from(place);
    u64::from(canvas).saturating_sub(before).min(64) as u32
}
