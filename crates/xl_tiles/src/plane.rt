ghost use Rattle.std.specs.Prelude.{◌≡◌, ℕ, ◌+◌, ◌-◌, ◌*◌, ◌<◌, ◌≤◌, [], length, min, slice_index, slice_index_or};
ghost use Rattle.std.specs.Prelude.{slice_set, IfOk, IfSome, OnOk, IfErr, OnErr};
ghost use Rattle.spec_document.specs.Grid as grid;
ghost use Rattle.spec_document.specs.Rect.{part_above_0};
ghost use Rattle.spec_document.specs.Limits.{IsSide, AreBytes};
ghost use Rattle.spec_document.specs.Plane.{byte_at, plane_of};
ghost use Rattle.spec_hierarchy.specs.BytePlanes.{tile_planes};
ghost use Rattle.spec_hierarchy.specs.Layout.{AreSpelled};
ghost use Rattle.spec_hierarchy.specs.Tiles as sheet;
ghost use Rattle.spec_undo.specs.Planes.{changed_tiles};
ghost use Rattle.spec_rle.specs.Codes.{AnySpelling};
ghost use Rattle.xl_tiles.specs.Area.{bytes_in};
ghost use Rattle.xl_tiles.specs.Repeated.{repeated};
ghost use Rattle.xl_tiles.specs.Sized.{IsSized};
ghost use Rattle.xl_tiles.specs.Written.{IsWithin, with_tile, written};
ghost use Rattle.xl_tiles.specs.Table.{AreTiled};

use crate::area::{Area, Sheet, area_of};
use crate::changes::count_changed;
use crate::codes::{plain_tile, tile_codes};
use crate::filling::fill_area;
use crate::reading::{point_byte, read_area, row_of, tile_bytes};
use crate::table::TileTable;
use crate::uniform::uniform_tiles;
use crate::writing::write_area;
use std::alloc::{AllocError, AllocFailed, Global};
use std::marker::Model;
use xl_bytes::Part;
use xl_grid::{Rect, TileAt, tiles_along};
use xl_tile::{SCRATCH, TileRef};

/// The pixels of a plane, row by row, each of 1 to 4 bytes. They are kept in tiles of 64 by 64, which several planes
/// may hold.
#[derive(Drop)]
pub struct Plane {
    sheet: Sheet,
    tiles: TileTable,
}

impl Model for Plane {
    ghost use Rattle.spec_document.specs.Plane as doc;
    ghost use Rattle.xl_tiles.specs.Table.{bytes_of, AreTiled};

    ghost Value = { doc.Plane };

    ghost view = { λ p. record { width = p.sheet.width; height = p.sheet.height; bpp = p.sheet.bpp; bytes = bytes_of p.sheet.width p.sheet.height p.sheet.bpp p.tiles } };

    ghost invariant = { λ p. AreTiled p.sheet.width p.sheet.height p.sheet.bpp p.tiles };
}

impl Plane {
    /// The plane of these sides and bytes per pixel whose tiles are these, row by row.
    pub fn of_tiles(
        alloc: Global,
        w: u32,
        h: u32,
        bpp: u32,
        tiles: Vec<TileRef>,
    ) -> Result<Plane, AllocError>
        requires { AreTiled w h bpp tiles.items }
        ensures { IfOk result (λ p. p ≡ sheet.plane_of_tiles w h bpp tiles.items) }
    {
        let sheet = Sheet::new(w, h, bpp);
        let columns = tiles_along(sheet.width);
        let rows = tiles_along(sheet.height);
        let tiles = TileTable::of_tiles(alloc, columns, rows, &tiles)?;
        Ok(Plane { sheet, tiles })
    }

    /// A uniform plane, each pixel of which is this one. Its tiles share their bytes.
    pub fn new(alloc: Global, w: u32, h: u32, bpp: u32, pixel: &[u8]) -> Result<Plane, AllocError>
        requires width { IsSide w }
        requires height { IsSide h }
        requires some { 1 ≤ bpp }
        requires few { bpp ≤ 4 }
        requires pixel { length pixel.now ≡ bpp }
        ensures { IfOk result (λ p. p ≡ plane_of w h bpp (λ x y c. slice_index pixel.now c)) }
    {
        let tiles = uniform_tiles(alloc, Sheet::new(w, h, bpp), pixel)?;
        Plane::of_tiles(alloc, w, h, bpp, tiles)
    }

    /// The plane whose pixels are these bytes, row by row.
    pub fn of_pixels(
        alloc: Global,
        w: u32,
        h: u32,
        bpp: u32,
        bytes: &[u8],
    ) -> Result<Plane, AllocError>
        requires width { IsSide w }
        requires height { IsSide h }
        requires some { 1 ≤ bpp }
        requires few { bpp ≤ 4 }
        requires full { length bytes.now ≡ w * h * bpp }
        ensures { IfOk result
            (λ p. p ≡ record { width = w; height = h; bpp = bpp; bytes = bytes.now }) }
    {
        let clear = [0; 4];
        let mut plane = Plane::new(alloc, w, h, bpp, &clear[..bpp as usize])?;
        let whole = Rect { x: 0, y: 0, w, h };
        plane.write_rect(alloc, whole, bytes)?;
        Ok(plane)
    }

    /// The width in pixels.
    pub fn width(&self) -> u32
        ensures value { result ≡ self.now.width }
        ensures sized { IsSized self.now }
    {
        self.sheet.width as u32
    }

    /// The height in pixels.
    pub fn height(&self) -> u32
        ensures value { result ≡ self.now.height }
        ensures sized { IsSized self.now }
    {
        self.sheet.height as u32
    }

    /// Bytes per pixel.
    pub fn bpp(&self) -> u32
        ensures value { result ≡ self.now.bpp }
        ensures sized { IsSized self.now }
    {
        self.sheet.bpp as u32
    }

    /// The same pixels: one count.
    pub fn share(&self, _alloc: Global) -> Result<Plane, AllocError>
        ensures { IfOk result (λ p. p ≡ self.now) }
    {
        Ok(Plane {
            sheet: self.sheet,
            tiles: self.tiles.share()?,
        })
    }

    /// Byte c of the pixel in column x of row y. It unpacks the pixel's tile, if a file has it in runs.
    pub fn get(&self, x: u32, y: u32, c: u32) -> u8
        requires column { x < self.now.width }
        requires row { y < self.now.height }
        requires byte { c < self.now.bpp }
        ensures { result ≡ byte_at self.now x y c }
    {
        let mut scratch = [0; SCRATCH];
        point_byte(
            self.sheet,
            &self.tiles,
            x as usize,
            y as usize,
            c as usize,
            &mut scratch,
        )
    }

    /// Fills `out` with the bytes of the pixels of a rectangle, row by row. `scratch` has `SCRATCH` bytes.
    pub fn read_rect(&self, rect: Rect, out: &mut [u8], scratch: &mut [u8])
        requires within { IsWithin self.now.width self.now.height rect }
        requires out { length out.old ≡ rect.w * rect.h * self.now.bpp }
        requires scratch { length scratch.old ≡ SCRATCH }
        ensures { out.new ≡ bytes_in self.now rect }
    {
        let area = area_of(rect);
        read_area(self.sheet, &self.tiles, area, out, scratch);
    }

    /// Fills `out` with the bytes of n pixels of row y, from column x on. `scratch` has `SCRATCH` bytes: each call
    /// unpacks the tiles that it meets.
    pub fn read_row(&self, x: u32, y: u32, n: u32, out: &mut [u8], scratch: &mut [u8])
        requires columns { x + n ≤ self.now.width }
        requires row { y < self.now.height }
        requires out { length out.old ≡ n * self.now.bpp }
        requires scratch { length scratch.old ≡ SCRATCH }
        ensures { (k c : ℕ) → k < n → c < self.now.bpp → slice_index out.new (k * self.now.bpp + c)
            ≡ byte_at self.now (x + k) y c }
    {
        let area = Area {
            x: x as usize,
            y: y as usize,
            w: n as usize,
            h: 1,
        };
        read_area(self.sheet, &self.tiles, area, out, scratch);
    }

    /// The bytes of row y of a rectangle, of which `bytes` were read, row by row.
    pub fn row_in<'a>(&self, rect: Rect, bytes: &'a [u8], y: u32) -> &'a [u8]
        requires within { IsWithin self.now.width self.now.height rect }
        requires bytes { bytes.now ≡ bytes_in self.now rect }
        requires row { y < rect.h }
        ensures length { length result.now ≡ rect.w * self.now.bpp }
        ensures each { (k c : ℕ) → k < rect.w → c < self.now.bpp
            → slice_index result.now (k * self.now.bpp + c)
            ≡ byte_at self.now (part_above_0 rect.x + k) (part_above_0 rect.y + y) c }
    {
        let area = area_of(rect);
        row_of(area, self.sheet.bpp, bytes, y as usize)
    }

    /// Writes the pixels of a rectangle, row by row, and leaves all others. Out of memory, the plane is as before.
    pub fn write_rect(&mut self, alloc: Global, rect: Rect, bytes: &[u8]) -> Result<(), AllocError>
        requires within { IsWithin self.old.width self.old.height rect }
        requires bytes { length bytes.now ≡ rect.w * rect.h * self.old.bpp }
        ensures ok { OnOk result (self.new ≡ written self.old rect bytes.now) }
        ensures err { OnErr result (self.new ≡ self.old) }
    {
        let area = area_of(rect);
        write_area(alloc, self.sheet, &mut self.tiles, area, bytes)
    }

    /// Fills a rectangle with one pixel, and leaves all others. The tiles that lie in it share their bytes. Out of
    /// memory, the plane is as before.
    pub fn fill_rect(&mut self, alloc: Global, rect: Rect, pixel: &[u8]) -> Result<(), AllocError>
        requires within { IsWithin self.old.width self.old.height rect }
        requires bytes { length (repeated (rect.w * rect.h) pixel.now)
            ≡ rect.w * rect.h * self.old.bpp }
        ensures ok { OnOk result
            (self.new ≡ written self.old rect (repeated (rect.w * rect.h) pixel.now)) }
        ensures err { OnErr result (self.new ≡ self.old) }
    {
        let area = area_of(rect);
        fill_area(alloc, self.sheet, &mut self.tiles, area, pixel)
    }

    /// The bytes of a tile, row by row, in the scratch where a file has them in runs. It has `SCRATCH` bytes.
    pub fn tile_bytes<'a>(&'a self, at: TileAt, scratch: &'a mut [u8]) -> &'a [u8]
        requires column { at.col < grid.tiles_along self.now.width }
        requires row { at.row < grid.tiles_along self.now.height }
        requires scratch { length scratch.old ≡ SCRATCH }
        ensures { result.now ≡ sheet.tile_bytes self.now at }
    {
        tile_bytes(
            self.sheet,
            &self.tiles,
            at.col as usize,
            at.row as usize,
            scratch,
        )
    }

    /// The codes of a tile's planes, if they stand in a file and a writer may copy them.
    pub fn tile_codes(&self, at: TileAt) -> Result<Option<Part>, AllocError>
        requires column { at.col < grid.tiles_along self.now.width }
        requires row { at.row < grid.tiles_along self.now.height }
        ensures { IfOk result (λ found. IfSome found (λ codes. AreSpelled AnySpelling codes
            (tile_planes 1 self.now at))) }
    {
        tile_codes(self.sheet, &self.tiles, at.col as usize, at.row as usize)
    }

    /// The bytes of a tile, its pixels row by row, if they stand plain.
    pub fn plain_tile(&self, at: TileAt) -> Result<Option<Part>, AllocError>
        requires column { at.col < grid.tiles_along self.now.width }
        requires row { at.row < grid.tiles_along self.now.height }
        ensures { IfOk result (λ found. IfSome found (λ bytes. bytes
            ≡ sheet.tile_bytes self.now at)) }
    {
        plain_tile(self.sheet, &self.tiles, at.col as usize, at.row as usize)
    }

    /// How many tiles it has.
    pub fn tile_count(&self) -> u32
        ensures { result ≡ grid.tiles_along self.now.height * grid.tiles_along self.now.width }
    {
        (tiles_along(self.sheet.height) * tiles_along(self.sheet.width)) as u32
    }

    /// A share of a tile.
    pub fn tile(&self, at: TileAt) -> Result<TileRef, AllocError>
        requires column { at.col < grid.tiles_along self.now.width }
        requires row { at.row < grid.tiles_along self.now.height }
        ensures { IfOk result (λ t. t ≡ sheet.tile_bytes self.now at) }
    {
        let columns = tiles_along(self.sheet.width);
        self.tiles
            .at(at.row as usize * columns + at.col as usize)
            .share()
    }

    /// Puts a tile of the same size in the place of one, which it hands out. The list of rows and the row of tiles are
    /// copied first where others hold them; without memory for that the tile is handed back.
    pub fn swap_tile(
        &mut self,
        alloc: Global,
        at: TileAt,
        tile: TileRef,
    ) -> Result<TileRef, AllocFailed<TileRef>>
        requires column { at.col < grid.tiles_along self.old.width }
        requires row { at.row < grid.tiles_along self.old.height }
        requires size { length tile ≡ sheet.tile_width self.old.width at * sheet.tile_height
            self.old.height at * self.old.bpp }
        ensures result { IfOk result (λ old. old ≡ sheet.tile_bytes self.old at) }
        ensures after { OnOk result (self.new ≡ with_tile self.old at tile) }
        ensures back { IfErr result (λ failed. failed.value ≡ tile) }
        ensures err { OnErr result (self.new ≡ self.old) }
    {
        let columns = tiles_along(self.sheet.width);
        let place = at.row as usize * columns + at.col as usize;
        self.tiles.replace(alloc, place, tile)
    }

    /// How many tiles have other bytes than those of a plane of the same size. Each scratch has `SCRATCH` bytes.
    ///
    /// Every tile of both is unpacked and compared, also where the planes share it.
    pub fn tiles_changed(&self, other: &Plane, scratch: &mut [u8], other_scratch: &mut [u8]) -> u32
        requires width { other.now.width ≡ self.now.width }
        requires height { other.now.height ≡ self.now.height }
        requires bpp { other.now.bpp ≡ self.now.bpp }
        requires scratch { length scratch.old ≡ SCRATCH }
        requires other_scratch { length other_scratch.old ≡ SCRATCH }
        ensures { result ≡ changed_tiles self.now other.now }
    {
        count_changed(
            self.sheet,
            &self.tiles,
            &other.tiles,
            scratch,
            other_scratch,
        ) as u32
    }
}
