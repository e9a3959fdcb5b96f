//! Planes that share their tiles.
ghost use Rattle.std.specs.Prelude.{◌≡◌, IfOk};
ghost use Rattle.xl_tiles.specs.Written.{IsWithin};

use std::alloc::{AllocError, Global};
use std::test::Fail;
use xl_tiles::{Plane, Rect, SCRATCH, TileAt, TileRef};

/// A plane of 65 columns and one row, so of two tiles, all of whose bytes are 7.
fn sevens(alloc: Global) -> Result<Plane, AllocError>
    ensures width { IfOk result (λ p. p.width ≡ 65) }
    ensures height { IfOk result (λ p. p.height ≡ 1) }
    ensures bpp { IfOk result (λ p. p.bpp ≡ 1) }
{
    Plane::new(alloc, 65, 1, 1, &[7])
}

/// Writes 9 into the last column of the first tile and the only one of the second.
fn write_nines(alloc: Global, plane: &mut Plane) -> Result<(), AllocError>
    requires width { plane.old.width ≡ 65 }
    requires height { plane.old.height ≡ 1 }
    requires bpp { plane.old.bpp ≡ 1 }
    ensures width { plane.new.width ≡ 65 }
    ensures height { plane.new.height ≡ 1 }
    ensures bpp { plane.new.bpp ≡ 1 }
{
    let rect = Rect {
        x: 63,
        y: 0,
        w: 2,
        h: 1,
    };
    plane.write_rect(alloc, rect, &[9, 9])
}

// The bytes of the last two columns of the first tile, and that of the second.
fn last_bytes(plane: &Plane) -> [u8; 3]
    requires width { plane.now.width ≡ 65 }
    requires height { plane.now.height ≡ 1 }
    requires bpp { plane.now.bpp ≡ 1 }
{
    [
        plane.get(62, 0, 0),
        plane.get(63, 0, 0),
        plane.get(64, 0, 0),
    ]
}

// The last bytes of a plane that was written, and of one that shared its tiles before.
fn written_beside_a_share(alloc: Global) -> Result<[[u8; 3]; 2], AllocError> {
    let mut plane = sevens(alloc)?;
    let other = plane.share(alloc)?;
    written_beside(alloc, &mut plane, &other)
}

fn written_beside(
    alloc: Global,
    plane: &mut Plane,
    other: &Plane,
) -> Result<[[u8; 3]; 2], AllocError>
    requires width { plane.old.width ≡ 65 }
    requires height { plane.old.height ≡ 1 }
    requires bpp { plane.old.bpp ≡ 1 }
    requires other_width { other.now.width ≡ 65 }
    requires other_height { other.now.height ≡ 1 }
    requires other_bpp { other.now.bpp ≡ 1 }
{
    write_nines(alloc, plane)?;
    Ok([last_bytes(plane), last_bytes(other)])
}

// Holds so many shares of a plane at once. How many they are.
fn held_at_once(alloc: Global, plane: &Plane, count: usize) -> Result<usize, AllocError> {
    let mut held = Vec::with_capacity(alloc, count)?;
    for _k in 0..count {
        held.push(plane.share(alloc)?)?;
    }
    Ok(held.len())
}

fn thousand_held_at_once(alloc: Global) -> Result<usize, AllocError> {
    let plane = Plane::new(alloc, 2048, 2048, 4, &[1, 2, 3, 4])?;
    held_at_once(alloc, &plane, 1000)
}

/// A plane of a row of two pixels.
fn pair(alloc: Global, bytes: [u8; 4]) -> Result<Plane, AllocError>
    ensures width { IfOk result (λ p. p.width ≡ 2) }
    ensures height { IfOk result (λ p. p.height ≡ 1) }
    ensures bpp { IfOk result (λ p. p.bpp ≡ 2) }
{
    Plane::of_pixels(alloc, 2, 1, 2, &bytes)
}

/// Exchanges the only tile of two planes of one size.
fn exchange(alloc: Global, plane: &mut Plane, other: &Plane) -> Result<TileRef, AllocError>
    requires width { plane.old.width ≡ 2 }
    requires height { plane.old.height ≡ 1 }
    requires bpp { plane.old.bpp ≡ 2 }
    requires other_width { other.now.width ≡ 2 }
    requires other_height { other.now.height ≡ 1 }
    requires other_bpp { other.now.bpp ≡ 2 }
    ensures width { plane.new.width ≡ 2 }
    ensures height { plane.new.height ≡ 1 }
    ensures bpp { plane.new.bpp ≡ 2 }
{
    let at = TileAt { col: 0, row: 0 };
    let tile = other.tile(at)?;
    Ok(plane.swap_tile(alloc, at, tile)?)
}

// Whether a tile has these bytes.
fn has_bytes(tile: &TileRef, bytes: &[u8]) -> bool {
    let mut scratch = [0; SCRATCH];
    tile.bytes(&mut scratch) == bytes
}

// The bytes of both pixels.
fn pair_bytes(plane: &Plane) -> [u8; 4]
    requires width { plane.now.width ≡ 2 }
    requires height { plane.now.height ≡ 1 }
    requires bpp { plane.now.bpp ≡ 2 }
{
    let whole = Rect {
        x: 0,
        y: 0,
        w: 2,
        h: 1,
    };
    let mut scratch = [0; SCRATCH];
    let mut out = [0; 4];
    plane.read_rect(whole, &mut out, &mut scratch);
    out
}

// Whether a tile is handed back that was exchanged, and the bytes of the plane since.
fn exchanged(alloc: Global) -> Result<(bool, [u8; 4]), AllocError> {
    let mut plane = pair(alloc, [1, 2, 3, 4])?;
    let other = pair(alloc, [5, 6, 7, 8])?;
    exchanged_with(alloc, &mut plane, &other)
}

fn exchanged_with(
    alloc: Global,
    plane: &mut Plane,
    other: &Plane,
) -> Result<(bool, [u8; 4]), AllocError>
    requires width { plane.old.width ≡ 2 }
    requires height { plane.old.height ≡ 1 }
    requires bpp { plane.old.bpp ≡ 2 }
    requires other_width { other.now.width ≡ 2 }
    requires other_height { other.now.height ≡ 1 }
    requires other_bpp { other.now.bpp ≡ 2 }
{
    let old = exchange(alloc, plane, other)?;
    Ok((has_bytes(&old, &[1, 2, 3, 4]), pair_bytes(plane)))
}

fn tiles_changed(plane: &Plane, old: &Plane) -> u32
    requires width { old.now.width ≡ plane.now.width }
    requires height { old.now.height ≡ plane.now.height }
    requires bpp { old.now.bpp ≡ plane.now.bpp }
{
    let mut scratch = [0; SCRATCH];
    let mut other_scratch = [0; SCRATCH];
    plane.tiles_changed(old, &mut scratch, &mut other_scratch)
}

/// How many tiles of a plane of 200 by 200 pixels of the value 7 differ from those before a rectangle was written.
fn changed_by(alloc: Global, rect: Rect, value: u8) -> Result<u32, AllocError>
    requires { IsWithin 200 200 rect }
{
    let old = Plane::new(alloc, 200, 200, 1, &[7])?;
    let mut plane = old.share(alloc)?;
    let bytes = vec![in alloc; value; rect.w as usize * rect.h as usize]?;
    plane.write_rect(alloc, rect, &bytes)?;
    Ok(tiles_changed(&plane, &old))
}

fn changed_by_each(alloc: Global) -> Result<[u32; 4], AllocError> {
    let pixel = Rect {
        x: 100,
        y: 100,
        w: 1,
        h: 1,
    };
    let corner = Rect {
        x: 63,
        y: 63,
        w: 2,
        h: 2,
    };
    let none = Rect {
        x: 0,
        y: 0,
        w: 0,
        h: 0,
    };
    Ok([
        changed_by(alloc, pixel, 8)?,
        changed_by(alloc, corner, 8)?,
        changed_by(alloc, corner, 7)?,
        changed_by(alloc, none, 8)?,
    ])
}

/// Fills a rectangle with a byte.
fn fill(alloc: Global, plane: &mut Plane, rect: Rect, value: u8) -> Result<(), AllocError>
    requires within { IsWithin plane.old.width plane.old.height rect }
    requires bpp { plane.old.bpp ≡ 1 }
    ensures width { plane.new.width ≡ plane.old.width }
    ensures height { plane.new.height ≡ plane.old.height }
    ensures bpp { plane.new.bpp ≡ plane.old.bpp }
{
    plane.fill_rect(alloc, rect, &[value])
}

/// In how many tiles a plane of 200 by 200 pixels in which a rectangle is filled differs from one in which the same
/// bytes are written, row by row.
fn other_than_written(alloc: Global, rect: Rect, value: u8) -> Result<u32, AllocError>
    requires { IsWithin 200 200 rect }
{
    let mut filled = Plane::new(alloc, 200, 200, 1, &[7])?;
    let mut written = filled.share(alloc)?;
    let bytes = vec![in alloc; value; rect.w as usize * rect.h as usize]?;
    written.write_rect(alloc, rect, &bytes)?;
    fill(alloc, &mut filled, rect, value)?;
    Ok(tiles_changed(&filled, &written))
}

fn other_than_each_written(alloc: Global) -> Result<[u32; 3], AllocError> {
    let inside = Rect {
        x: 10,
        y: 20,
        w: 150,
        h: 140,
    };
    let to_the_edges = Rect {
        x: 60,
        y: 64,
        w: 140,
        h: 136,
    };
    let whole = Rect {
        x: 0,
        y: 0,
        w: 200,
        h: 200,
    };
    Ok([
        other_than_written(alloc, inside, 8)?,
        other_than_written(alloc, to_the_edges, 8)?,
        other_than_written(alloc, whole, 8)?,
    ])
}

#[test]
fn planes_share_and_exchange_tiles(rt: HostRuntime) -> Result<(), Fail> {
    assert!(rt; written_beside_a_share(rt.alloc())? == [[7, 9, 9], [7, 7, 7]]);
    assert!(rt; thousand_held_at_once(rt.alloc())? == 1000);
    assert!(rt; exchanged(rt.alloc())? == (true, [5, 6, 7, 8]));
    Ok(())
}

#[test]
fn changed_tiles_are_counted(rt: HostRuntime) -> Result<(), Fail> {
    assert!(rt; changed_by_each(rt.alloc())? == [1, 4, 0, 0]);
    assert!(rt; other_than_each_written(rt.alloc())? == [0; 3]);
    Ok(())
}
