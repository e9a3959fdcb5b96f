//! A plane whose tiles stand in a file in runs, and what is written over them.
ghost use Rattle.std.specs.Prelude.{◌≡◌, ◌*◌, ◌<◌, length, IfOk};
ghost use Rattle.xl_tiles.specs.Written.{IsWithin};

use std::alloc::{AllocError, Global};
use std::sync::Arc;
use std::test::Fail;
use xl_hier::{Plane, read_hierarchy};
use xl_tiles::{Rect, SCRATCH, TileAt};

/// The hierarchy of 100 by 70 pixels of two bytes, and its level at 20, with four tiles from 48 on.
const FRONT: [u8; 48] = [
    0, 0, 0, 100, 0, 0, 0, 70, 0, 0, 0, 2, 0, 0, 0, 20, 0, 0, 0, 0, // hierarchy
    0, 0, 0, 100, 0, 0, 0, 70, 0, 0, 0, 48, 0, 0, 0, 61, 0, 0, 0, 74, 0, 0, 0, 87, 0, 0, 0, 0,
];

/// The codes of the tiles, row by row. The second byte of all pixels of a tile is the same.
const CODES: [[u8; 13]; 4] = [
    // 64 by 64: the first 63 rows are 10, and the last is 11 but for its last two pixels.
    [127, 15, 192, 10, 61, 11, 254, 12, 13, 127, 16, 0, 14],
    // 36 by 64: the first 63 rows are 20, and the last is 23 but for its first two pixels.
    [127, 8, 220, 20, 254, 21, 22, 33, 23, 127, 9, 0, 24],
    // 64 by 6: the first row is 30 but for its last two pixels, and the others are 33.
    [61, 30, 254, 31, 32, 127, 1, 64, 33, 127, 1, 128, 34],
    // 36 by 6: the first row is 42 but for its first two pixels, and the others are 43.
    [254, 40, 41, 33, 42, 127, 0, 180, 43, 127, 0, 216, 44],
];

/// The pixels of columns 62 to 65 of rows 62 to 65, which are those round the corner of the four tiles.
const AS_READ: [u8; 32] = [
    10, 14, 10, 14, 20, 24, 20, 24, //
    12, 14, 13, 14, 21, 24, 22, 24, //
    31, 34, 32, 34, 40, 44, 41, 44, //
    33, 34, 33, 34, 43, 44, 43, 44,
];

/// The same with a pixel of each tile written.
const WITH_CORNER: [u8; 32] = [
    10, 14, 10, 14, 20, 24, 20, 24, //
    12, 14, 101, 102, 103, 104, 22, 24, //
    31, 34, 105, 106, 107, 108, 41, 44, //
    33, 34, 33, 34, 43, 44, 43, 44,
];

/// The same with two columns of three rows written over that, of the two tiles on the left.
const WITH_BOTH: [u8; 32] = [
    111, 112, 113, 114, 20, 24, 20, 24, //
    115, 116, 117, 118, 103, 104, 22, 24, //
    119, 120, 121, 122, 107, 108, 41, 44, //
    33, 34, 33, 34, 43, 44, 43, 44,
];

fn file(alloc: Global) -> Result<Vec<u8>, AllocError> {
    let mut file = FRONT.as_slice().to_vec(alloc)?;
    for codes in &CODES {
        file.extend_from_slice(codes)?;
    }
    Ok(file)
}

/// The plane of the file. One of other sides is answered as out of memory, and so fails the test.
fn plane_in_runs(alloc: Global) -> Result<Plane, AllocError>
    ensures width { IfOk result (λ p. p.width ≡ 100) }
    ensures height { IfOk result (λ p. p.height ≡ 70) }
    ensures bpp { IfOk result (λ p. p.bpp ≡ 2) }
{
    let file = Arc::new(alloc, file(alloc)?)?;
    match read_hierarchy(alloc, &file, 0, 100, 70, 2, 1) {
        Ok(plane) => {
            if plane.width() == 100 && plane.height() == 70 && plane.bpp() == 2 {
                Ok(plane)
            } else {
                Err(AllocError)
            }
        }
        Err(_) => Err(AllocError),
    }
}

/// Writes a rectangle of a plane, whose sides stay.
fn write(alloc: Global, plane: &mut Plane, rect: Rect, bytes: &[u8]) -> Result<(), AllocError>
    requires within { IsWithin plane.old.width plane.old.height rect }
    requires bytes { length bytes.now ≡ rect.w * rect.h * plane.old.bpp }
    ensures width { plane.new.width ≡ plane.old.width }
    ensures height { plane.new.height ≡ plane.old.height }
    ensures bpp { plane.new.bpp ≡ plane.old.bpp }
{
    plane.write_rect(alloc, rect, bytes)
}

/// Writes a pixel of each tile, at their corner.
fn write_corner(alloc: Global, plane: &mut Plane) -> Result<(), AllocError>
    requires width { plane.old.width ≡ 100 }
    requires height { plane.old.height ≡ 70 }
    requires bpp { plane.old.bpp ≡ 2 }
    ensures width { plane.new.width ≡ 100 }
    ensures height { plane.new.height ≡ 70 }
    ensures bpp { plane.new.bpp ≡ 2 }
{
    let rect = Rect {
        x: 63,
        y: 63,
        w: 2,
        h: 2,
    };
    write(
        alloc,
        plane,
        rect,
        &[101, 102, 103, 104, 105, 106, 107, 108],
    )
}

/// Writes two columns of three rows, with the corner of the two tiles on the left.
fn write_columns(alloc: Global, plane: &mut Plane) -> Result<(), AllocError>
    requires width { plane.old.width ≡ 100 }
    requires height { plane.old.height ≡ 70 }
    requires bpp { plane.old.bpp ≡ 2 }
    ensures width { plane.new.width ≡ 100 }
    ensures height { plane.new.height ≡ 70 }
    ensures bpp { plane.new.bpp ≡ 2 }
{
    let rect = Rect {
        x: 62,
        y: 62,
        w: 2,
        h: 3,
    };
    write(
        alloc,
        plane,
        rect,
        &[111, 112, 113, 114, 115, 116, 117, 118, 119, 120, 121, 122],
    )
}

/// Writes a pixel of the first tile alone.
fn write_inside(alloc: Global, plane: &mut Plane) -> Result<(), AllocError>
    requires width { plane.old.width ≡ 100 }
    requires height { plane.old.height ≡ 70 }
    requires bpp { plane.old.bpp ≡ 2 }
    ensures width { plane.new.width ≡ 100 }
    ensures height { plane.new.height ≡ 70 }
    ensures bpp { plane.new.bpp ≡ 2 }
{
    let rect = Rect {
        x: 62,
        y: 63,
        w: 1,
        h: 1,
    };
    write(alloc, plane, rect, &[1, 2])
}

// The pixels round the corner.
fn around(plane: &Plane) -> [u8; 32]
    requires width { plane.now.width ≡ 100 }
    requires height { plane.now.height ≡ 70 }
    requires bpp { plane.now.bpp ≡ 2 }
{
    let rect = Rect {
        x: 62,
        y: 62,
        w: 4,
        h: 4,
    };
    let mut scratch = [0; SCRATCH];
    let mut out = [0; 32];
    plane.read_rect(rect, &mut out, &mut scratch);
    out
}

// The same pixels of row 63.
fn row_63(plane: &Plane) -> [u8; 8]
    requires width { plane.now.width ≡ 100 }
    requires height { plane.now.height ≡ 70 }
    requires bpp { plane.now.bpp ≡ 2 }
{
    let mut scratch = [0; SCRATCH];
    let mut out = [0; 8];
    plane.read_row(62, 63, 4, &mut out, &mut scratch);
    out
}

// The same pixels of row 64, byte by byte.
fn row_64(plane: &Plane) -> [u8; 8]
    requires width { plane.now.width ≡ 100 }
    requires height { plane.now.height ≡ 70 }
    requires bpp { plane.now.bpp ≡ 2 }
{
    [
        plane.get(62, 64, 0),
        plane.get(62, 64, 1),
        plane.get(63, 64, 0),
        plane.get(63, 64, 1),
        plane.get(64, 64, 0),
        plane.get(64, 64, 1),
        plane.get(65, 64, 0),
        plane.get(65, 64, 1),
    ]
}

// Whether the whole of a plane's bytes are so many, and these are four of them from a place on.
fn is_part(bytes: &[u8], count: usize, from: usize, part: &[u8]) -> bool {
    let is_there = match bytes.split_at_checked(from) {
        Some((_, rest)) => rest.starts_with(part),
        None => false,
    };
    is_there && bytes.len() == count
}

// Whether a tile has so many bytes, and these from a place on.
fn has_part(plane: &Plane, at: TileAt, count: usize, from: usize, part: &[u8]) -> bool
    requires column { at.col < 2 }
    requires row { at.row < 2 }
    requires width { plane.now.width ≡ 100 }
    requires height { plane.now.height ≡ 70 }
{
    let mut scratch = [0; SCRATCH];
    is_part(plane.tile_bytes(at, &mut scratch), count, from, part)
}

// Whether each tile has its two pixels round the corner, two bytes each: the last ones of its last row, the first ones
// of that, the last ones of its first row, the first ones of that.
fn have_parts(plane: &Plane, pixels: &[u8; 32]) -> [bool; 4]
    requires width { plane.now.width ≡ 100 }
    requires height { plane.now.height ≡ 70 }
{
    [
        has_part(plane, TileAt { col: 0, row: 0 }, 8192, 8188, &pixels[8..12]),
        has_part(
            plane,
            TileAt { col: 1, row: 0 },
            4608,
            4536,
            &pixels[12..16],
        ),
        has_part(plane, TileAt { col: 0, row: 1 }, 768, 124, &pixels[16..20]),
        has_part(plane, TileAt { col: 1, row: 1 }, 432, 0, &pixels[20..24]),
    ]
}

// Whether these are the pixels round the corner, as a rectangle, as rows and in the tiles.
fn shows(plane: &Plane, pixels: &[u8; 32]) -> bool
    requires width { plane.now.width ≡ 100 }
    requires height { plane.now.height ≡ 70 }
    requires bpp { plane.now.bpp ≡ 2 }
{
    around(plane) == *pixels
        && row_63(plane).as_slice() == &pixels[8..16]
        && row_64(plane).as_slice() == &pixels[16..24]
        && have_parts(plane, pixels) == [true; 4]
}

// Whether the codes that a writer may copy of a tile are these. None where it may copy none.
fn has_codes(plane: &Plane, at: TileAt, codes: &[u8]) -> Result<Option<bool>, AllocError>
    requires column { at.col < 2 }
    requires row { at.row < 2 }
    requires width { plane.now.width ≡ 100 }
    requires height { plane.now.height ≡ 70 }
{
    match plane.tile_codes(at)? {
        Some(found) => Ok(Some(found.as_slice() == codes)),
        None => Ok(None),
    }
}

// The same of all tiles, and their codes in the file.
fn have_codes(plane: &Plane) -> Result<[Option<bool>; 4], AllocError>
    requires width { plane.now.width ≡ 100 }
    requires height { plane.now.height ≡ 70 }
{
    Ok([
        has_codes(plane, TileAt { col: 0, row: 0 }, &CODES[0])?,
        has_codes(plane, TileAt { col: 1, row: 0 }, &CODES[1])?,
        has_codes(plane, TileAt { col: 0, row: 1 }, &CODES[2])?,
        has_codes(plane, TileAt { col: 1, row: 1 }, &CODES[3])?,
    ])
}

// Which tiles stand plain.
fn are_plain(plane: &Plane) -> Result<[bool; 4], AllocError>
    requires width { plane.now.width ≡ 100 }
    requires height { plane.now.height ≡ 70 }
{
    Ok([
        plane.plain_tile(TileAt { col: 0, row: 0 })?.is_some(),
        plane.plain_tile(TileAt { col: 1, row: 0 })?.is_some(),
        plane.plain_tile(TileAt { col: 0, row: 1 })?.is_some(),
        plane.plain_tile(TileAt { col: 1, row: 1 })?.is_some(),
    ])
}

// What a plane shows as it is read, behind a write over four tiles, and behind one over that.
fn shown_along(alloc: Global, plane: &mut Plane) -> Result<[bool; 3], AllocError>
    requires width { plane.old.width ≡ 100 }
    requires height { plane.old.height ≡ 70 }
    requires bpp { plane.old.bpp ≡ 2 }
{
    let is_read = shows(plane, &AS_READ);
    write_corner(alloc, plane)?;
    let is_written = shows(plane, &WITH_CORNER);
    write_columns(alloc, plane)?;
    Ok([is_read, is_written, shows(plane, &WITH_BOTH)])
}

fn are_shown(alloc: Global) -> Result<[bool; 3], AllocError> {
    let mut plane = plane_in_runs(alloc)?;
    let shown = shown_along(alloc, &mut plane);
    drop(plane);
    shown
}

#[test]
fn writes_are_laid_over_tiles_in_runs(rt: HostRuntime) -> Result<(), Fail> {
    assert!(rt; are_shown(rt.alloc())? == [true; 3]);
    Ok(())
}

// Writes the corner and then the columns. A share that is taken between.
fn shared_between(alloc: Global, plane: &mut Plane) -> Result<Plane, AllocError>
    requires width { plane.old.width ≡ 100 }
    requires height { plane.old.height ≡ 70 }
    requires bpp { plane.old.bpp ≡ 2 }
    ensures width { plane.new.width ≡ 100 }
    ensures height { plane.new.height ≡ 70 }
    ensures bpp { plane.new.bpp ≡ 2 }
    ensures result_width { IfOk result (λ p. p.width ≡ 100) }
    ensures result_height { IfOk result (λ p. p.height ≡ 70) }
    ensures result_bpp { IfOk result (λ p. p.bpp ≡ 2) }
{
    write_corner(alloc, plane)?;
    let second = plane.share(alloc)?;
    write_columns(alloc, plane)?;
    Ok(second)
}

// What is shown by a share that was taken as the plane was read, by one that is taken behind the first write, and by the
// plane itself, once it is written again.
fn shown_by_shares(alloc: Global, plane: &mut Plane, first: &Plane) -> Result<[bool; 4], AllocError>
    requires width { plane.old.width ≡ 100 }
    requires height { plane.old.height ≡ 70 }
    requires bpp { plane.old.bpp ≡ 2 }
    requires first_width { first.now.width ≡ 100 }
    requires first_height { first.now.height ≡ 70 }
    requires first_bpp { first.now.bpp ≡ 2 }
{
    let second = shared_between(alloc, plane)?;
    let is_second = shows(&second, &WITH_CORNER);
    let is_again = write_columns(alloc, plane).is_ok();
    Ok([
        shows(first, &AS_READ),
        has_all_codes(first),
        is_second && shows(&second, &WITH_CORNER),
        is_again && shows(plane, &WITH_BOTH),
    ])
}

// Whether a writer may copy the codes of all tiles.
fn has_all_codes(plane: &Plane) -> bool
    requires width { plane.now.width ≡ 100 }
    requires height { plane.now.height ≡ 70 }
{
    match have_codes(plane) {
        Ok(codes) => codes == [Some(true); 4],
        Err(AllocError) => false,
    }
}

fn shares_stay(alloc: Global) -> Result<[bool; 4], AllocError> {
    let mut plane = plane_in_runs(alloc)?;
    let first = plane.share(alloc)?;
    let shown = shown_by_shares(alloc, &mut plane, &first);
    drop(first);
    drop(plane);
    shown
}

#[test]
fn shares_stay_as_they_were_taken(rt: HostRuntime) -> Result<(), Fail> {
    assert!(rt; shares_stay(rt.alloc())? == [true; 4]);
    Ok(())
}

// Row 63 and the codes behind a write of one pixel, and behind one over four tiles.
fn coded_along(
    alloc: Global,
    plane: &mut Plane,
) -> Result<([[u8; 8]; 2], [[Option<bool>; 4]; 2]), AllocError>
    requires width { plane.old.width ≡ 100 }
    requires height { plane.old.height ≡ 70 }
    requires bpp { plane.old.bpp ≡ 2 }
{
    write_inside(alloc, plane)?;
    let inside = row_63(plane);
    let inside_codes = have_codes(plane)?;
    write_corner(alloc, plane)?;
    Ok(([inside, row_63(plane)], [inside_codes, have_codes(plane)?]))
}

fn codes_are_lost(alloc: Global) -> Result<bool, AllocError> {
    let mut plane = plane_in_runs(alloc)?;
    let has_all = has_all_codes(&plane);
    let coded = coded_along(alloc, &mut plane);
    drop(plane);
    let (rows, codes) = coded?;
    Ok(
        has_all
            && rows
                == [
                    [1, 2, 13, 14, 21, 24, 22, 24],
                    [1, 2, 101, 102, 103, 104, 22, 24],
                ]
            && codes == [[None, Some(true), Some(true), Some(true)], [None; 4]],
    )
}

#[test]
fn a_tile_that_is_written_has_no_codes(rt: HostRuntime) -> Result<(), Fail> {
    assert!(rt; codes_are_lost(rt.alloc())?);
    Ok(())
}

// Which tiles stand plain as they are read, behind a write, and behind one over that.
fn plain_along(alloc: Global, plane: &mut Plane) -> Result<[[bool; 4]; 3], AllocError>
    requires width { plane.old.width ≡ 100 }
    requires height { plane.old.height ≡ 70 }
    requires bpp { plane.old.bpp ≡ 2 }
{
    let read = are_plain(plane)?;
    write_corner(alloc, plane)?;
    let written = are_plain(plane)?;
    write_columns(alloc, plane)?;
    Ok([read, written, are_plain(plane)?])
}

fn tiles_are_unpacked(alloc: Global) -> Result<[[bool; 4]; 3], AllocError> {
    let mut plane = plane_in_runs(alloc)?;
    let plain = plain_along(alloc, &mut plane);
    drop(plane);
    plain
}

#[test]
fn a_tile_is_unpacked_by_the_second_write(rt: HostRuntime) -> Result<(), Fail> {
    assert!(rt;
        tiles_are_unpacked(rt.alloc())? == [[false; 4], [false; 4], [true, false, true, false]]
    );
    Ok(())
}
