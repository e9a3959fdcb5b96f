//! The tiles that a rectangle meets.
use std::alloc::{AllocError, Global};
use std::test::Fail;
use xl_grid::{Rect, TileAt, tiles_of};

/// The place and the sides of a rectangle, and the tiles that it meets, by column and row, of a sheet of 200 by 130
/// pixels, which has four columns and three rows of tiles.
const MET: [((i16, i16, u16, u16), &'static [(u32, u32)]); 10] = [
    // points on each side of an edge
    ((63, 63, 1, 1), &[(0, 0)]),
    ((64, 63, 1, 1), &[(1, 0)]),
    ((63, 64, 1, 1), &[(0, 1)]),
    ((199, 129, 1, 1), &[(3, 2)]),
    // row by row
    (
        (127, 60, 66, 5),
        &[(1, 0), (2, 0), (3, 0), (1, 1), (2, 1), (3, 1)],
    ),
    (
        (-5, -5, 300, 300),
        &[
            (0, 0),
            (1, 0),
            (2, 0),
            (3, 0),
            (0, 1),
            (1, 1),
            (2, 1),
            (3, 1),
            (0, 2),
            (1, 2),
            (2, 2),
            (3, 2),
        ],
    ),
    // beside the sheet
    ((-5, 128, 6, 100), &[(0, 2)]),
    ((-5, 0, 5, 10), &[]),
    ((200, 0, 5, 10), &[]),
    ((10, 10, 0, 10), &[]),
];

fn are_tiles(found: &[TileAt], tiles: &[(u32, u32)]) -> bool {
    for (i, tile) in tiles.iter().enumerate() {
        let is_there = match found.get(i) {
            Some(at) => at.col == tile.0 && at.row == tile.1,
            None => false,
        };
        if !is_there {
            return false;
        }
    }
    found.len() == tiles.len()
}

// The first of the rectangles, counted from 0, that meets other tiles.
fn first_met_otherwise(alloc: Global) -> Result<Option<usize>, AllocError> {
    for (i, row) in MET.iter().enumerate() {
        if !meets(alloc, row.0, row.1)? {
            return Ok(Some(i));
        }
    }
    Ok(None)
}

fn meets(
    alloc: Global,
    sides: (i16, i16, u16, u16),
    tiles: &[(u32, u32)],
) -> Result<bool, AllocError> {
    let rect = Rect {
        x: i32::from(sides.0),
        y: i32::from(sides.1),
        w: u32::from(sides.2),
        h: u32::from(sides.3),
    };
    let found = tiles_of(alloc, rect, 200, 130)?;
    Ok(are_tiles(found.as_slice(), tiles))
}

#[test]
fn rectangles_meet_tiles(rt: HostRuntime) -> Result<(), Fail> {
    assert_eq!(rt; first_met_otherwise(rt.alloc())?, None);
    Ok(())
}
