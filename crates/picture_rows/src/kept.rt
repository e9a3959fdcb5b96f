//! Each call once, and takes in order and round.
use std::alloc::{AllocError, Global};
use std::test::Fail;
use xl_cache::{Cache, Finished, Slots};
use xl_compose::{CleanTiles, Done, Picture};
use xl_grid::{Rect, TileAt};
use xl_tree::NodeId;

/// The stack of the image.
const IMAGE: NodeId = NodeId(0);

const LEFT: TileAt = TileAt { col: 0, row: 0 };

const RIGHT: TileAt = TileAt { col: 1, row: 0 };

const BELOW: TileAt = TileAt { col: 0, row: 1 };

/// Points of the two tiles of the first row.
const ACROSS: Rect = Rect {
    x: 63,
    y: -9,
    w: 2,
    h: 10,
};

/// What is done next with a cache, and what comes of it. A tile is a stack, a column and a row.
#[derive(Clone, Copy)]
enum Row {
    /// This tile is taken.
    Takes(u32, u32, u32),
    TakesNone,
    /// A picture of a tile is handed in, of this version, and ends so.
    Ends(u32, u32, u32, u32, Finished),
    /// A stack loses its slots. Whether it had some.
    Drops(u32, bool),
    /// Points of the two tiles of the image's first row are marked with this version.
    Marks(u32),
    /// Whether the slots of three tiles of the image are clean: the first two of its first row, and one below.
    Slots([bool; 3]),
    /// The last version, as far as this one, of which the picture that is kept of a tile is known to be.
    Keeps(u32, u32, u32, u32, Option<u32>),
    /// Whether there is a clean picture of a tile.
    IsClean(u32, u32, u32, bool),
}

// One tile is clean before its turn comes.
const ROUND: [Row; 9] = [
    Row::Takes(0, 0, 0),
    Row::Ends(0, 0, 1, 0, Finished::Installed),
    Row::Takes(0, 1, 0),
    Row::Takes(0, 1, 1),
    Row::Takes(7, 0, 0),
    Row::Takes(7, 1, 0),
    Row::Takes(7, 0, 1),
    Row::Takes(7, 1, 1),
    Row::Takes(0, 0, 0),
];

// Of the one tile of a stack.
const NONE_MARKED: [Row; 4] = [
    Row::Takes(0, 0, 0),
    Row::Takes(0, 0, 0),
    Row::Ends(0, 0, 0, 0, Finished::Installed),
    Row::TakesNone,
];

const LATE_AND_GONE: [Row; 7] = [
    Row::Ends(7, 0, 0, 2, Finished::Late { marked_at: 3 }),
    Row::Ends(7, 0, 0, 4, Finished::Installed),
    Row::Ends(7, 0, 0, 2, Finished::Late { marked_at: 3 }),
    Row::Ends(5, 0, 0, 4, Finished::Gone),
    Row::Drops(7, true),
    Row::Drops(7, false),
    Row::Ends(7, 0, 0, 4, Finished::Gone),
];

// Pictures of version 1 of all tiles of the image, and marks on two of them.
const ALL_CLEAN_THEN_MARKED: [Row; 13] = [
    Row::Ends(0, 0, 0, 1, Finished::Installed),
    Row::Ends(0, 0, 1, 1, Finished::Installed),
    Row::Ends(0, 1, 0, 1, Finished::Installed),
    Row::Ends(0, 1, 1, 1, Finished::Installed),
    Row::Marks(5),
    Row::Slots([false, false, true]),
    Row::Keeps(0, 0, 0, 5, Some(4)),
    Row::Keeps(0, 0, 1, 5, Some(5)),
    Row::Keeps(7, 0, 0, 5, None),
    Row::IsClean(0, 0, 0, false),
    Row::IsClean(0, 0, 1, true),
    Row::Marks(6),
    Row::Keeps(0, 0, 0, 6, Some(4)),
];

/// The top stack of a canvas of two times two tiles, and a group of it.
fn two_stacks(alloc: Global) -> Result<Cache, AllocError> {
    let mut cache = Cache::new(alloc)?;
    cache.add_node(IMAGE, Slots::new(alloc, 100, 70)?, 0);
    cache.add_node(NodeId(7), Slots::new(alloc, 100, 70)?, 3);
    Ok(cache)
}

/// The top stack of a canvas of one tile.
fn one_tile(alloc: Global) -> Result<Cache, AllocError> {
    let mut cache = Cache::new(alloc)?;
    cache.add_node(IMAGE, Slots::new(alloc, 64, 64)?, 0);
    Ok(cache)
}

fn tile(stack: u32, col: u32, row: u32) -> (NodeId, TileAt) {
    (NodeId(stack), TileAt { col, row })
}

// Whether this is taken.
fn takes(cache: &mut Cache, next: Option<(NodeId, TileAt)>) -> bool {
    cache.take() == next
}

// Hands in a picture without points in place of that of a tile. Whether it ends so.
fn ends(
    alloc: Global,
    cache: &mut Cache,
    tile: (NodeId, TileAt),
    version: u32,
    finished: Finished,
) -> Result<bool, AllocError> {
    let picture = Picture::blank(alloc)?;
    let done = Done {
        node: tile.0,
        at: tile.1,
        version,
        picture,
    };
    Ok(cache.install(done) == finished)
}

// Whether a stack had slots to lose.
fn drops(cache: &mut Cache, stack: u32) -> bool {
    cache.drop_node(NodeId(stack)).is_some()
}

// Whether the slots of three tiles of the image are clean.
fn clean_slots(cache: &Cache) -> [bool; 3] {
    [
        cache.clean(IMAGE, LEFT),
        cache.clean(IMAGE, RIGHT),
        cache.clean(IMAGE, BELOW),
    ]
}

// The last version of which the picture that is kept of a tile is known to be.
fn kept_version(cache: &Cache, tile: (NodeId, TileAt), latest: u32) -> Option<u32> {
    match cache.kept(tile.0, tile.1, latest) {
        Some((version, _)) => Some(version),
        None => None,
    }
}

fn is_clean(cache: &Cache, tile: (NodeId, TileAt)) -> bool {
    cache.clean_tile(tile.0, tile.1).is_some()
}

// Marks the points of the first row with a version, which is not 0.
fn marks(cache: &mut Cache, version: u32) -> bool {
    if version == 0 {
        return false;
    }
    cache.mark(IMAGE, ACROSS, version);
    true
}

// Whether a row holds.
fn holds(alloc: Global, cache: &mut Cache, row: Row) -> Result<bool, AllocError> {
    match row {
        Row::Takes(stack, col, row) => Ok(takes(cache, Some(tile(stack, col, row)))),
        Row::TakesNone => Ok(takes(cache, None)),
        Row::Ends(stack, col, row, version, finished) => {
            ends(alloc, cache, tile(stack, col, row), version, finished)
        }
        Row::Drops(stack, had_slots) => Ok(drops(cache, stack) == had_slots),
        Row::Marks(version) => Ok(marks(cache, version)),
        Row::Slots(clean) => Ok(clean_slots(cache) == clean),
        Row::Keeps(stack, col, row, latest, version) => {
            Ok(kept_version(cache, tile(stack, col, row), latest) == version)
        }
        Row::IsClean(stack, col, row, clean) => {
            Ok(is_clean(cache, tile(stack, col, row)) == clean)
        }
    }
}

// The first of some rows, counted from 0, that does not hold after those before it.
fn first_wrong(
    alloc: Global,
    cache: &mut Cache,
    rows: &[Row],
) -> Result<Option<usize>, AllocError> {
    for (i, row) in rows.iter().enumerate() {
        if !holds(alloc, cache, *row)? {
            return Ok(Some(i));
        }
    }
    Ok(None)
}

fn wrong_of_two_stacks(alloc: Global, rows: &[Row]) -> Result<Option<usize>, AllocError> {
    let mut cache = two_stacks(alloc)?;
    first_wrong(alloc, &mut cache, rows)
}

fn wrong_of_one_tile(alloc: Global, rows: &[Row]) -> Result<Option<usize>, AllocError> {
    let mut cache = one_tile(alloc)?;
    first_wrong(alloc, &mut cache, rows)
}

fn wrong_rows(alloc: Global) -> Result<[Option<usize>; 4], AllocError> {
    Ok([
        wrong_of_two_stacks(alloc, &ROUND)?,
        wrong_of_one_tile(alloc, &NONE_MARKED)?,
        wrong_of_two_stacks(alloc, &LATE_AND_GONE)?,
        wrong_of_two_stacks(alloc, &ALL_CLEAN_THEN_MARKED)?,
    ])
}

#[test]
fn tiles_are_taken_handed_in_and_marked(rt: HostRuntime) -> Result<(), Fail> {
    assert_eq!(rt; wrong_rows(rt.alloc())?, [None; 4]);
    Ok(())
}
