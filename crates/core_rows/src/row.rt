//! Rows of the tables, and whether they hold of a bench.
use crate::bench::Bench;
use crate::step::Step;
use std::alloc::{AllocError, Global};
use xl_calls::Reply;
use xl_core::Finished;

/// More tiles than any of the documents has.
const MOST_TILES: u32 = 100;

/// More groups than any of the rows has.
const MOST_GROUPS: u32 = 1000;

/// What is done next with a bench, and what comes of it.
#[derive(Clone, Copy)]
pub enum Row {
    /// A step is answered by a new version, the group that made it, and the next id.
    Changes(Step, u32, u32, u32),
    Answers(Step, Reply),
    /// The last tile or peek showed this pixel.
    Shows([u8; 4]),
    /// Jobs are taken until it is that of this stack at a column and a row.
    Takes(u32, u32, u32),
    /// The job that was taken last ends so.
    Ends(Finished),
    /// All tiles of so many stacks, so many of them in a row and in a column, are answered at this version.
    Cleans(u32, u32, u32),
    /// Jobs come of these stacks, one after another, and are handed in; then there is none.
    Marks(&'static [u32]),
    /// Room is taken for so many calls, and there is as much then.
    Reserves(u32),
    /// There is room for so many calls.
    Spares(u32),
    /// Groups fade a layer so often, the k-th to k modulo 256, and each is the next version and has the next number.
    /// The next id is 2.
    Fades(u32, u32),
    /// Undos so often, each of the group before the last one, from a version and a group on. The next id is 2.
    Undoes(u32, u32, u32),
}

// Takes jobs until it is this tile's. Whether it was.
fn take_until(alloc: Global, bench: &mut Bench, tile: (u32, u32, u32)) -> Result<bool, AllocError> {
    for _ in 0..MOST_TILES {
        match bench.take(alloc)? {
            None => return Ok(false),
            Some(place) => {
                if place == tile {
                    return Ok(true);
                }
            }
        }
    }
    Ok(false)
}

// Takes the marked tiles and hands them in, as long as there are any. Their stacks.
fn refresh(alloc: Global, bench: &mut Bench) -> Result<Vec<u32>, AllocError> {
    let mut stacks = Vec::new(alloc);
    for _ in 0..MOST_TILES {
        match bench.take(alloc)? {
            None => return Ok(stacks),
            Some(place) => {
                stacks.push(place.0)?;
                bench.finish();
            }
        }
    }
    Ok(stacks)
}

// Asks a tile. Whether it is of this version.
fn is_shown(
    alloc: Global,
    bench: &mut Bench,
    tile: (u32, u32, u32),
    version: u32,
) -> Result<bool, AllocError> {
    let reply = bench.ask(alloc, Step::Tile(tile.0, tile.1, tile.2))?;
    Ok(reply == Reply::Tile { version })
}

// Asks the tiles of a stack. Whether all are of this version.
fn are_shown(
    alloc: Global,
    bench: &mut Bench,
    stack: u32,
    side: u32,
    version: u32,
) -> Result<bool, AllocError> {
    for row in 0..side {
        for col in 0..side {
            if !is_shown(alloc, bench, (stack, col, row), version)? {
                return Ok(false);
            }
        }
    }
    Ok(true)
}

// Asks the tiles of the first stacks. Whether all are of this version.
fn cleans(
    alloc: Global,
    bench: &mut Bench,
    stacks: u32,
    side: u32,
    version: u32,
) -> Result<bool, AllocError> {
    for stack in 0..stacks {
        if !are_shown(alloc, bench, stack, side, version)? {
            return Ok(false);
        }
    }
    Ok(true)
}

// Whether a step is answered so.
fn answers(alloc: Global, bench: &mut Bench, step: Step, reply: Reply) -> Result<bool, AllocError> {
    Ok(bench.ask(alloc, step)? == reply)
}

// Whether this pixel was shown.
fn shows(bench: &Bench, pixel: &[u8]) -> bool {
    bench.picture() == pixel
}

// Whether the job that was taken last ends so.
fn ends(bench: &mut Bench, finished: Finished) -> bool {
    match bench.finish() {
        None => false,
        Some(end) => end == finished,
    }
}

// Whether the marked tiles are of these stacks.
fn marks(alloc: Global, bench: &mut Bench, stacks: &[u32]) -> Result<bool, AllocError> {
    let found = refresh(alloc, bench)?;
    Ok(found.as_slice() == stacks)
}

// Takes room for so many calls. Whether there is as much.
fn reserves(bench: &mut Bench, calls: u32) -> Result<bool, AllocError> {
    Ok(calls <= bench.reserve(calls)?)
}

// Fades a layer so often. Whether each group was the next version, with the next number, and the next id was 2.
fn fades(alloc: Global, bench: &mut Bench, layer: u32, count: u32) -> Result<bool, AllocError> {
    for i in 0..count.min(MOST_GROUPS) {
        let reply = bench.ask(alloc, Step::Fade(layer, ((i + 1) % 256) as u8))?;
        if reply != change_reply(i + 1, i + 1, 2) {
            return Ok(false);
        }
    }
    Ok(true)
}

// Undoes so often, from a version and a group on. Whether the groups were undone one after another, and the next id was
// 2.
fn undoes(
    alloc: Global,
    bench: &mut Bench,
    version: u32,
    group: u32,
    count: u32,
) -> Result<bool, AllocError> {
    for i in 0..count.min(MOST_GROUPS) {
        let reply = bench.ask(alloc, Step::Undo)?;
        if reply != change_reply(version.wrapping_add(i), group.wrapping_sub(i), 2) {
            return Ok(false);
        }
    }
    Ok(true)
}

// A new version.
fn change_reply(version: u32, group: u32, next: u32) -> Reply {
    Reply::Changed {
        version,
        group,
        next,
    }
}

// Whether a row holds.
fn holds(alloc: Global, bench: &mut Bench, row: Row) -> Result<bool, AllocError> {
    match row {
        Row::Changes(step, version, group, next) => {
            answers(alloc, bench, step, change_reply(version, group, next))
        }
        Row::Answers(step, reply) => answers(alloc, bench, step, reply),
        Row::Shows(pixel) => Ok(shows(bench, pixel.as_slice())),
        Row::Takes(stack, col, row) => take_until(alloc, bench, (stack, col, row)),
        Row::Ends(finished) => Ok(ends(bench, finished)),
        Row::Cleans(stacks, side, version) => cleans(alloc, bench, stacks, side, version),
        Row::Marks(stacks) => marks(alloc, bench, stacks),
        Row::Reserves(calls) => reserves(bench, calls),
        Row::Spares(calls) => Ok(calls <= bench.spare()),
        Row::Fades(layer, count) => fades(alloc, bench, layer, count),
        Row::Undoes(version, group, count) => undoes(alloc, bench, version, group, count),
    }
}

// The first of some rows, counted from 0, that does not hold after those before it.
fn first_wrong_of(
    alloc: Global,
    bench: &mut Bench,
    rows: &[Row],
) -> Result<Option<usize>, AllocError> {
    for (i, row) in rows.iter().enumerate() {
        if !holds(alloc, bench, *row)? {
            return Ok(Some(i));
        }
    }
    Ok(None)
}

/// The same of a file's document.
pub fn first_wrong(alloc: Global, file: &[u8], rows: &[Row]) -> Result<Option<usize>, AllocError> {
    let mut bench = Bench::open(alloc, file)?;
    let wrong = first_wrong_of(alloc, &mut bench, rows);
    drop(bench);
    wrong
}
