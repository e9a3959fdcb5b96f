//! Bands of a plane that are read beside one another.
ghost use Rattle.std.specs.Prelude.{◌≡◌, ◌<◌, ◌^◌, ℕ, [], length, slice_index_or};
ghost use Rattle.std.specs.Prelude.{All, IfOk};
ghost use Rattle.std.specs.Arc.{arc_value};
ghost use Rattle.spec_document.specs.Grid as grid;
ghost use Rattle.xl_hier.specs.Bands.{BandRead};
ghost use Rattle.xl_hier.specs.SoFar.{HasRead};

use crate::band::read_band;
use crate::frame::Frame;
use rayon::prelude::*;
use std::alloc::{AllocError, Global};
use std::sync::Arc;
use std::thread::Threads;
use xl_fields::ReadRefusedOrMemory;
use xl_tiles::TileRef;

// Room for a band, and how its reading ended.
#[derive(Drop)]
struct BandRoom {
    tiles: Vec<TileRef>,
    outcome: Result<(), ReadRefusedOrMemory>,
}

impl BandRoom {
    // Reads the band of a row.
    fn read(&mut self, file: &Arc<Vec<u8>>, first: usize, frame: Frame, row: u32)
        requires small { first < 2 ^ 33 }
        requires row { row < grid.tiles_along frame.height }
        requires empty { self.old.tiles.items ≡ [] }
        ensures { BandRead (arc_value file.now).items first frame row [] self.new.tiles.items
            self.new.outcome }
    {
        self.outcome = read_band(file, first, frame, row, &mut self.tiles);
    }
}

// Room for each band.
fn new_bands(alloc: Global, frame: Frame) -> Result<Vec<BandRoom>, AllocError>
    ensures count { IfOk result (λ bands. length bands.items ≡ grid.tiles_along frame.height) }
    ensures empty { IfOk result (λ bands. All (λ band. band.tiles.items ≡ []) bands.items) }
{
    let rows = frame.rows();
    let mut bands = Vec::with_capacity(alloc, rows)?;
    for _row in 0..rows {
        bands.push(BandRoom {
            tiles: Vec::with_capacity(alloc, frame.columns())?,
            outcome: Ok(()),
        })?;
    }
    Ok(bands)
}

// Reads the band of each row in its place, each in a thread where one can be made.
fn fill_bands<R: Threads + Sync>(
    rt: &R,
    file: &Arc<Vec<u8>>,
    first: usize,
    frame: Frame,
    bands: &mut [BandRoom],
)
    requires small { first < 2 ^ 33 }
    requires count { length bands.old ≡ grid.tiles_along frame.height }
    requires empty { All (λ band. band.tiles.items ≡ []) bands.old }
    ensures length { length bands.new ≡ length bands.old }
    ensures read { (k : ℕ) (d : _) → k < length bands.old → BandRead (arc_value file.now).items
        first frame k [] (slice_index_or bands.new k d).tiles.items
        (slice_index_or bands.new k d).outcome }
{
    par_for_each_mut(
        rt,
        bands,
        |row: usize, band: &mut BandRoom|
            requires { (first < 2 ^ 33) × (row < grid.tiles_along frame.height)
                × (band.old.tiles.items ≡ []) }
            ensures { BandRead (arc_value file.entry.now).items first frame row []
                band.new.tiles.items band.new.outcome }
        { band.read(file, first, frame, row as u32) },
    );
}

/// All tiles of a plane, read beside one another and put together in their order, so that the first fault is that of
/// the first band that has one, whichever was met first. The pointers to the tiles begin at an offset.
pub fn read_beside<R: Threads + Sync>(
    rt: &R,
    alloc: Global,
    file: &Arc<Vec<u8>>,
    first: usize,
    frame: Frame,
) -> Result<Vec<TileRef>, ReadRefusedOrMemory>
    requires { first < 2 ^ 33 }
    ensures { HasRead (arc_value file.now).items first frame result }
{
    let mut tiles = Vec::with_capacity(alloc, frame.rows() * frame.columns())?;
    let mut bands = new_bands(alloc, frame)?;
    fill_bands(rt, file, first, frame, bands.as_mut_slice());
    for band in bands {
        let BandRoom {
            tiles: mut own,
            outcome,
        } = band;
        outcome?;
        tiles.append(&mut own)?;
    }
    Ok(tiles)
}
