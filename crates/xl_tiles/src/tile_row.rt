ghost use Rattle.std.specs.Prelude.{◌≡◌, ◌<◌, [], length, slice_index_or, slice_set, IfOk, OnOk, IfErr, OnErr};
ghost use Rattle.spec_document.specs.Limits.{AreBytes};

use std::alloc::{AllocError, AllocFailed, Global};
use std::marker::Model;
use std::sync::Arc;
use xl_tile::TileRef;

/// The tiles of a row, which several tables may hold.
#[derive(Drop)]
pub struct TileRow {
    tiles: Arc<Vec<TileRef>>,
}

impl Model for TileRow {
    ghost use Rattle.std.specs.Prelude.{List, ℕ};
    ghost use Rattle.std.specs.Arc.{arc_value};

    ghost Value = { List (List ℕ) };

    ghost view = { λ r. (arc_value r.tiles).items };
}

impl TileRow {
    /// The row of these tiles, each of which it shares.
    pub fn of_tiles(alloc: Global, tiles: &[TileRef]) -> Result<TileRow, AllocError>
        ensures { IfOk result (λ r. r ≡ tiles.now) }
    {
        let own = shared_items(alloc, tiles)?;
        Ok(TileRow {
            tiles: Arc::new(alloc, own)?,
        })
    }

    /// The same row: one count.
    pub fn share(&self) -> Result<TileRow, AllocError>
        ensures { IfOk result (λ r. r ≡ self.now) }
    {
        Ok(TileRow {
            tiles: Arc::try_clone(&self.tiles)?,
        })
    }

    /// The tile of a column.
    pub fn at(&self, col: usize) -> &TileRef
        requires { col < length self.now }
        ensures { result.now ≡ slice_index_or self.now col [] }
    {
        tile_at(self.tiles.as_slice(), col)
    }

    /// Exchanges the tile of a column, in a copy of the row where others hold it. Without memory for the copy the tile
    /// is handed back.
    pub fn replace(
        &mut self,
        alloc: Global,
        col: usize,
        tile: TileRef,
    ) -> Result<TileRef, AllocFailed<TileRef>>
        requires { col < length self.old }
        ensures result { IfOk result (λ t. t ≡ slice_index_or self.old col []) }
        ensures after { OnOk result (self.new ≡ slice_set self.old col tile) }
        ensures back { IfErr result (λ failed. failed.value ≡ tile) }
        ensures err { OnErr result (self.new ≡ self.old) }
        ensures bytes { AreBytes tile }
    {
        // Asked for its clause that these are bytes.
        tile.len();
        match Arc::get_mut(&mut self.tiles) {
            Some(own) => Ok(replace_item(own, col, tile)),
            None => self.replace_in_copy(alloc, col, tile),
        }
    }

    // Exchanges the tile of a column in a copy of the row.
    fn replace_in_copy(
        &mut self,
        alloc: Global,
        col: usize,
        tile: TileRef,
    ) -> Result<TileRef, AllocFailed<TileRef>>
        requires { col < length self.old }
        ensures result { IfOk result (λ t. t ≡ slice_index_or self.old col []) }
        ensures after { OnOk result (self.new ≡ slice_set self.old col tile) }
        ensures back { IfErr result (λ failed. failed.value ≡ tile) }
        ensures err { OnErr result (self.new ≡ self.old) }
    {
        let mut own = match shared_items(alloc, self.tiles.as_slice()) {
            Ok(own) => own,
            Err(_) => return Err(AllocFailed { value: tile }),
        };
        let old = replace_item(&mut own, col, tile);
        match Arc::new(alloc, own) {
            Ok(tiles) => {
                self.tiles = tiles;
                Ok(old)
            }
            Err(failed) => {
                let mut own = failed.value;
                Err(AllocFailed {
                    value: replace_item(&mut own, col, old),
                })
            }
        }
    }
}

// The tile at a place.
fn tile_at(tiles: &[TileRef], at: usize) -> &TileRef
    requires { at < length tiles.now }
    ensures { result.now ≡ slice_index_or tiles.now at [] }
{
    &tiles[at]
}

// The same tiles, each shared.
fn shared_items(alloc: Global, tiles: &[TileRef]) -> Result<Vec<TileRef>, AllocError>
    ensures { IfOk result (λ own. own.items ≡ tiles.now) }
{
    let mut own = Vec::with_capacity(alloc, tiles.len())?;
    for tile in tiles {
        own.push(tile.share()?)?;
    }
    Ok(own)
}

// Exchanges a tile of a list.
fn replace_item(tiles: &mut [TileRef], at: usize, tile: TileRef) -> TileRef
    requires { at < length tiles.old }
    ensures result { result ≡ slice_index_or tiles.old at [] }
    ensures after { tiles.new ≡ slice_set tiles.old at tile }
    ensures bytes { AreBytes tile }
{
    // Asked for its clause that these are bytes.
    tile.len();
    std::mem::replace(&mut tiles[at], tile)
}
