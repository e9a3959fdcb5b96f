ghost use Rattle.std.specs.Prelude.{◌≡◌, ◌<◌, [], length, slice_index_or, slice_set, IfOk, OnOk, IfErr, OnErr, flat_map};
ghost use Rattle.xl_tiles.specs.TileRows.{AreRows};
ghost use Rattle.spec_document.specs.Limits.{AreBytes};

use crate::tile_row::TileRow;
use std::alloc::{AllocError, AllocFailed, Global};
use std::marker::Model;
use std::sync::Arc;
use xl_tile::TileRef;

/// The rows of a table of tiles, which several tables may hold.
#[derive(Drop)]
pub struct RowList {
    rows: Arc<Vec<TileRow>>,
}

impl Model for RowList {
    ghost use Rattle.std.specs.Prelude.{List, ℕ};
    ghost use Rattle.std.specs.Arc.{arc_value};

    ghost Value = { List (List (List ℕ)) };

    ghost view = { λ r. (arc_value r.rows).items };
}

impl RowList {
    /// The list of these rows.
    pub fn of_rows(alloc: Global, rows: Vec<TileRow>) -> Result<RowList, AllocError>
        ensures { IfOk result (λ r. r ≡ rows.items) }
    {
        Ok(RowList {
            rows: Arc::new(alloc, rows)?,
        })
    }

    /// The same rows: one count.
    pub fn share(&self) -> Result<RowList, AllocError>
        ensures { IfOk result (λ r. r ≡ self.now) }
    {
        Ok(RowList {
            rows: Arc::try_clone(&self.rows)?,
        })
    }

    /// The rows.
    pub fn as_slice(&self) -> &[TileRow]
        ensures { result.now ≡ self.now }
    {
        self.rows.as_slice()
    }

    /// Exchanges the tile at a place of rows of so many tiles, in a copy of the list where others hold it. Without memory
    /// for that the tile is handed back.
    pub fn replace(
        &mut self,
        alloc: Global,
        columns: usize,
        i: usize,
        tile: TileRef,
    ) -> Result<TileRef, AllocFailed<TileRef>>
        requires rows { AreRows columns self.old }
        requires place { i < length (flat_map (λ row. row) self.old) }
        ensures rows { AreRows columns self.new }
        ensures result { IfOk result (λ t. t ≡ slice_index_or (flat_map (λ row. row) self.old) i []) }
        ensures after { OnOk result (flat_map (λ row. row) self.new ≡ slice_set
            (flat_map (λ row. row) self.old) i tile) }
        ensures back { IfErr result (λ failed. failed.value ≡ tile) }
        ensures err { OnErr result (flat_map (λ row. row) self.new ≡ flat_map (λ row. row)
            self.old) }
        ensures bytes { AreBytes tile }
    {
        match Arc::get_mut(&mut self.rows) {
            Some(own) => replace_in_rows(alloc, own, columns, i, tile),
            None => self.replace_in_copy(alloc, columns, i, tile),
        }
    }

    // Exchanges the tile at a place in a copy of the list, which shares the other rows. A second handle of the tile is
    // there to be handed back where the copy, which has the tile by then, cannot be kept.
    fn replace_in_copy(
        &mut self,
        alloc: Global,
        columns: usize,
        i: usize,
        tile: TileRef,
    ) -> Result<TileRef, AllocFailed<TileRef>>
        requires rows { AreRows columns self.old }
        requires place { i < length (flat_map (λ row. row) self.old) }
        ensures rows { AreRows columns self.new }
        ensures result { IfOk result (λ t. t ≡ slice_index_or (flat_map (λ row. row) self.old) i []) }
        ensures after { OnOk result (flat_map (λ row. row) self.new ≡ slice_set
            (flat_map (λ row. row) self.old) i tile) }
        ensures back { IfErr result (λ failed. failed.value ≡ tile) }
        ensures err { OnErr result (self.new ≡ self.old) }
        ensures bytes { AreBytes tile }
    {
        // Asked for its clause that these are bytes.
        tile.len();
        let (mut own, spare) = match (shared_rows(alloc, self.rows.as_slice()), tile.share()) {
            (Ok(own), Ok(spare)) => (own, spare),
            _ => return Err(AllocFailed { value: tile }),
        };
        let old = replace_in_rows(alloc, &mut own, columns, i, tile)?;
        match Arc::new(alloc, own) {
            Ok(rows) => {
                self.rows = rows;
                Ok(old)
            }
            Err(_) => Err(AllocFailed { value: spare }),
        }
    }
}

// The same rows, each shared.
fn shared_rows(alloc: Global, rows: &[TileRow]) -> Result<Vec<TileRow>, AllocError>
    ensures { IfOk result (λ own. own.items ≡ rows.now) }
{
    let mut own = Vec::with_capacity(alloc, rows.len())?;
    for row in rows {
        own.push(row.share()?)?;
    }
    Ok(own)
}

// The row at a place.
fn row_at(rows: &[TileRow], row: usize) -> &TileRow
    requires { row < length rows.now }
    ensures { result.now ≡ slice_index_or rows.now row [] }
{
    &rows[row]
}

/// The tile at a place of rows of so many tiles.
pub fn tile_in_rows(rows: &[TileRow], columns: usize, i: usize) -> &TileRef
    requires rows { AreRows columns rows.now }
    requires place { i < length (flat_map (λ row. row) rows.now) }
    ensures { result.now ≡ slice_index_or (flat_map (λ row. row) rows.now) i [] }
{
    row_at(rows, i / columns).at(i % columns)
}

// Exchanges the tile of a row and a column.
fn replace_in_row(
    alloc: Global,
    rows: &mut Vec<TileRow>,
    row: usize,
    col: usize,
    tile: TileRef,
) -> Result<TileRef, AllocFailed<TileRef>>
    requires row { row < length rows.old.items }
    requires col { col < length (slice_index_or rows.old.items row []) }
    ensures result { IfOk result (λ t. t ≡ slice_index_or (slice_index_or rows.old.items row []) col
        []) }
    ensures after { OnOk result (rows.new.items ≡ slice_set rows.old.items row
        (slice_set (slice_index_or rows.old.items row []) col tile)) }
    ensures back { IfErr result (λ failed. failed.value ≡ tile) }
    ensures err { OnErr result (rows.new.items ≡ rows.old.items) }
    ensures bytes { AreBytes tile }
{
    rows[row].replace(alloc, col, tile)
}

// Exchanges the tile at a place of rows of so many tiles.
fn replace_in_rows(
    alloc: Global,
    rows: &mut Vec<TileRow>,
    columns: usize,
    i: usize,
    tile: TileRef,
) -> Result<TileRef, AllocFailed<TileRef>>
    requires rows { AreRows columns rows.old.items }
    requires place { i < length (flat_map (λ row. row) rows.old.items) }
    ensures rows { AreRows columns rows.new.items }
    ensures result { IfOk result (λ t. t ≡ slice_index_or (flat_map (λ row. row) rows.old.items) i
        []) }
    ensures after { OnOk result (flat_map (λ row. row) rows.new.items ≡ slice_set
        (flat_map (λ row. row) rows.old.items) i tile) }
    ensures back { IfErr result (λ failed. failed.value ≡ tile) }
    ensures err { OnErr result (flat_map (λ row. row) rows.new.items ≡ flat_map (λ row. row)
        rows.old.items) }
    ensures bytes { AreBytes tile }
{
    replace_in_row(alloc, rows, i / columns, i % columns, tile)
}
