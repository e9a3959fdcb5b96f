//! The pixels of the flat layer, tile by tile.
ghost use Rattle.std.specs.Prelude.{◌≡◌, ◌+◌, ◌-◌, ◌*◌, ◌<◌, ◌≤◌, length, min, IfOk, OnOk, IsTrue};
ghost use Rattle.spec_document.specs.Document.{bytes_of_kind, picture_kind};
ghost use Rattle.spec_document.specs.Grid as tiles;
ghost use Rattle.spec_document.specs.Picture.{project};
ghost use Rattle.spec_flat.specs.Flattened.{flat_layer};
ghost use Rattle.spec_hierarchy.specs.Tiles.{tile_bytes};
ghost use Rattle.xl_compose.specs.Cost.{tile_points, visible_below};
ghost use Rattle.xl_compose.specs.Depth.{levels_below};
ghost use Rattle.xl_flat.specs.Flattening.{AreFlatTiles};

use std::alloc::{AllocError, Global};
use std::sync::ledger::Ledger;
use xl_blend::Steps;
use xl_compose::Composer;
use xl_doc::{
    Document, MAX_SIDE, NodeId, Plane, TileAt, bytes_of_kind, picture_kind, pixels_of_base,
};
use xl_grid::{TILE_SIDE, grid, tile_rect};
use xl_tiles::{SCRATCH, TileRef};

// The picture of the image at the points of a tile: RGBA bytes.
fn tile_picture<L: Ledger>(
    alloc: Global,
    doc: &Document,
    at: TileAt,
    composer: &mut Composer,
    steps: &mut Steps<L>,
) -> Result<Vec<u8>, AllocError>
    requires on_grid { IsTrue (tiles.is_on_grid doc.now.width doc.now.height at) }
    requires wide { TILE_SIDE ≤ composer.old.width }
    requires deep { levels_below doc.now 0 ≤ composer.old.levels }
    ensures same { composer.new ≡ composer.old }
    ensures picture { IfOk result (λ out. out.items ≡ project doc.now 0 at) }
    ensures cost { steps.new ≤ steps.old + visible_below doc.now 0 * tile_points doc.now at }
{
    prove!(doc.width <= MAX_SIDE);
    prove!(doc.height <= MAX_SIDE);
    let rect = tile_rect(doc.width, doc.height, at);
    let mut out = vec![in alloc; 0; 4 * (rect.w as usize * rect.h as usize)]?;
    composer.compose(doc, NodeId(0), rect, out.as_mut_slice(), steps);
    Ok(out)
}

// The bytes of a tile of the layer.
fn layer_bytes<L: Ledger>(
    alloc: Global,
    doc: &Document,
    at: TileAt,
    composer: &mut Composer,
    steps: &mut Steps<L>,
) -> Result<Vec<u8>, AllocError>
    requires on_grid { IsTrue (tiles.is_on_grid doc.now.width doc.now.height at) }
    requires wide { TILE_SIDE ≤ composer.old.width }
    requires deep { levels_below doc.now 0 ≤ composer.old.levels }
    ensures same { composer.new ≡ composer.old }
    ensures bytes { IfOk result (λ own. own.items ≡ tile_bytes (flat_layer doc.now).plane at) }
    ensures cost { steps.new ≤ steps.old + visible_below doc.now 0 * tile_points doc.now at }
{
    let rgba = tile_picture(alloc, doc, at, composer, steps)?;
    pixels_of_base(alloc, doc.base, rgba)
}

// The bytes of a pixel of the layer.
fn layer_bpp(doc: &Document) -> u32
    ensures value { result ≡ bytes_of_kind (picture_kind doc.now.base) }
    ensures some { 1 ≤ result }
    ensures few { result ≤ 4 }
{
    bytes_of_kind(picture_kind(doc.base))
}

// How many points a tile has.
fn points_of(doc: &Document, at: TileAt) -> usize
    requires on_grid { IsTrue (tiles.is_on_grid doc.now.width doc.now.height at) }
    ensures value { result ≡ tile_points doc.now at }
    ensures some { 1 ≤ result }
    ensures few { result ≤ 4096 }
{
    prove!(doc.width <= MAX_SIDE);
    prove!(doc.height <= MAX_SIDE);
    let rect = tile_rect(doc.width, doc.height, at);
    rect.w as usize * rect.h as usize
}

// The tile of n pixels that has these bytes: a share of the one before it, where that has the same.
fn shared_or_own(
    alloc: Global,
    before: Option<&TileRef>,
    bytes: Vec<u8>,
    n: usize,
    bpp: usize,
    scratch: &mut [u8],
) -> Result<TileRef, AllocError>
    requires some { 1 ≤ n }
    requires few { n ≤ 4096 }
    requires some_bytes { 1 ≤ bpp }
    requires few_bytes { bpp ≤ 4 }
    requires full { length bytes.items ≡ n * bpp }
    requires scratch { length scratch.old ≡ SCRATCH }
    ensures { IfOk result (λ t. t ≡ bytes.items) }
{
    if let Some(tile) = before {
        if tile.bytes(scratch) == bytes.as_slice() {
            return tile.share();
        }
    }
    TileRef::of_bytes(alloc, bytes, n, bpp)
}

// A tile of the layer.
fn layer_tile<L: Ledger>(
    alloc: Global,
    doc: &Document,
    at: TileAt,
    before: Option<&TileRef>,
    composer: &mut Composer,
    scratch: &mut [u8],
    steps: &mut Steps<L>,
) -> Result<TileRef, AllocError>
    requires on_grid { IsTrue (tiles.is_on_grid doc.now.width doc.now.height at) }
    requires wide { TILE_SIDE ≤ composer.old.width }
    requires deep { levels_below doc.now 0 ≤ composer.old.levels }
    requires scratch { length scratch.old ≡ SCRATCH }
    ensures same { composer.new ≡ composer.old }
    ensures tile { IfOk result (λ t. t ≡ tile_bytes (flat_layer doc.now).plane at) }
    ensures cost { steps.new ≤ steps.old + visible_below doc.now 0 * tile_points doc.now at }
{
    let bytes = layer_bytes(alloc, doc, at, composer, steps)?;
    let n = points_of(doc, at);
    let bpp = layer_bpp(doc) as usize;
    shared_or_own(alloc, before, bytes, n, bpp, scratch)
}

// Adds the tiles of a row of tiles to those before it.
fn add_row<L: Ledger>(
    alloc: Global,
    doc: &Document,
    row: u32,
    made: &mut Vec<TileRef>,
    composer: &mut Composer,
    scratch: &mut [u8],
    steps: &mut Steps<L>,
) -> Result<(), AllocError>
    requires row { row < tiles.tiles_along doc.now.height }
    requires wide { TILE_SIDE ≤ composer.old.width }
    requires deep { levels_below doc.now 0 ≤ composer.old.levels }
    requires scratch { length scratch.old ≡ SCRATCH }
    requires before { AreFlatTiles doc.now (row * tiles.tiles_along doc.now.width) made.old.items }
    ensures same { composer.new ≡ composer.old }
    ensures tiles { OnOk result (AreFlatTiles doc.now ((row + 1) * tiles.tiles_along doc.now.width)
        made.new.items) }
    ensures cost { steps.new ≤ steps.old + visible_below doc.now 0
        * (min 64 (doc.now.height - 64 * row) * doc.now.width) }
{
    for col in 0..grid(doc.width, doc.height).0 {
        let at = TileAt { col, row };
        let tile = layer_tile(alloc, doc, at, made.last(), composer, scratch, steps)?;
        // Asked for its clause that these are bytes.
        tile.len();
        made.push(tile)?;
    }
    Ok(())
}

// The tiles of the layer, row by row. Where one has the bytes of the one before it, both share them.
fn layer_tiles<L: Ledger>(
    alloc: Global,
    doc: &Document,
    composer: &mut Composer,
    scratch: &mut [u8],
    steps: &mut Steps<L>,
) -> Result<Vec<TileRef>, AllocError>
    requires wide { TILE_SIDE ≤ composer.old.width }
    requires deep { levels_below doc.now 0 ≤ composer.old.levels }
    requires scratch { length scratch.old ≡ SCRATCH }
    ensures tiles { IfOk result (λ made. AreFlatTiles doc.now
        (tiles.tiles_along doc.now.width * tiles.tiles_along doc.now.height) made.items) }
    ensures cost { steps.new ≤ steps.old + visible_below doc.now 0
        * (doc.now.width * doc.now.height) }
{
    let mut made = Vec::new(alloc);
    for row in 0..grid(doc.width, doc.height).1 {
        add_row(alloc, doc, row, &mut made, composer, scratch, steps)?;
    }
    Ok(made)
}

/// The pixels of the layer that shows the image: RGBA, or red and alpha in a grey image. No more of the picture than a
/// tile is composed at a time, and tiles that follow one another with the same bytes share them. It takes at most one
/// step for each pixel of the canvas and each visible node.
pub(crate) fn layer_plane<L: Ledger>(
    alloc: Global,
    doc: &Document,
    steps: &mut Steps<L>,
) -> Result<Plane, AllocError>
    ensures plane { IfOk result (λ plane. plane ≡ (flat_layer doc.now).plane) }
    ensures cost { steps.new ≤ steps.old + visible_below doc.now 0
        * (doc.now.width * doc.now.height) }
{
    let mut composer = Composer::new(alloc, doc, NodeId(0), TILE_SIDE)?;
    let mut scratch = vec![in alloc; 0; SCRATCH]?;
    let made = layer_tiles(alloc, doc, &mut composer, scratch.as_mut_slice(), steps)?;
    Plane::of_tiles(alloc, doc.width, doc.height, layer_bpp(doc), made)
}
