//! Showing tiles.
ghost use Rattle.std.specs.Prelude.{◌≡◌, ◌+◌, ◌≤◌, true, false, is_some, IfSome, IsSome, IsTrue, OnOk, OnErr};
ghost use Rattle.spec_cache.specs.Cache.{clean_tile, is_clean, kept, change_stack};
ghost use Rattle.spec_cache.specs.Slots.{change_slot};
ghost use Rattle.spec_document.specs.Forest.{stack_at};
ghost use Rattle.spec_document.specs.Grid.{is_on_grid};
ghost use Rattle.spec_history.specs.Machine.{has_stack as document_has_stack};
ghost use Rattle.spec_document.specs.Picture.{project};
ghost use Rattle.spec_world.specs.Events.{peek_reply, show_slot};
ghost use Rattle.xl_desk.specs.TileJobs.{is_marked};
ghost use Rattle.xl_desk.specs.Needs.{tile_cost};
ghost use Rattle.spec_standing.specs.Now.{IsKept, KeepsDesk, ShowsKept};
ghost use Rattle.xl_calls.specs.Replies.{reply_of};

use std::alloc::{AllocError, Global};
use std::sync::ledger::Ledger;
use xl_blend::Steps;
use xl_cache::Cache;
use xl_calls::Reply;
use xl_compose::{CleanTiles, Picture, compose, job};
use xl_doc::{Document, NodeId, TileAt};
use xl_grid::grid;

/// Whether the document has this stack.
pub fn has_stack(document: &Document, node: NodeId) -> bool
    ensures { result ≡ document_has_stack document.now node.0 }
{
    document.tree.stack(node).is_some()
}

/// Whether the canvas has this tile.
pub fn has_tile(document: &Document, at: TileAt) -> bool
    ensures { result ≡ is_on_grid document.now.width document.now.height at }
{
    let (columns, rows) = grid(document.width, document.height);
    at.col < columns && at.row < rows
}

/// Whether the document has the stack, the canvas the tile, and the slot of that is marked.
pub fn is_tile_marked(document: &Document, cache: &Cache, node: NodeId, at: TileAt) -> bool
    ensures { result ≡ is_marked document.now cache.now node.0 at }
{
    has_stack(document, node) && has_tile(document, at) && !cache.clean(node, at)
}

// Copies the picture of a clean slot. Whether there is one.
fn copy_clean(cache: &Cache, node: NodeId, at: TileAt, out: &mut Picture) -> bool
    ensures found { result ≡ is_some (clean_tile cache.now node.0 at) }
    ensures copied { IfSome (clean_tile cache.now node.0 at) (λ bytes. out.new ≡ bytes) }
    ensures as_before { result ≡ false → out.new ≡ out.old }
{
    match cache.clean_tile(node, at) {
        None => false,
        Some(picture) => {
            out.copy_from(picture);
            true
        }
    }
}

/// Leaves the picture of a tile in `out`. Where its slot is marked the picture is composed once, and kept. After out of
/// memory all is as before.
pub fn show<L: Ledger>(
    alloc: Global,
    document: &Document,
    cache: &mut Cache,
    tile: (NodeId, TileAt),
    version: u32,
    out: &mut Picture,
    steps: &mut Steps<L>,
) -> Result<(), AllocError>
    requires kept { IsKept document.now cache.old version }
    requires stack { IsSome (stack_at tile.0.0 document.now.nodes) }
    requires on_grid { IsTrue (is_on_grid document.now.width document.now.height tile.1) }
    ensures picture { OnOk result (out.new ≡ project document.now tile.0.0 tile.1) }
    ensures cache { OnOk result (cache.new ≡ change_stack tile.0.0
        (change_slot tile.1 (show_slot (project document.now tile.0.0 tile.1))) cache.old) }
    ensures steps { is_clean cache.old tile.0.0 tile.1 ≡ true → steps.new ≡ steps.old }
    ensures cost { steps.new ≤ steps.old + tile_cost cache.old document.now tile.0.0 tile.1 }
    ensures steps_as_before { OnErr result (steps.new ≡ steps.old) }
    ensures as_before { OnErr result (cache.new ≡ cache.old) }
    ensures out_as_before { OnErr result (out.new ≡ out.old) }
{
    let (node, at) = tile;
    if copy_clean(cache, node, at, out) {
        return Ok(());
    }
    let job = job(alloc, document, node, at, version, cache)?;
    let done = compose(job, steps);
    out.copy_from(&done.picture);
    cache.install(done);
    Ok(())
}

/// Leaves the picture that is kept of a tile in `out`, where it is as late as what was seen.
pub fn look(
    cache: &Cache,
    node: NodeId,
    at: TileAt,
    latest: u32,
    seen: u32,
    out: &mut Picture,
) -> Reply
    ensures says { reply_of result ≡ peek_reply (kept cache.now node.0 at latest) seen }
    ensures shown { ShowsKept (kept cache.now node.0 at latest) (reply_of result) out.new }
    ensures desk { KeepsDesk (reply_of result) out.old out.new }
{
    match cache.kept(node, at, latest) {
        None => Reply::Stale { have: None, seen },
        Some((version, _)) if version < seen => Reply::Stale {
            have: Some(version),
            seen,
        },
        Some((version, picture)) => {
            out.copy_from(picture);
            Reply::Tile { version }
        }
    }
}
