//! Making jobs.
ghost use Rattle.std.specs.Prelude.{◌≡◌, ◌+◌, ◌*◌, ◌≤◌, IfOk, IsSome, IsTrue};
ghost use Rattle.spec_document.specs.Forest.{stack_at};
ghost use Rattle.spec_document.specs.Grid.{is_on_grid};
ghost use Rattle.xl_compose.specs.Cost.{laid_below, tile_points};
ghost use Rattle.xl_compose.specs.Job.{AreClean, StandsFor};
ghost use Rattle.xl_compose.specs.JobScratch.{AreFor, IsTile, tile_band};
ghost use Rattle.xl_compose.specs.Pieces.{weights};

use crate::adding::add_stack;
use crate::clean::CleanTiles;
use crate::pieces::Pile;
use crate::planned::Job;
use crate::span::Band;
use std::alloc::{AllocError, Global};
use xl_doc::{Document, MAX_SIDE, NodeId, TileAt};
use xl_grid::tile_rect;

// The points of a tile.
fn band_of(doc: &Document, at: TileAt) -> Band
    requires on_grid { IsTrue (is_on_grid doc.now.width doc.now.height at) }
    ensures tile { IsTile result }
    ensures is { result ≡ tile_band doc.now at }
{
    prove!(doc.width <= MAX_SIDE);
    prove!(doc.height <= MAX_SIDE);
    let rect = tile_rect(doc.width, doc.height, at);
    Band {
        x: 64 * at.col,
        y: 64 * at.row,
        w: rect.w,
        h: rect.h,
    }
}

// The pieces of a stack.
fn pieces_of<K: CleanTiles>(
    alloc: Global,
    doc: &Document,
    node: NodeId,
    at: TileAt,
    clean: &K,
) -> Result<Pile, AllocError>
    requires stack { IsSome (stack_at node.0 doc.now.nodes) }
    requires clean { AreClean (K.clean_tile clean.now) doc.now at }
    ensures some { IfOk result (λ pile. 1 ≤ pile.levels) }
    ensures few { IfOk result (λ pile. pile.levels ≤ 10) }
    ensures made { IfOk result (λ pile. AreFor pile.levels doc.now node.0 at pile.pieces.items) }
    ensures cost { IfOk result (λ pile. weights pile.pieces.items
        ≡ laid_below (λ id. K.clean_tile clean.now id at) doc.now node.0) }
{
    let nodes = doc.tree.stack(node).unwrap();
    let levels = nodes.levels() + 2;
    let mut pieces = Vec::new(alloc);
    add_stack(alloc, nodes, 0, at, clean, &mut pieces)?;
    Ok(Pile { pieces, levels })
}

/// A job for a tile of a stack of a document. Where `clean` has the picture of a group below the stack, it is taken as
/// it is: the group is one node then, and those in it take no step.
pub fn job<K: CleanTiles>(
    alloc: Global,
    doc: &Document,
    node: NodeId,
    at: TileAt,
    version: u32,
    clean: &K,
) -> Result<Job, AllocError>
    requires stack { IsSome (stack_at node.0 doc.now.nodes) }
    requires on_grid { IsTrue (is_on_grid doc.now.width doc.now.height at) }
    requires clean { AreClean (K.clean_tile clean.now) doc.now at }
    ensures stands { IfOk result (λ job. StandsFor doc.now node.0 at version job) }
    ensures cost { IfOk result (λ job. job.cost
        ≡ laid_below (λ id. K.clean_tile clean.now id at) doc.now node.0 * tile_points doc.now at) }
{
    let band = band_of(doc, at);
    let pile = pieces_of(alloc, doc, node, at, clean)?;
    let colours = doc.colours.share(alloc)?;
    Job::new(alloc, node, at, version, colours, band, pile)
}
