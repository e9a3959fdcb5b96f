//! Jobs: all that is needed to compose the picture of a tile later, beside edits.
ghost use Rattle.std.specs.Prelude.{◌≡◌, ◌+◌, ◌*◌, ◌≤◌, length, replicate, IfOk, vec_capacity};
ghost use Rattle.spec_document.specs.Over.{clear};
ghost use Rattle.xl_compose.specs.Job.{IsDone, planned};
ghost use Rattle.xl_compose.specs.JobScratch.{IsTile};
ghost use Rattle.xl_compose.specs.Pieces.{AllFit};

use crate::clean::Done;
use crate::laying::lay_pieces;
use crate::pieces::{Piece, Pile};
use crate::span::Band;
use crate::stacks::CLEAR;
use crate::tile::Picture;
use std::alloc::{AllocError, Global};
use std::marker::Model;
use std::sync::ledger::Ledger;
use xl_blend::{Pixel, Steps};
use xl_doc::{ColourMap, NodeId, TileAt};
use xl_tiles::SCRATCH;

/// The picture of a tile of a stack at a version, to be composed. It holds shares of the pixels that are to be laid
/// over one another, so that an edit changes nothing of it, and all the scratch that composing needs. The scratch is
/// taken but not written: a job is made while others wait for the document, and composed while they go on.
#[derive(Drop)]
pub struct Job {
    node: NodeId,
    at: TileAt,
    version: u32,
    band: Band,
    colours: ColourMap,
    pieces: Vec<Piece>,
    levels: u32,
    scratch: Vec<Pixel>,
    source: Vec<Pixel>,
    bytes: Vec<u8>,
    out: Picture,
}

impl Model for Job {
    ghost use Rattle.xl_compose.specs.Job as jobs;
    ghost use Rattle.std.specs.Prelude.{vec_capacity};
    ghost use Rattle.xl_compose.specs.JobScratch.{IsReady};

    ghost Value = { jobs.Job };

    ghost view = { λ j. jobs.planned j.node.0 j.at j.version j.colours j.band j.pieces.items };

    ghost invariant = { λ j. IsReady j.band j.levels j.pieces.items (vec_capacity j.scratch)
        (vec_capacity j.source) (vec_capacity j.bytes) };
}

// Memory for the pictures of so many levels, which nothing is written to.
fn take_pixels(alloc: Global, deep: u32, points: usize) -> Result<Vec<Pixel>, AllocError>
    requires deep { deep ≤ 10 }
    requires points { points ≤ 4096 }
    ensures { IfOk result (λ scratch. deep * points ≤ vec_capacity scratch) }
{
    Vec::with_capacity(alloc, deep as usize * points)
}

// Memory for the bytes of a layer and its mask at the points of a tile, and for a tile of theirs.
fn take_bytes(alloc: Global, width: u32) -> Result<Vec<u8>, AllocError>
    requires { width ≤ 64 }
    ensures { IfOk result (λ bytes. SCRATCH + 320 * width ≤ vec_capacity bytes) }
{
    Vec::with_capacity(alloc, SCRATCH + 320 * width as usize)
}

// Clear pixels for so many levels, in the memory that was taken.
fn clear_pixels(scratch: &mut Vec<Pixel>, deep: u32, points: usize)
    requires deep { deep ≤ 10 }
    requires points { points ≤ 4096 }
    requires taken { deep * points ≤ vec_capacity scratch.old }
    ensures { scratch.new.items ≡ replicate (deep * points) clear }
{
    scratch.clear();
    scratch.resize(deep as usize * points, CLEAR).unwrap();
}

// Any bytes, as many as a tile so wide needs, in the memory that was taken.
fn any_bytes(bytes: &mut Vec<u8>, width: u32)
    requires narrow { width ≤ 64 }
    requires taken { SCRATCH + 320 * width ≤ vec_capacity bytes.old }
    ensures { length bytes.new.items ≡ SCRATCH + 320 * width }
{
    bytes.resize(SCRATCH + 320 * width as usize, 0).unwrap();
}

impl Job {
    /// A job of a pile of pieces.
    pub(crate) fn new(
        alloc: Global,
        node: NodeId,
        at: TileAt,
        version: u32,
        colours: ColourMap,
        band: Band,
        pile: Pile,
    ) -> Result<Job, AllocError>
        requires tile { IsTile band }
        requires some { 1 ≤ pile.levels }
        requires deep { pile.levels ≤ 10 }
        requires fit { AllFit pile.levels band pile.pieces.items }
        ensures { IfOk result
            (λ job. job ≡ planned node.0 at version colours band pile.pieces.items) }
    {
        let Pile { pieces, levels } = pile;
        let points = band.h as usize * band.w as usize;
        let scratch = take_pixels(alloc, levels, points)?;
        let source = take_pixels(alloc, 1, points)?;
        let bytes = take_bytes(alloc, band.w)?;
        let out = Picture::blank(alloc)?;
        Ok(Job {
            node,
            at,
            version,
            band,
            colours,
            pieces,
            levels,
            scratch,
            source,
            bytes,
            out,
        })
    }

    /// The stack whose picture it gives.
    pub fn node(&self) -> NodeId
        ensures { result.0 ≡ self.now.stack }
    {
        self.node
    }

    /// The tile.
    pub fn at(&self) -> TileAt
        ensures { result ≡ self.now.at }
    {
        self.at
    }

    /// The version of the document.
    pub fn version(&self) -> u32
        ensures { result ≡ self.now.version }
    {
        self.version
    }
}

/// The picture of the job. It takes no memory, and no more steps than the job tells.
pub fn compose<L: Ledger>(job: Job, steps: &mut Steps<L>) -> Done
    ensures done { IsDone job result }
    ensures cost { steps.new ≤ steps.old + job.cost }
{
    let Job {
        node,
        at,
        version,
        band,
        colours,
        pieces,
        levels,
        mut scratch,
        mut source,
        mut bytes,
        mut out,
    } = job;
    let points = band.h as usize * band.w as usize;
    clear_pixels(&mut scratch, levels, points);
    clear_pixels(&mut source, 1, points);
    any_bytes(&mut bytes, band.w);
    let pictures = scratch.as_mut_slice();
    lay_pieces(
        colours.as_slice(),
        pieces.as_slice(),
        band,
        pictures,
        source.as_mut_slice(),
        bytes.as_mut_slice(),
        steps,
    );
    out.set_pixels(&pictures[..points]);
    Done {
        node,
        at,
        version,
        picture: out,
    }
}
