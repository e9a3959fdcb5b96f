//! The picture of a stack over a rectangle of the canvas.
ghost use Rattle.std.specs.Prelude.{◌≡◌, ◌+◌, ◌*◌, ◌<◌, ◌≤◌, ◌≤ℤ◌, pos, ℕ, length, IfOk, OnOk, OnErr, IsSome};
ghost use Rattle.spec_document.specs.Forest.{levels, stack_at};
ghost use Rattle.spec_document.specs.declared.TheConstants.{MAX_DEPTH};
ghost use Rattle.spec_document.specs.Rect.{part_above_0};
ghost use Rattle.spec_document.specs.Picture.{picture_bytes};
ghost use Rattle.xl_doc.specs.Canvas.{IsInside};
ghost use Rattle.xl_doc.specs.Nodes.{MarksAgree, nodes_of};
ghost use Rattle.xl_compose.specs.Cost.{visible_in, visible_below};
ghost use Rattle.xl_compose.specs.Depth.{levels_below};
ghost use Rattle.xl_compose.specs.Rows.{ShowsBand};

use crate::bytes::write_row;
use crate::span::Band;
use crate::stacks::{CLEAR, lay_stack};
use std::alloc::{AllocError, Global};
use std::marker::Model;
use std::sync::ledger::Ledger;
use xl_blend::{Pixel, Steps};
use xl_doc::{Document, MAX_SIDE, Node, NodeId, Rect};
use xl_tiles::SCRATCH;
use xl_tree::Stack;

// A coordinate on the canvas.
fn natural(at: i32) -> u32
    requires { pos 0 ≤ℤ at }
    ensures { result ≡ part_above_0 at }
{
    at as u32
}

// The picture of a stack over a band, as bytes. There is room for the pictures of the stack and of each of its levels.
fn compose_band<L: Ledger>(
    colours: &[[u8; 3]],
    nodes: Stack<'_, Node>,
    band: Band,
    pictures: &mut [Pixel],
    bytes: &mut [u8],
    out: &mut [u8],
    steps: &mut Steps<L>,
)
    requires agree { MarksAgree nodes }
    requires right { band.x + band.w ≤ MAX_SIDE }
    requires below { band.y + band.h ≤ MAX_SIDE }
    requires high { band.h ≤ 64 }
    requires some { 1 ≤ band.h }
    requires pictures { 64 * band.w + 64 * (levels nodes * band.w) ≤ length pictures.old }
    requires bytes { SCRATCH + 320 * band.w ≤ length bytes.old }
    requires out { length out.old ≡ 4 * (band.h * band.w) }
    ensures length { length out.new ≡ 4 * (band.h * band.w) }
    ensures shows { ShowsBand colours.now (nodes_of nodes.entry) band out.new }
    ensures cost { steps.new ≤ steps.old + visible_in (nodes_of nodes.entry) * (band.h * band.w) }
{
    let (picture, scratch) = pictures.split_at_mut(band.h as usize * band.w as usize);
    lay_stack(colours, nodes, band, picture, scratch, bytes, steps);
    write_row(picture, out);
}

// The picture of a stack, a band after another.
fn compose_bands<L: Ledger>(
    doc: &Document,
    stack: NodeId,
    rect: Rect,
    pictures: &mut [Pixel],
    bytes: &mut [u8],
    out: &mut [u8],
    steps: &mut Steps<L>,
)
    requires stack { IsSome (stack_at stack.0 doc.now.nodes) }
    requires inside { IsInside doc.now.width doc.now.height rect }
    requires pictures { 64 * rect.w + 64 * (levels_below doc.now stack.0 * rect.w) ≤ length pictures.old }
    requires bytes { SCRATCH + 320 * rect.w ≤ length bytes.old }
    requires out { length out.old ≡ 4 * (rect.w * rect.h) }
    ensures picture { out.new ≡ picture_bytes doc.now stack.0 (part_above_0 rect.x)
        (part_above_0 rect.y) rect.w rect.h }
    ensures cost { steps.new ≤ steps.old + visible_below doc.now stack.0 * (rect.w * rect.h) }
{
    prove!(doc.height <= MAX_SIDE);
    let x = natural(rect.x);
    let y = natural(rect.y);
    let size = 4 * rect.w as usize;
    let nodes = doc.tree.stack(stack).unwrap();
    let colours = doc.colours.as_slice();
    for b in 0..(rect.h + 63) / 64 {
        let top = 64 * b;
        let band = Band {
            x,
            y: y + top,
            w: rect.w,
            h: (rect.h - top).min(64),
        };
        let start = top as usize * size;
        let part = &mut out[start..start + band.h as usize * size];
        compose_band(colours, nodes.again(), band, pictures, bytes, part, steps);
    }
}

// How many levels a stack of a document has.
fn levels_of(doc: &Document, stack: NodeId) -> u32
    requires stack { IsSome (stack_at stack.0 doc.now.nodes) }
    ensures levels { result ≡ levels_below doc.now stack.0 }
    ensures low { result ≤ MAX_DEPTH }
{
    doc.tree.stack(stack).unwrap().levels()
}

/// Room for composing pictures in bands of 64 rows. It is taken once, and composing takes none. Contracts see the
/// longest row, in pixels, and the most levels.
#[derive(Drop)]
pub struct Composer {
    width: u32,
    levels: u32,
    pictures: Vec<Pixel>,
    bytes: Vec<u8>,
}

impl Model for Composer {
    ghost use Rattle.std.specs.Prelude.{◌≡◌, ◌+◌, ◌*◌, vec_len};
    ghost use Rattle.xl_compose.specs.Depth.{Reach};
    ghost use Rattle.xl_tile.specs.declared.tile.TheConstants.{SCRATCH};

    ghost Value = { Reach };

    ghost view = { λ c. record { width = c.width; levels = c.levels } };

    ghost invariant = { λ c. (vec_len c.pictures ≡ 64 * c.width + 64 * (c.levels * c.width)) × (vec_len c.bytes ≡ SCRATCH + 320 * c.width) };
}

impl Composer {
    /// Room for rows of at most `width` pixels, of a stack as deep as that of a document.
    pub fn new(
        alloc: Global,
        doc: &Document,
        stack: NodeId,
        width: u32,
    ) -> Result<Composer, AllocError>
        requires stack { IsSome (stack_at stack.0 doc.now.nodes) }
        ensures { IfOk result
            (λ c. c ≡ record { width = width; levels = levels_below doc.now stack.0 }) }
    {
        let levels = levels_of(doc, stack);
        Ok(Composer {
            width,
            levels,
            pictures: vec![in alloc; CLEAR; 64 * width as usize
                + 64 * (levels as usize * width as usize)]?,
            bytes: vec![in alloc; 0; SCRATCH + 320 * width as usize]?,
        })
    }

    /// The picture of a stack over a rectangle of the canvas: RGBA bytes, row by row. It takes at most one step for
    /// each point and each visible node below the stack.
    pub fn compose<L: Ledger>(
        &mut self,
        doc: &Document,
        stack: NodeId,
        rect: Rect,
        out: &mut [u8],
        steps: &mut Steps<L>,
    )
        requires stack { IsSome (stack_at stack.0 doc.now.nodes) }
        requires inside { IsInside doc.now.width doc.now.height rect }
        requires wide { rect.w ≤ self.old.width }
        requires deep { levels_below doc.now stack.0 ≤ self.old.levels }
        requires room { length out.old ≡ 4 * (rect.w * rect.h) }
        ensures same { self.new ≡ self.old }
        ensures picture { out.new ≡ picture_bytes doc.now stack.0 (part_above_0 rect.x)
            (part_above_0 rect.y) rect.w rect.h }
        ensures cost { steps.new ≤ steps.old + visible_below doc.now stack.0 * (rect.w * rect.h) }
    {
        let pictures = self.pictures.as_mut_slice();
        let bytes = self.bytes.as_mut_slice();
        compose_bands(doc, stack, rect, pictures, bytes, out, steps);
    }
}

/// The picture of a stack over a rectangle of the canvas: RGBA bytes, row by row. After out of memory `out` and the
/// steps are as before: nothing was composed. It takes at most one step for each point and each visible node below the
/// stack.
pub fn picture<L: Ledger>(
    alloc: Global,
    doc: &Document,
    stack: NodeId,
    rect: Rect,
    out: &mut [u8],
    steps: &mut Steps<L>,
) -> Result<(), AllocError>
    requires stack { IsSome (stack_at stack.0 doc.now.nodes) }
    requires inside { IsInside doc.now.width doc.now.height rect }
    requires room { length out.old ≡ 4 * (rect.w * rect.h) }
    ensures picture { OnOk result (out.new
        ≡ picture_bytes doc.now stack.0 (part_above_0 rect.x) (part_above_0 rect.y) rect.w rect.h) }
    ensures as_before { OnErr result (out.new ≡ out.old) }
    ensures no_steps { OnErr result (steps.new ≡ steps.old) }
    ensures cost { steps.new ≤ steps.old + visible_below doc.now stack.0 * (rect.w * rect.h) }
{
    let mut composer = Composer::new(alloc, doc, stack, rect.w)?;
    composer.compose(doc, stack, rect, out, steps);
    Ok(())
}
