//! Stacks of layers and groups over a band of the canvas.
ghost use Rattle.std.specs.Prelude.{◌≡◌, ◌+◌, ◌*◌, ◌<◌, ◌≤◌, ℕ, length, true};
ghost use Rattle.spec_document.specs.Over.{clear};
ghost use Rattle.spec_document.specs.Forest.{levels};
ghost use Rattle.spec_document.specs.Source.{faded, layer_source};
ghost use Rattle.spec_document.specs.Picture.{any_visible, laid, stack_pixel, mode_above as mode_over};
ghost use Rattle.xl_doc.specs.Nodes.{IsLeaf, MarksAgree, layer_of, nodes_of};
ghost use Rattle.xl_compose.specs.Cost.{visible_in};
ghost use Rattle.xl_compose.specs.Laid.{pixel};
ghost use Rattle.xl_compose.specs.Source.{sheet_source};
ghost use Rattle.spec_document.specs.declared.TheConstants.{MAX_SIDE};
ghost use Rattle.xl_tile.specs.declared.tile.TheConstants.{SCRATCH};

use crate::lay::lay_part;
use crate::source::{LaidLayer, lay_layer};
use crate::span::Band;
use std::sync::ledger::Ledger;
use xl_blend::{Mode, Pixel, Steps, fade_row};
use xl_doc::{Body, Node};
use xl_tree::{Split, Stack};

/// The pixel without colour and without alpha.
pub const CLEAR: Pixel = Pixel {
    r: 0,
    g: 0,
    b: 0,
    a: 0,
};

/// Clears all pixels.
pub fn clear_row(row: &mut [Pixel])
    ensures length { length row.new ≡ length row.old }
    ensures each { (k : ℕ) → pixel row.new k ≡ clear }
{
    for k in 0..row.len() {
        row[k] = CLEAR;
    }
}

/// The mode in which a node is laid: the bottommost visible one of its stack as normal, any other in its own.
pub fn mode_above(some_under: bool, mode: Mode) -> Mode
    ensures { result ≡ mode_over some_under mode }
{
    if some_under { mode } else { Mode::Normal }
}

// A layer as it is laid over what is under it.
fn laid_leaf<'a>(colours: &'a [[u8; 3]], node: &'a Node, some_under: bool) -> LaidLayer<'a>
    requires { IsLeaf node.now.body }
    ensures mode { result.mode ≡ mode_over some_under node.now.mode }
    ensures source { (x y : ℕ) → sheet_source result.colours.now result.opacity result.layer.now x y
        ≡ layer_source colours.now (layer_of node.now) x y }
{
    let layer = match &node.body {
        Body::Leaf(layer) => layer,
        Body::Group => unreachable!(),
    };
    LaidLayer {
        mode: mode_above(some_under, node.mode),
        colours,
        opacity: node.opacity,
        layer,
    }
}

// Lays the picture of a group's children, with the group's opacity, over what is under the group.
fn lay_children<L: Ledger>(
    mode: Mode,
    opacity: u8,
    picture: &mut [Pixel],
    children: &mut [Pixel],
    steps: &mut Steps<L>,
)
    requires same { length children.old ≡ length picture.old }
    ensures length { length picture.new ≡ length picture.old }
    ensures each { (k : ℕ) → k < length picture.old → pixel picture.new k ≡ laid true mode
        (pixel picture.old k) (faded opacity (pixel children.old k)) }
    ensures cost { steps.new ≡ steps.old + length picture.old }
{
    fade_row(children, opacity);
    lay_part(mode, picture, 0, children, steps);
}

/// The picture of a stack over a band of the canvas, row by row. `scratch` has a picture for each level of the stack,
/// and `bytes` has room for a tile and for the bytes of a layer and its mask in the band. Answers whether some node is
/// visible.
pub fn lay_stack<L: Ledger>(
    colours: &[[u8; 3]],
    nodes: Stack<'_, Node>,
    band: Band,
    picture: &mut [Pixel],
    scratch: &mut [Pixel],
    bytes: &mut [u8],
    steps: &mut Steps<L>,
) -> bool
    requires agree { MarksAgree nodes }
    requires right { band.x + band.w ≤ MAX_SIDE }
    requires below { band.y + band.h ≤ MAX_SIDE }
    requires high { band.h ≤ 64 }
    requires some { 1 ≤ band.h }
    requires picture { length picture.old ≡ band.h * band.w }
    requires scratch { levels nodes * length picture.old ≤ length scratch.old }
    requires bytes { SCRATCH + 320 * band.w ≤ length bytes.old }
    ensures length { length picture.new ≡ length picture.old }
    ensures any { result ≡ any_visible (nodes_of nodes.entry) }
    ensures each { (v k : ℕ) → v < band.h → k < band.w → pixel picture.new (v * band.w + k)
        ≡ stack_pixel colours.now (band.x + k) (band.y + v) (nodes_of nodes.entry) }
    ensures cost { steps.new ≤ steps.old + visible_in (nodes_of nodes.entry) * (band.h * band.w) }
{
    match nodes.split() {
        Split::Empty => {
            clear_row(picture);
            false
        }
        Split::Leaf { node, under, .. } => {
            let some_under = lay_stack(colours, under, band, picture, scratch, bytes, steps);
            if !node.visible {
                return some_under;
            }
            let laid = laid_leaf(colours, node, some_under);
            lay_layer(laid, band, picture, scratch, bytes, steps);
            true
        }
        Split::Group {
            node,
            children,
            under,
            ..
        } => {
            let some_under = lay_stack(colours, under, band, picture, scratch, bytes, steps);
            if !node.visible {
                return some_under;
            }
            let (level, rest) = scratch.split_at_mut(picture.len());
            lay_stack(colours, children, band, level, rest, bytes, steps);
            lay_children(
                mode_above(some_under, node.mode),
                node.opacity,
                picture,
                level,
                steps,
            );
            true
        }
    }
}
