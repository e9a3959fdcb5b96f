//! The picture of one tile.
ghost use Rattle.std.specs.Prelude.{◌≡◌, ◌+◌, ◌*◌, ◌≤◌, [], length, IfOk, OnOk, OnErr, IsSome, IsTrue};
ghost use Rattle.spec_document.specs.Forest.{stack_at};
ghost use Rattle.spec_document.specs.Grid.{is_on_grid};
ghost use Rattle.spec_document.specs.Picture.{project};
ghost use Rattle.xl_compose.specs.Cost.{tile_points, visible_below};
ghost use Rattle.xl_compose.specs.Rows.{row_bytes};

use crate::bytes::write_row;
use crate::recompose::Composer;
use std::alloc::{AllocError, Global};
use std::marker::Model;
use std::sync::ledger::Ledger;
use xl_blend::{Pixel, Steps};
use xl_doc::{Document, MAX_SIDE, NodeId, TileAt};
use xl_grid::tile_rect;

/// The bytes of the largest tile: 64 by 64 pixels of four bytes.
const MAX_BYTES: usize = 16384;

/// The RGBA bytes of one tile, row by row. Its room, for 64 by 64 pixels, is taken when it is made.
#[derive(Drop)]
pub struct Picture {
    bytes: Vec<u8>,
}

impl Model for Picture {
    ghost use Rattle.std.specs.Prelude.{◌≤◌, ℕ, List, length, vec_capacity};

    ghost Value = { List ℕ };

    ghost view = { λ p. p.bytes.items };

    ghost invariant = { λ p. (length p.bytes.items ≤ 16384) × (16384 ≤ vec_capacity p.bytes) };
}

impl Picture {
    /// A picture without points.
    pub fn blank(alloc: Global) -> Result<Picture, AllocError>
        ensures { IfOk result (λ p. p ≡ []) }
    {
        Ok(Picture {
            bytes: Vec::with_capacity(alloc, MAX_BYTES)?,
        })
    }

    /// The RGBA bytes, row by row: four for each pixel of the tile.
    pub fn bytes(&self) -> &[u8]
        ensures { result.now ≡ self.now }
    {
        self.bytes.as_slice()
    }

    /// Takes over the bytes of another picture. It takes no memory.
    pub fn copy_from(&mut self, other: &Picture)
        ensures { self.new ≡ other.now }
    {
        self.bytes.clear();
        self.bytes
            .extend_from_slice(other.bytes.as_slice())
            .unwrap();
    }

    // Any bytes, so many, within the room.
    fn set_len(&mut self, len: usize)
        requires { len ≤ 16384 }
        ensures { length self.new ≡ len }
    {
        self.bytes.resize(len, 0).unwrap();
    }

    /// Takes over the bytes of pixels. It takes no memory.
    pub(crate) fn set_pixels(&mut self, pixels: &[Pixel])
        requires { length pixels.now ≤ 4096 }
        ensures { self.new ≡ row_bytes pixels.now }
    {
        self.set_len(4 * pixels.len());
        write_row(pixels, self.bytes.as_mut_slice());
    }
}

/// The picture of a stack at the points of a tile, recomposed. After out of memory `out` and the steps are as before.
/// It takes at most one step for each pixel of the tile and each visible node below the stack.
pub fn recompose_tile<L: Ledger>(
    alloc: Global,
    doc: &Document,
    stack: NodeId,
    at: TileAt,
    out: &mut Picture,
    steps: &mut Steps<L>,
) -> Result<(), AllocError>
    requires stack { IsSome (stack_at stack.0 doc.now.nodes) }
    requires on_grid { IsTrue (is_on_grid doc.now.width doc.now.height at) }
    ensures picture { OnOk result (out.new ≡ project doc.now stack.0 at) }
    ensures as_before { OnErr result (out.new ≡ out.old) }
    ensures no_steps { OnErr result (steps.new ≡ steps.old) }
    ensures cost { steps.new ≤ steps.old + visible_below doc.now stack.0 * tile_points doc.now at }
{
    prove!(doc.width <= MAX_SIDE);
    prove!(doc.height <= MAX_SIDE);
    let rect = tile_rect(doc.width, doc.height, at);
    let mut composer = Composer::new(alloc, doc, stack, rect.w)?;
    out.set_len(4 * (rect.w as usize * rect.h as usize));
    composer.compose(doc, stack, rect, out.bytes.as_mut_slice(), steps);
    Ok(())
}
