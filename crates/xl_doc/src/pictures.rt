//! The pictures of groups, for a file that is written.
ghost use Rattle.std.specs.Prelude.{◌≡◌, ◌*◌, length, OnOk, IsSome};
ghost use Rattle.spec_document.specs.Forest.{stack_at};
ghost use Rattle.spec_document.specs.Rect.{part_above_0};
ghost use Rattle.spec_document.specs.Picture.{picture_bytes};
ghost use Rattle.xl_doc.specs.Canvas.{IsInside};

use crate::document::Document;
use std::alloc::{AllocError, Global};
use xl_grid::Rect;
use xl_tree::NodeId;

/// Who gives the pictures of groups, which a written file has beside their layers.
pub trait Pictures {
    /// The picture of a stack over a rectangle of the canvas: RGBA bytes, row by row, without the opacity of the group.
    /// After out of memory `out` holds any bytes.
    fn fill(
        &mut self,
        alloc: Global,
        doc: &Document,
        node: NodeId,
        rect: Rect,
        out: &mut [u8],
    ) -> Result<(), AllocError>
        requires stack { IsSome (stack_at node.0 doc.now.nodes) }
        requires inside { IsInside doc.now.width doc.now.height rect }
        requires room { length out.old ≡ 4 * (rect.w * rect.h) }
        ensures { OnOk result (out.new ≡ picture_bytes doc.now node.0 (part_above_0 rect.x)
            (part_above_0 rect.y) rect.w rect.h) };
}
