//! The pictures of groups, recomposed.
ghost use Rattle.std.specs.Prelude.{◌≡◌, ◌*◌, ◌<◌, length, OnOk, IsSome};
ghost use Rattle.spec_document.specs.Forest.{stack_at};
ghost use Rattle.spec_document.specs.Rect.{part_above_0};
ghost use Rattle.spec_document.specs.Picture.{picture_bytes};
ghost use Rattle.xl_doc.specs.Canvas.{IsInside};

use crate::recompose::picture;
use std::alloc::{AllocError, Global};
use std::marker::Brand;
use std::sync::ledger::{Blank, Ledger};
use xl_blend::Steps;
use xl_doc::{Document, NodeId, Pictures, Rect};

// The picture of a stack, with a counter of its own.
fn stack_picture<L: Ledger>(
    alloc: Global,
    doc: &Document,
    stack: NodeId,
    rect: Rect,
    out: &mut [u8],
    blank: Blank,
) -> Result<(), AllocError>
    requires name { blank.name ≡ L.name }
    requires parts { blank.parts ≡ L.parts }
    requires some { 0 < blank.parts }
    requires stack { IsSome (stack_at stack.0 doc.now.nodes) }
    requires inside { IsInside doc.now.width doc.now.height rect }
    requires room { length out.old ≡ 4 * (rect.w * rect.h) }
    ensures { OnOk result (out.new ≡ picture_bytes doc.now stack.0 (part_above_0 rect.x)
        (part_above_0 rect.y) rect.w rect.h) }
{
    let mut steps = Steps::<L>::new(blank);
    picture(alloc, doc, stack, rect, out, &mut steps)
}

/// Gives the pictures of groups by composing them anew.
#[derive(Drop)]
pub struct Recompose;

impl Recompose {
    /// It keeps nothing between two pictures.
    pub fn new() -> Recompose {
        Recompose
    }
}

impl Pictures for Recompose {
    fn fill(
        &mut self,
        alloc: Global,
        doc: &Document,
        node: NodeId,
        rect: Rect,
        out: &mut [u8],
    ) -> Result<(), AllocError> {
        stack_picture::<Brand>(alloc, doc, node, rect, out, Blank::new(1))
    }
}
