ghost use Rattle.std.specs.Prelude.{◌≡◌, ◌<◌, IfOk, IsSome, IsTrue, Ok};
ghost use Rattle.spec_document.specs.Document.{renumber};
ghost use Rattle.spec_file.specs.Reading.{reading};
ghost use Rattle.spec_document.specs.Forest.{stack_at};
ghost use Rattle.spec_document.specs.Grid.{is_on_grid};
ghost use Rattle.spec_layout.specs.Layout.{Written};
ghost use Rattle.spec_document.specs.Picture.{picture_bytes};
ghost use Rattle.xcf.specs.Shown.{Shows};
ghost use Rattle.xcf.specs.TilePicture.{tile_picture};

use crate::errors::NotShown;
use crate::tile_picture::Picture;
use std::alloc::{AllocError, Global};
use std::marker::Brand;
use std::sync::ledger::{Blank, Ledger};
use xl_blend::Steps;
use xl_compose::{Picture as Tile, Recompose, recompose_tile};
use xl_doc::{Document, NodeId, Pictures, Rect, TileAt};
use xl_standing::{has_stack, has_tile};
use xl_write::{Keeping, encode};

/// The id that stands for the image where a stack or a parent is asked for.
pub const IMAGE: NodeId = NodeId(0);

// The picture of a tile that is there, with a counter of steps of its own.
fn compose_tile<L: Ledger>(
    alloc: Global,
    document: &Document,
    stack: NodeId,
    at: TileAt,
    blank: Blank,
) -> Result<Picture, AllocError>
    requires name { blank.name ≡ L.name }
    requires parts { blank.parts ≡ L.parts }
    requires some { 0 < blank.parts }
    requires stack { IsSome (stack_at stack.0 document.now.nodes) }
    requires on_grid { IsTrue (is_on_grid document.now.width document.now.height at) }
    ensures { IfOk result (λ picture. picture
        ≡ tile_picture document.now stack.0 at) }
{
    let mut steps = Steps::<L>::new(blank);
    let mut tile = Tile::blank(alloc)?;
    recompose_tile(alloc, document, stack, at, &mut tile, &mut steps)?;
    Ok(Picture::of(document, stack, at, tile))
}

/// The picture of a tile of 64 by 64 pixels, cut to the canvas: RGBA, four bytes a pixel, row by row. The stack is node
/// 0 for the image, or a group, without its opacity.
///
/// Errors: `NoStack` where the node is neither, else `OutsideTile` where the canvas has no such tile, `Memory`.
pub fn tile(
    alloc: Global,
    document: &Document,
    stack: NodeId,
    at: TileAt,
) -> Result<Picture, NotShown>
    ensures { Shows document.now stack.0 at result }
{
    if !has_stack(document, stack) {
        return Err(NotShown::NoStack(stack.0));
    }
    if !has_tile(document, at) {
        return Err(NotShown::OutsideTile);
    }
    match compose_tile::<Brand>(alloc, document, stack, at, Blank::new(1)) {
        Ok(picture) => Ok(picture),
        Err(AllocError) => Err(NotShown::Memory),
    }
}

/// The picture of the image: RGBA, four bytes a pixel, row by row, the canvas's width times its height of them. Its one
/// error is that memory ran out.
pub fn picture(alloc: Global, document: &Document) -> Result<Vec<u8>, AllocError>
    ensures { IfOk result (λ bytes.
        bytes.items ≡ picture_bytes document.now 0 0 0 document.now.width document.now.height) }
{
    let rect = Rect {
        x: 0,
        y: 0,
        w: document.width,
        h: document.height,
    };
    let count = 4 * (document.width as usize * document.height as usize);
    let mut bytes = vec![in alloc; 0; count]?;
    Recompose::new().fill(alloc, document, NodeId(0), rect, bytes.as_mut_slice())?;
    Ok(bytes)
}

/// The bytes of a file of the document, which [`crate::Image::open`] reads back as this document, its ids counted anew.
/// Its one error is that memory ran out.
pub fn save(alloc: Global, document: &Document) -> Result<Vec<u8>, AllocError>
    ensures written { IfOk result (λ file. Written file.items document.now) }
    ensures read { IfOk result (λ file. reading file.items ≡ Ok (renumber document.now)) }
{
    encode(alloc, document, &mut Keeping, &mut Recompose::new())
}
