//! The pictures of a document without layers: of its last tile, and of a rectangle.
ghost use Rattle.std.specs.Prelude.{◌≡◌, ◌<◌, IfOk};

use std::alloc::{AllocError, Global};
use std::marker::Brand;
use std::sync::ledger::{Blank, Ledger};
use std::test::Fail;
use xl_blend::Steps;
use xl_compose::{Picture, Recompose, recompose_tile};
use xl_doc::{Base, Channels, ColourMap, Document, NodeId, Pictures, PropList, Rect, TileAt, Tree};

fn blank(alloc: Global) -> Result<Document, AllocError>
    ensures { IfOk result (λ d. (d.width ≡ 100) × (d.height ≡ 70)) }
{
    let tree = Tree::new(alloc)?;
    let channels = Channels::new(alloc)?;
    let colours = ColourMap::new(alloc);
    let kept = PropList::new(alloc);
    Ok(Document {
        width: 100,
        height: 70,
        base: Base::Rgb,
        compression: 0,
        colours,
        kept,
        tree,
        channels,
        selection: None,
    })
}

// Writes the picture of the last tile.
fn last_tile<L: Ledger>(
    alloc: Global,
    doc: &Document,
    out: &mut Picture,
    blank: Blank,
) -> Result<(), AllocError>
    requires name { blank.name ≡ L.name }
    requires parts { blank.parts ≡ L.parts }
    requires some { 0 < blank.parts }
    requires width { doc.now.width ≡ 100 }
    requires height { doc.now.height ≡ 70 }
{
    let mut steps = Steps::<L>::new(blank);
    recompose_tile(
        alloc,
        doc,
        NodeId(0),
        TileAt { col: 1, row: 1 },
        out,
        &mut steps,
    )
}

// Writes the picture of the last tile of the document. So nothing but the document is to be let go here.
fn write_last(alloc: Global, out: &mut Picture) -> Result<(), AllocError> {
    let doc = blank(alloc)?;
    let done = last_tile::<Brand>(alloc, &doc, out, Blank::new(1));
    drop(doc);
    done
}

// Whether there are so many bytes, and all are 0.
fn is_clear(bytes: &[u8], count: usize) -> bool {
    bytes.len() == count && bytes.iter().all(|byte| *byte == 0)
}

// How many bytes a copy of a picture has.
fn copied_len(alloc: Global, picture: &Picture) -> Result<usize, AllocError> {
    let mut copy = Picture::blank(alloc)?;
    copy.copy_from(picture);
    Ok(copy.bytes().len())
}

// Whether the picture of the last tile is clear, and its copy as long.
fn last_is_clear(alloc: Global) -> Result<bool, AllocError> {
    let mut picture = Picture::blank(alloc)?;
    write_last(alloc, &mut picture)?;
    let is_clear = is_clear(picture.bytes(), 864);
    Ok(is_clear && copied_len(alloc, &picture)? == 864)
}

/// The last six pixels.
const LAST: Rect = Rect {
    x: 97,
    y: 68,
    w: 3,
    h: 2,
};

// Writes the picture of the last pixels.
fn fill_last(alloc: Global, doc: &Document, out: &mut [u8; 24]) -> Result<(), AllocError>
    requires width { doc.now.width ≡ 100 }
    requires height { doc.now.height ≡ 70 }
{
    Recompose::new().fill(alloc, doc, NodeId(0), LAST, out)
}

fn write_last_pixels(alloc: Global, out: &mut [u8; 24]) -> Result<(), AllocError> {
    let doc = blank(alloc)?;
    let done = fill_last(alloc, &doc, out);
    drop(doc);
    done
}

// Whether the last pixels are clear, written over sevens.
fn last_pixels_are_clear(alloc: Global) -> Result<bool, AllocError> {
    let mut out = [7; 24];
    write_last_pixels(alloc, &mut out)?;
    Ok(out == [0; 24])
}

#[test]
fn a_tile_and_a_rectangle_are_recomposed(rt: HostRuntime) -> Result<(), Fail> {
    assert!(rt; last_is_clear(rt.alloc())?);
    assert!(rt; last_pixels_are_clear(rt.alloc())?);
    Ok(())
}
