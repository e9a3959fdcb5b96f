//! How many tiles the way back from an edit keeps.
use sample_bytes::TWO;
use std::alloc::{AllocError, Global};
use std::test::Fail;
use xcf::{Bytes, Edit, Edits, Image, NodeId, Rect};
use xl_doc::Document;
use xl_undo::record;

/// The layer of 200 times 200 pixels, which has 16 tiles.
const LAYER: NodeId = NodeId(1);

fn opened(alloc: Global) -> Result<Image, AllocError> {
    let bytes = TWO.as_slice().to_vec(alloc)?;
    match Image::open(alloc, bytes) {
        Ok(image) => Ok(image),
        Err(_) => Err(AllocError),
    }
}

fn make(alloc: Global, image: &mut Image, edits: Edits) -> Result<(), AllocError> {
    match image.edit(alloc, edits) {
        Ok(()) => Ok(()),
        Err(_) => Err(AllocError),
    }
}

// Makes an edit of the image.
fn make_one(alloc: Global, image: &mut Image, edit: Edit) -> Result<(), AllocError> {
    let mut edits = Edits::new(alloc);
    edits.push(edit)?;
    make(alloc, image, edits)
}

fn tiles_kept_by(alloc: Global, before: &Document, after: &Document) -> Result<u32, AllocError> {
    let record = record(alloc, before, after)?;
    Ok(record.tiles_kept())
}

fn tiles_kept_from(
    alloc: Global,
    image: &mut Image,
    before: &Document,
    edit: Edit,
) -> Result<u32, AllocError> {
    make_one(alloc, image, edit)?;
    tiles_kept_by(alloc, before, image.document())
}

fn tiles_kept_in(alloc: Global, image: &mut Image, edit: Edit) -> Result<u32, AllocError> {
    let before = image.document().share(alloc)?;
    tiles_kept_from(alloc, image, &before, edit)
}

// How many tiles the record keeps that leads back from an edit.
fn tiles_kept_after(alloc: Global, edit: Edit) -> Result<u32, AllocError> {
    let mut image = opened(alloc)?;
    tiles_kept_in(alloc, &mut image, edit)
}

// The same of a grey of 9 in a rectangle of the layer, whose pixels are 0.
fn tiles_kept_after_fill(alloc: Global, rect: Rect) -> Result<u32, AllocError> {
    let pixel = Bytes::from_slice(alloc, &[9])?;
    let edit = Edit::Fill {
        id: LAYER,
        rect,
        pixel,
    };
    tiles_kept_after(alloc, edit)
}

const OPACITY: Edit = Edit::SetOpacity {
    id: LAYER,
    value: 128,
};

const DELETE: Edit = Edit::Delete { id: LAYER };

const ONE_PIXEL: Rect = Rect {
    x: 0,
    y: 0,
    w: 1,
    h: 1,
};

/// Round a corner of four tiles.
const FOUR_PIXELS: Rect = Rect {
    x: 63,
    y: 63,
    w: 2,
    h: 2,
};

// The same of four edits: of one pixel, of four, of an opacity, and of the layer that goes.
fn tiles_kept(alloc: Global) -> Result<[u32; 4], AllocError> {
    Ok([
        tiles_kept_after_fill(alloc, ONE_PIXEL)?,
        tiles_kept_after_fill(alloc, FOUR_PIXELS)?,
        tiles_kept_after(alloc, OPACITY)?,
        tiles_kept_after(alloc, DELETE)?,
    ])
}

#[test]
fn records_keep_the_tiles_that_differ(rt: HostRuntime) -> Result<(), Fail> {
    assert_eq!(rt; tiles_kept(rt.alloc())?, [1, 4, 0, 16]);
    Ok(())
}

// How many layers a document has, once its record has led back from it, and once it has led there again.
fn layers_led(
    alloc: Global,
    before: &Document,
    document: &mut Document,
) -> Result<(u32, u32, u32), AllocError> {
    let mut way = record(alloc, before, document)?;
    let edited = document.tree.len();
    way.revert(document);
    let old = document.tree.len();
    way.revert(document);
    Ok((edited, old, document.tree.len()))
}

fn layers_from(
    alloc: Global,
    image: &mut Image,
    before: &Document,
) -> Result<(u32, u32, u32), AllocError> {
    make_one(alloc, image, DELETE)?;
    let mut after = image.document().share(alloc)?;
    layers_led(alloc, before, &mut after)
}

fn layers_in(alloc: Global, image: &mut Image) -> Result<(u32, u32, u32), AllocError> {
    let before = image.document().share(alloc)?;
    layers_from(alloc, image, &before)
}

// The same of the document in which a layer is deleted.
fn layers_along(alloc: Global) -> Result<(u32, u32, u32), AllocError> {
    let mut image = opened(alloc)?;
    layers_in(alloc, &mut image)
}

#[test]
fn a_record_leads_back_and_then_forth(rt: HostRuntime) -> Result<(), Fail> {
    assert!(rt; layers_along(rt.alloc())? == (1, 2, 1));
    Ok(())
}
