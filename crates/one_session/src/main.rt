//! One session: a file is opened, edited by a group, looked at, saved as another file, and taken back to what it was and
//! forth again. Then it is opened as an image without a history, whose colours a filter inverts.
#![tactic(auto)]

use sha2::{Digest, Sha256};
use std::alloc::{AllocError, Global};
use std::process::ExitCode;
use std::{fs, io};
use xcf::{
    Body, Bytes, Changed, Document, Edit, Editor, Edits, FilterKind, IMAGE, Image, Name, Node,
    NodeId, NotEdited, Rect, TileAt, nodes, plane_bytes, tile,
};
use xcf_disk::{edit_file, open_file, save_file};

/// The image's one layer, which has one pixel.
const LAYER: NodeId = NodeId(1);

const PIXEL: Rect = Rect {
    x: 0,
    y: 0,
    w: 1,
    h: 1,
};

// The layer is half opaque, and its pixel another.
fn fade_and_fill(alloc: Global) -> Result<Edits, AllocError> {
    let pixel = Bytes::from_slice(alloc, &[10, 20, 30, 255])?;
    let mut edits = Edits::new(alloc);
    edits.push(Edit::SetOpacity {
        id: LAYER,
        value: 128,
    })?;
    edits.push(Edit::Fill {
        id: LAYER,
        rect: PIXEL,
        pixel,
    })?;
    Ok(edits)
}

// Shows the version that was made, or why there is none. A group that is refused is an error.
fn tell(rt: &HostRuntime, made: Result<Changed, NotEdited>) -> io::Result<()> {
    match made {
        Ok(changed) => println!(rt; "{changed:?}"),
        Err(flaw) => println!(rt; "not edited: {flaw}"),
    }
}

fn edit(rt: &HostRuntime, editor: &mut Editor) -> io::Result<()> {
    let edits = fade_and_fill(rt.alloc())?;
    tell(rt, editor.edit(rt.alloc(), edits))
}

fn show_pixels(rt: &HostRuntime, pixels: &[u8]) -> io::Result<()> {
    let text = hex::encode(rt.alloc(), pixels)?;
    println!(rt; "tile {text}")
}

// Shows the first tile of the image, RGBA, row by row.
fn show(rt: &HostRuntime, document: &Document) -> io::Result<()> {
    let at = TileAt { col: 0, row: 0 };
    match tile(rt.alloc(), document, IMAGE, at) {
        Ok(picture) => show_pixels(rt, picture.bytes()),
        Err(flaw) => println!(rt; "not shown: {flaw}"),
    }
}

fn show_file(rt: &HostRuntime, file: &[u8]) -> io::Result<()> {
    let length = file.len();
    let digest = hex::encode(rt.alloc(), &Sha256::digest(file))?;
    println!(rt; "file {length} {digest}")
}

// Saves the last version as a file, and shows what stands there.
fn keep(rt: &HostRuntime, editor: &Editor) -> io::Result<()> {
    match save_file(rt, "new.xcf", editor.document()) {
        Ok(()) => show_file(rt, &fs::read(rt, "new.xcf")?),
        Err(failure) => println!(rt; "{failure}"),
    }
}

fn go_back_and_forth(rt: &HostRuntime, editor: &mut Editor) -> io::Result<()> {
    tell(rt, editor.undo(rt.alloc()))?;
    show(rt, editor.document())?;
    tell(rt, editor.redo(rt.alloc()))?;
    show(rt, editor.document())
}

fn go_on(rt: &HostRuntime, editor: &mut Editor) -> io::Result<()> {
    edit(rt, editor)?;
    show(rt, editor.document())?;
    keep(rt, editor)?;
    go_back_and_forth(rt, editor)
}

fn try_session(rt: &HostRuntime) -> io::Result<()> {
    match edit_file(rt, "one.xcf") {
        Ok(mut editor) => go_on(rt, &mut editor),
        Err(failure) => println!(rt; "{failure}"),
    }
}

fn show_node(rt: &HostRuntime, id: NodeId, node: &Node) -> io::Result<()> {
    let name = Name::of(&node.name);
    match &node.body {
        Body::Leaf(layer) => {
            let pixels = plane_bytes(rt.alloc(), &layer.plane)?;
            let text = hex::encode(rt.alloc(), &pixels)?;
            println!(rt; "layer {} {name} {text}", id.0)
        }
        Body::Group => println!(rt; "group {} {name}", id.0),
    }
}

// Shows the layers and groups from the top down, and the layers' own pixels.
fn show_nodes(rt: &HostRuntime, document: &Document) -> io::Result<()> {
    for (id, _, node) in nodes(rt.alloc(), document)? {
        show_node(rt, id, node)?;
    }
    Ok(())
}

fn invert(rt: &HostRuntime, image: &mut Image) -> io::Result<()> {
    match image.filter(rt.alloc(), LAYER, PIXEL, FilterKind::Invert, 0) {
        Ok(()) => show(rt, image.document()),
        Err(flaw) => println!(rt; "not filtered: {flaw}"),
    }
}

fn go_through(rt: &HostRuntime, image: &mut Image) -> io::Result<()> {
    invert(rt, image)?;
    show_nodes(rt, image.document())
}

fn try_image(rt: &HostRuntime) -> io::Result<()> {
    match open_file(rt, "one.xcf") {
        Ok(mut image) => go_through(rt, &mut image),
        Err(failure) => println!(rt; "{failure}"),
    }
}

fn try_both(rt: &HostRuntime) -> io::Result<()> {
    try_session(rt)?;
    try_image(rt)
}

fn main(rt: HostRuntime) -> ExitCode {
    match try_both(&rt) {
        Ok(()) => ExitCode::SUCCESS,
        Err(_) => ExitCode::FAILURE,
    }
}
