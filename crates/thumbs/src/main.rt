//! `thumbs FILE OUT` lists the layers of an XCF file on the standard error, hides those whose name begins with `tmp`,
//! writes a small picture of the image's first tile to the standard output, as a PAM, and saves the image as OUT.
#![tactic(auto)]

mod quarter;

use anyhow::{Result, bail};
use quarter::{BLOCK, quarter};
use std::alloc::{AllocError, Global};
use std::io::Write;
use std::{env, io};
use xcf::{
    Body, Document, Edit, Edits, IMAGE, Image, Layer, Name, Node, NotEdited, TileAt, nodes,
    pam_head, tile,
};
use xcf_disk::{Failure, open_file, save_file};

const FIRST: TileAt = TileAt { col: 0, row: 0 };

fn list_layer(rt: &HostRuntime, node: &Node, layer: &Layer) -> io::Result<()> {
    let name = Name::of(&node.name);
    let plane = &layer.plane;
    eprintln!(rt;
        "{name} {} x {}, opacity {}",
        plane.width(),
        plane.height(),
        node.opacity
    )
}

fn list_layers(rt: &HostRuntime, document: &Document) -> io::Result<()> {
    for (_, _, node) in nodes(rt.alloc(), document)? {
        if let Body::Leaf(layer) = &node.body {
            list_layer(rt, node, layer)?;
        }
    }
    Ok(())
}

fn is_temporary(node: &Node) -> bool {
    matches!(&node.body, Body::Leaf(_)) && Name::of(&node.name).starts_with("tmp")
}

// The edits that hide the temporary layers.
fn hiding(alloc: Global, document: &Document) -> Result<Edits, AllocError> {
    let mut edits = Edits::new(alloc);
    for (id, _, node) in nodes(alloc, document)? {
        if is_temporary(node) {
            edits.push(Edit::SetVisible { id, on: false })?;
        }
    }
    Ok(edits)
}

// Hides the temporary layers, where there are any: a group has at least one edit.
fn hide_temporary(alloc: Global, image: &mut Image) -> Result<(), NotEdited> {
    let edits = hiding(alloc, image.document())?;
    if edits.is_empty() {
        return Ok(());
    }
    image.edit(alloc, edits)
}

// Writes a quarter of the first tile as a PAM.
fn show(rt: &HostRuntime, document: &Document) -> Result<(), Failure> {
    let picture = tile(rt.alloc(), document, IMAGE, FIRST)?;
    let width = picture.width().div_ceil(BLOCK);
    let height = picture.height().div_ceil(BLOCK);
    let mut out = io::writer(rt);
    out.write_all(pam_head(rt.alloc(), width, height)?.as_bytes())?;
    out.write_all(&quarter(rt.alloc(), &picture)?)?;
    Ok(())
}

fn go_on(rt: &HostRuntime, image: &mut Image, out: &str) -> Result<(), Failure> {
    list_layers(rt, image.document())?;
    hide_temporary(rt.alloc(), image)?;
    show(rt, image.document())?;
    save_file(rt, out, image.document())
}

fn main(rt: HostRuntime) -> Result<()> {
    let words: Vec<String> = env::args(&rt)?.collect(rt.alloc())?;
    let [_, file, out] = words.as_slice() else {
        bail!("usage: thumbs FILE OUT");
    };
    let mut image = open_file(&rt, file.as_str())?;
    go_on(&rt, &mut image, out.as_str())?;
    Ok(())
}
