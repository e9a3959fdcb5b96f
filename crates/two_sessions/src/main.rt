//! Two sessions edit one image, at first each in a thread of its own, and then in turns: one comes too late, and the other undoes
//! and saves.
#![tactic(auto)]

use anyhow::Result;
use std::alloc::{AllocError, Global};
use std::sync::Wait;
use std::thread::{Threads, join};
use std::{fs, io};
use xcf::{Changed, Edit, Edits, IMAGE, NodeId, NotEdited, TileAt};
use xcf_disk::FileShelf;
use xcf_sessions::{Session, SharedEditor, Shelf};

/// The image's one layer, and the one tile of the canvas.
const LAYER: NodeId = NodeId(1);

const TILE: TileAt = TileAt { col: 0, row: 0 };

// A group of one edit.
fn group_of(alloc: Global, edit: Edit) -> Result<Edits, AllocError> {
    let mut edits = Edits::new(alloc);
    edits.push(edit)?;
    Ok(edits)
}

// Gives the layer an opacity.
fn fade<W: Wait, D: Shelf>(
    rt: &W,
    alloc: Global,
    session: &mut Session<D>,
    value: u8,
) -> Result<Changed, NotEdited> {
    let edits = group_of(alloc, Edit::SetOpacity { id: LAYER, value })?;
    session.edit(rt, alloc, edits)
}

// Both sessions fade the layer, each in a thread of its own. Which comes first is not said.
fn fade_beside<R: Threads + Wait + Sync, D: Shelf>(
    rt: &R,
    alloc: Global,
    first: &mut Session<D>,
    second: &mut Session<D>,
) -> Result<(), NotEdited> {
    let (one, other) = join(
        rt,
        || fade(rt, alloc, first, 128),
        || fade(rt, alloc, second, 64),
    );
    one?;
    other?;
    Ok(())
}

fn tell(rt: &impl Print, name: &str, made: Result<Changed, NotEdited>) -> io::Result<()> {
    match made {
        Ok(changed) => println!(rt; "{name}: {changed:?}"),
        Err(flaw) => println!(rt; "{name}: {flaw}"),
    }
}

// Hides or shows the layer, if the version is the latest still.
fn hide<W: Wait + Print>(
    rt: &W,
    alloc: Global,
    name: &str,
    session: &mut Session<FileShelf>,
    version: u32,
) -> io::Result<()> {
    let edits = group_of(
        alloc,
        Edit::SetVisible {
            id: LAYER,
            on: false,
        },
    )?;
    tell(rt, name, session.edit_at(rt, alloc, version, edits))
}

fn show<W: Wait + Print>(
    rt: &W,
    alloc: Global,
    name: &str,
    session: &mut Session<FileShelf>,
) -> io::Result<()> {
    match session.tile(rt, alloc, IMAGE, TILE) {
        Ok(shown) => println!(rt; "{name}: version {} {:?}", shown.version(), shown.bytes()),
        Err(flaw) => println!(rt; "{name}: {flaw}"),
    }
}

fn save<W: Wait + Print>(
    rt: &W,
    alloc: Global,
    name: &str,
    session: &mut Session<FileShelf>,
) -> io::Result<()> {
    match session.save(rt, alloc) {
        Ok(version) => println!(rt; "{name}: saved version {version}"),
        Err(flaw) => println!(rt; "{name}: {flaw}"),
    }
}

// Both ask for an edit of version 2. The second comes too late, and looks at the tile. Then the first undoes its edit, and saves.
fn take_turns<W: Wait + Print>(
    rt: &W,
    alloc: Global,
    first: &mut Session<FileShelf>,
    second: &mut Session<FileShelf>,
) -> io::Result<()> {
    hide(rt, alloc, "first", first, 2)?;
    hide(rt, alloc, "second", second, 2)?;
    show(rt, alloc, "second", second)?;
    tell(rt, "first", first.undo(rt, alloc))?;
    save(rt, alloc, "first", first)
}

fn play<R: Threads + Wait + Sync + Print>(
    rt: &R,
    alloc: Global,
    first: &mut Session<FileShelf>,
    second: &mut Session<FileShelf>,
) -> io::Result<()> {
    match fade_beside(rt, alloc, first, second) {
        Ok(()) => take_turns(rt, alloc, first, second),
        Err(flaw) => println!(rt; "not edited: {flaw}"),
    }
}

fn with_sessions<R: Threads + Wait + Sync + Print>(
    rt: &R,
    alloc: Global,
    editor: &mut SharedEditor<FileShelf>,
) -> io::Result<()> {
    let Ok(mut first) = editor.session() else {
        return println!(rt; "no session");
    };
    let Ok(mut second) = editor.session() else {
        return println!(rt; "no session");
    };
    play(rt, alloc, &mut first, &mut second)
}

fn open(rt: &HostRuntime) -> Result<SharedEditor<FileShelf>> {
    let file = fs::read(rt, "one.xcf")?;
    let shelf = FileShelf::new(rt);
    Ok(SharedEditor::open(rt.alloc(), file, shelf, "two.xcf")?)
}

fn main(rt: HostRuntime) -> Result<()> {
    let mut editor = open(&rt)?;
    with_sessions(&rt, rt.alloc(), &mut editor)?;
    Ok(())
}
