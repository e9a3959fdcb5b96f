//! What is made of a seed.
use std::alloc::{AllocError, Global};
use std::test::Fail;
use xl_doc::{Document, NodeId};
use xl_report::{Made, make};
use xl_script::{Call, Line, Script};

// Without a clause, so that a test need not carry one.
fn make_seed(alloc: Global, seed: u32) -> Result<Made, AllocError> {
    make(alloc, seed)
}

// How many lines there are, and how many of them are edits, tiles and saves.
fn counts(lines: &[Line]) -> [usize; 4] {
    let mut edits: usize = 0;
    let mut tiles: usize = 0;
    let mut saves: usize = 0;
    for line in lines {
        match line {
            Line::Call(Call::Edit(_)) => edits = edits.wrapping_add(1),
            Line::Call(Call::Tile(_, _)) => tiles = tiles.wrapping_add(1),
            Line::Save => saves = saves.wrapping_add(1),
            Line::Call(_) | Line::Forget(_) => {}
        }
    }
    [lines.len(), edits, tiles, saves]
}

// Whether a document has ten nodes: eight layers of 512 by 384 pixels, and two groups of the canvas.
fn has_ten_nodes(document: &Document) -> bool {
    document.tree.len() == 10
        && document.area() == 8 * 512 * 384 + 2 * 1024 * 768
        && document.tree.find(NodeId(10)).is_some()
}

// Whether each session has a hundred calls.
fn has_hundred_calls(script: &Script) -> bool {
    for session in 0..8 {
        if counts(script.lines(session)) != [100, 96, 3, 1] {
            return false;
        }
    }
    true
}

// Whether a seed makes ten nodes and a hundred calls.
fn makes_all(alloc: Global, seed: u32) -> Result<(bool, bool), AllocError> {
    let made = make_seed(alloc, seed)?;
    let has_nodes = has_ten_nodes(&made.document);
    let has_calls = has_hundred_calls(&made.script);
    drop(made);
    Ok((has_nodes, has_calls))
}

#[test]
fn nodes_and_calls_are_made(rt: HostRuntime) -> Result<(), Fail> {
    assert_eq!(rt; makes_all(rt.alloc(), 7)?, (true, true));
    Ok(())
}

// What is drawn of a layer beside its pixel, and 0 where there is no such node.
fn opacity(made: &Made, id: u32) -> u8 {
    match made.document.tree.find(NodeId(id)) {
        Some(node) => node.opacity,
        None => 0,
    }
}

// What is drawn of two layers, and how many lines the last session has.
fn looks(alloc: Global, seed: u32) -> Result<(u8, u8, usize), AllocError> {
    let made = make_seed(alloc, seed)?;
    let looks = (
        opacity(&made, 2),
        opacity(&made, 10),
        made.script.lines(7).len(),
    );
    drop(made);
    Ok(looks)
}

// Whether a seed draws this of the first of the layers, and the same again.
fn is_drawn_again(alloc: Global, seed: u32, first: u8) -> Result<bool, AllocError> {
    let one = looks(alloc, seed)?;
    let two = looks(alloc, seed)?;
    Ok(one.0 == first && one == two)
}

#[test]
fn a_seed_makes_the_same_again(rt: HostRuntime) -> Result<(), Fail> {
    assert!(rt; is_drawn_again(rt.alloc(), 7, 206)?);
    Ok(())
}
