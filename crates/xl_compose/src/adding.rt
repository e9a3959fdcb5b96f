//! The pieces of a stack.
ghost use Rattle.std.specs.Prelude.{◌≡◌, ◌+◌, ◌≤◌, ◌++◌, ◌∷◌, ℕ, [], List, IfOk, OnOk};
ghost use Rattle.spec_document.specs.Forest.{levels};
ghost use Rattle.spec_document.specs.declared.TheConstants.{MAX_DEPTH};
ghost use Rattle.spec_document.specs.Picture.{any_visible};
ghost use Rattle.xl_doc.specs.Nodes.{IsLeaf, MarksAgree, nodes_of};
ghost use Rattle.xl_compose.specs.declared.span.Band.{Band};
ghost use Rattle.xl_compose.specs.Added.{AreAdded, AreRight};
ghost use Rattle.xl_compose.specs.Cost.{laid_in};
ghost use Rattle.xl_compose.specs.NodePieces.{blank_piece, clean_piece, leaf_pieces, stack_piece};
ghost use Rattle.xl_compose.specs.Pieces.{weights};

use crate::clean::CleanTiles;
use crate::pieces::{Piece, What};
use crate::stacks::mode_above;
use crate::tile::Picture;
use std::alloc::{AllocError, Global};
use xl_doc::{Body, Node, TileAt};
use xl_tree::{Split, Stack};

// The picture of a level begins.
fn add_blank(level: u32, pieces: &mut Vec<Piece>) -> Result<(), AllocError>
    ensures { OnOk result (pieces.new.items ≡ pieces.old.items ++ blank_piece level ∷ []) }
{
    let what = What::Blank;
    pieces.push(Piece { level, what })?;
    Ok(())
}

// A layer, where it is visible.
fn add_leaf(
    alloc: Global,
    node: &Node,
    some_under: bool,
    level: u32,
    pieces: &mut Vec<Piece>,
) -> Result<(), AllocError>
    requires leaf { IsLeaf node.now.body }
    ensures { OnOk result (pieces.new.items ≡ pieces.old.items ++ leaf_pieces level some_under
        node.now) }
{
    if !node.visible {
        return Ok(());
    }
    let layer = match &node.body {
        Body::Leaf(layer) => layer.share(alloc)?,
        Body::Group => unreachable!(),
    };
    let what = What::Leaf {
        mode: mode_above(some_under, node.mode),
        opacity: node.opacity,
        layer,
    };
    pieces.push(Piece { level, what })?;
    Ok(())
}

// A picture that need not be composed again.
fn add_clean(
    alloc: Global,
    picture: &Picture,
    level: u32,
    pieces: &mut Vec<Piece>,
) -> Result<(), AllocError>
    ensures { OnOk result (pieces.new.items ≡ pieces.old.items ++ clean_piece level picture.now
        ∷ []) }
{
    let mut copy = Picture::blank(alloc)?;
    copy.copy_from(picture);
    let what = What::Clean { picture: copy };
    pieces.push(Piece { level, what })?;
    Ok(())
}

// A group, whose picture is at the next level.
fn add_over(
    node: &Node,
    some_under: bool,
    level: u32,
    pieces: &mut Vec<Piece>,
) -> Result<(), AllocError>
    ensures { OnOk result (pieces.new.items ≡ pieces.old.items ++ stack_piece level some_under
        node.now ∷ []) }
{
    let what = What::Stack {
        mode: mode_above(some_under, node.mode),
        opacity: node.opacity,
    };
    pieces.push(Piece { level, what })?;
    Ok(())
}

/// Adds the pieces that make the picture of a stack at a level. Where `clean` has the picture of a group, it comes in
/// place of the group's own pieces. Answers whether some node is visible.
pub fn add_stack<K: CleanTiles>(
    alloc: Global,
    nodes: Stack<'_, Node>,
    level: u32,
    at: TileAt,
    clean: &K,
    pieces: &mut Vec<Piece>,
) -> Result<bool, AllocError>
    requires agree { MarksAgree nodes }
    requires low { level + levels nodes ≤ MAX_DEPTH }
    ensures any { IfOk result (λ some. some ≡ any_visible (nodes_of nodes.entry)) }
    ensures cost { OnOk result (weights pieces.new.items ≡ weights pieces.old.items + laid_in
        (λ id. K.clean_tile clean.now id at) (nodes_of nodes.entry)) }
    ensures added { OnOk result ((deep : ℕ) (colours : List (List ℕ)) (band : Band)
        → level + levels nodes.entry + 2 ≤ deep → AreRight (λ id. K.clean_tile clean.now id at)
        colours band (nodes_of nodes.entry) → AreAdded deep colours band level
        (nodes_of nodes.entry) pieces.old.items pieces.new.items) }
{
    match nodes.split() {
        Split::Empty => {
            add_blank(level, pieces)?;
            Ok(false)
        }
        Split::Leaf { node, under, .. } => {
            let some_under = add_stack(alloc, under, level, at, clean, pieces)?;
            add_leaf(alloc, node, some_under, level, pieces)?;
            Ok(node.visible || some_under)
        }
        Split::Group {
            id,
            node,
            children,
            under,
        } => {
            let some_under = add_stack(alloc, under, level, at, clean, pieces)?;
            if !node.visible {
                return Ok(some_under);
            }
            if let Some(picture) = clean.clean_tile(id, at) {
                add_clean(alloc, picture, level + 1, pieces)?;
                add_over(node, some_under, level, pieces)?;
                return Ok(true);
            }
            add_stack(alloc, children, level + 1, at, clean, pieces)?;
            add_over(node, some_under, level, pieces)?;
            Ok(true)
        }
    }
}
