ghost use Rattle.std.specs.Prelude.{◌≡◌, IfOk};
ghost use Rattle.spec_document.specs.Forest.{none};

use crate::entries::NodeEntry;
use std::alloc::{AllocError, Global};
use std::marker::Model;

/// A node with all below it that was taken out of a tree, or nothing.
#[derive(Drop)]
pub struct Branch<N> {
    pub(crate) entries: Vec<NodeEntry<N>>,
    pub(crate) room: u32,
}

impl<N> Model for Branch<N> {
    ghost use Rattle.std.specs.Prelude.{◌≤◌};
    ghost use Rattle.spec_document.specs.Forest.{ids};
    ghost use Rattle.std.specs.Vec.{vec_capacity};
    ghost use Rattle.xl_tree.specs.Branches.{Held, held_code};

    ghost Value = { Held N };

    ghost coded = { held_code N.code };

    ghost use Rattle.xl_tree.specs.Flat.{forest_of};
    ghost use Rattle.xl_tree.specs.Ids.{AreOwn};
    ghost use Rattle.xl_tree.specs.Kept.{AreSiblings};

    ghost view = { λ b. record { forest = forest_of b.entries.items; room = b.room } };

    ghost invariant = { λ b. AreSiblings 0 b.entries.items × (b.room ≤ vec_capacity b.entries) × AreOwn (ids (forest_of b.entries.items)) };
}

impl<N> Branch<N> {
    /// An empty branch with room for so many nodes.
    pub fn new(alloc: Global, room: u32) -> Result<Branch<N>, AllocError>
        ensures { IfOk result (λ branch. branch ≡ record { forest = none; room = room }) }
    {
        let entries = Vec::with_capacity(alloc, room as usize)?;
        Ok(Branch { entries, room })
    }
}
