ghost use Rattle.std.specs.Prelude.{◌≡◌, ◌≤◌, ◌<◌, [], ◌∷◌, ◌++◌, length, map, unwrap_or};
ghost use Rattle.spec_document.specs.Forest.{ancestors};
ghost use Rattle.xl_tree.specs.Above.{groups_before};

use crate::entries::NodeEntry;
use crate::forest::Tree;
use crate::naming::NodeId;
use spec_document::MAX_DEPTH;
use std::marker::Model;

/// How many groups there is room for: one more than a node may be in.
const ROOM: usize = MAX_DEPTH as usize;

/// The groups above a node, innermost first.
#[derive(Drop)]
pub struct Ancestors {
    ids: [NodeId; ROOM],
    len: usize,
}

impl Model for Ancestors {
    ghost use Rattle.std.specs.Prelude.{◌≡◌, ◌≤◌, List, length, take};
    ghost use Rattle.spec_document.specs.declared.TheConstants.{MAX_DEPTH};
    ghost use Rattle.xl_tree.specs.declared.naming.NodeId.{NodeId};

    ghost Value = { List NodeId };

    ghost view = { λ a. take a.len a.ids };

    ghost invariant = { λ a. (length a.ids ≡ MAX_DEPTH) × (a.len ≤ MAX_DEPTH) };
}

impl Ancestors {
    fn none() -> Ancestors
        ensures { result ≡ [] }
    {
        Ancestors {
            ids: [NodeId(0); ROOM],
            len: 0,
        }
    }

    fn push(&mut self, id: NodeId)
        requires { length self.old < MAX_DEPTH }
        ensures { self.new ≡ self.old ++ id ∷ [] }
    {
        self.ids[self.len] = id;
        self.len += 1;
    }

    /// The ids, innermost first.
    pub fn as_slice(&self) -> &[NodeId]
        ensures ids { result.now ≡ self.now }
        ensures few { length self.now ≤ MAX_DEPTH }
    {
        &self.ids[..self.len]
    }
}

impl<N: Drop> Tree<N> {
    /// The groups above a node, innermost first. There are none where there is no such node.
    pub fn ancestors(&self, id: NodeId) -> Ancestors
        ensures { map (λ i. i.0) result ≡ unwrap_or (ancestors id.0 self.now) [] }
    {
        let entries = self.entries.as_slice();
        let found = self.from_node(id);
        match found.split_first() {
            None => Ancestors::none(),
            Some((entry, _)) => groups_before(&entries[..entries.len() - found.len()], entry.level),
        }
    }
}

/// The groups among these entries that are above what follows them at a level.
fn groups_before<N>(before: &[NodeEntry<N>], level: u32) -> Ancestors
    requires { level ≤ MAX_DEPTH }
    ensures { map (λ i. i.0) result ≡ groups_before before.now level }
{
    let mut above = Ancestors::none();
    let mut lowest = level;
    let mut at = before.len();
    while 0 < at && 0 < lowest {
        at -= 1;
        let entry = &before[at];
        if entry.level < lowest {
            above.push(NodeId(entry.id));
            lowest = entry.level;
        }
    }
    above
}
