ghost use Rattle.std.specs.Prelude.{◌≡◌, ◌+◌, ◌<◌, ◌≤◌, ◌==◌, if◌then◌else◌, ℕ, Some, None, length, IfErr, IfOk};
ghost use Rattle.std.specs.Vec.{vec_capacity, vec_len};
ghost use Rattle.xl_tree.specs.Index.{HasPlace, IsAscending, IsGap, IsIndex, place_at};
ghost use Rattle.xl_tree.specs.Places.{first_some};

use crate::entries::NodeEntry;
use spec_document::MAX_NODES;
use std::alloc::{AllocError, Global};
use std::marker::Model;

/// Where the first entry with an id stands.
#[derive(Clone, Copy)]
pub struct IndexedId {
    id: u32,
    at: u32,
}

/// Where each id stands among the entries of a tree, in the order of the ids. Its room is taken when it is made, and of
/// that only as much is touched as there are entries.
#[derive(Drop)]
pub struct Index {
    places: Vec<IndexedId>,
}

impl Model for Index {
    ghost use Rattle.std.specs.Prelude.{List};
    ghost use Rattle.xl_tree.specs.declared.index.IndexedId.{IndexedId};

    ghost Value = { List IndexedId };

    ghost use Rattle.xl_tree.specs.Index.{HasRoom, IsAscending};

    ghost view = { λ i. i.places.items };

    ghost invariant = { λ i. IsAscending i.places.items × HasRoom i.places };
}

impl Index {
    /// An index of no entries.
    pub fn new(alloc: Global) -> Result<Index, AllocError>
        ensures { IfOk result (λ index. (id : ℕ) → place_at index id ≡ None) }
    {
        let places = Vec::with_capacity(alloc, MAX_NODES as usize)?;
        Ok(Index { places })
    }

    /// The same index, with room of its own.
    pub fn share(&self, alloc: Global) -> Result<Index, AllocError>
        ensures { IfOk result (λ other. other ≡ self.now) }
    {
        let mut places = Vec::with_capacity(alloc, MAX_NODES as usize)?;
        places.extend_from_slice(self.places.as_slice())?;
        Ok(Index { places })
    }

    /// The place of the first entry with an id. None where there is no such.
    pub fn place(&self, id: u32) -> Option<usize>
        ensures { result ≡ place_at self.now id }
    {
        match search(self.places.as_slice(), id) {
            Ok(k) => Some(self.places[k].at as usize),
            Err(_) => None,
        }
    }

    /// Makes it the index of these entries.
    pub fn renew<N>(&mut self, entries: &[NodeEntry<N>])
        requires { length entries.now ≤ MAX_NODES }
        ensures { IsIndex self.new entries.now }
    {
        self.places.clear();
        for (at, entry) in entries.iter().enumerate() {
            let place = IndexedId {
                id: entry.id,
                at: at as u32,
            };
            add(&mut self.places, place);
        }
    }
}

/// Adds a place in the order of the ids, unless its id has one.
fn add(places: &mut Vec<IndexedId>, place: IndexedId)
    requires ascending { IsAscending places.old.items }
    requires room { vec_len places.old < vec_capacity places.old }
    ensures ascending { IsAscending places.new.items }
    ensures told { (id : ℕ) → place_at places.new.items id
        ≡ first_some (place_at places.old.items id) (if id == place.id then Some place.at else None) }
    ensures len { vec_len places.new ≤ vec_len places.old + 1 }
    ensures room { vec_capacity places.old ≤ vec_capacity places.new }
{
    let Err(gap) = search(places.as_slice(), place.id) else {
        return;
    };
    places.insert(gap, place).unwrap();
}

/// Which place an id has among these, or the gap for it.
fn search(places: &[IndexedId], id: u32) -> Result<usize, usize>
    requires { IsAscending places.now }
    ensures found { IfOk result (HasPlace id places.now) }
    ensures gap { IfErr result (IsGap id places.now) }
{
    let Some(last) = places.last() else {
        return Err(0);
    };
    // Nodes mostly come with ascending ids, so the gap is mostly at the end.
    if last.id < id {
        return Err(places.len());
    }
    places.binary_search_by_key(&id, |place| place.id)
}
