//! What a document that is opened begins with.
ghost use Rattle.std.specs.Prelude.{◌≡◌, [], IfOk};
ghost use Rattle.spec_cache.specs.Cache.{no_slots};
ghost use Rattle.spec_world.specs.World.{stack_ids, add_stacks};

use std::alloc::{AllocError, Global};
use xl_doc::Document;
use xl_standing::{Cache, Step, Trail, first_cache};

/// The trails of what can be undone and redone.
#[derive(Drop)]
pub(crate) struct Trails {
    pub(crate) undo: Trail<Step>,
    pub(crate) redo: Trail<Step>,
}

/// What a document without a history needs beside it: the slots of its stacks, and the trails.
#[derive(Drop)]
pub(crate) struct Beside {
    pub(crate) cache: Cache,
    pub(crate) trails: Trails,
}

/// That, and a share of the document.
#[derive(Drop)]
pub(crate) struct Parts {
    pub(crate) base: Document,
    pub(crate) beside: Beside,
}

// The trails of a document without a history.
fn first_trails(alloc: Global) -> Result<Trails, AllocError>
    ensures undo { IfOk result (λ trails. trails.undo ≡ []) }
    ensures redo { IfOk result (λ trails. trails.redo ≡ []) }
{
    let undo = Trail::new(alloc)?;
    let redo = Trail::new(alloc)?;
    Ok(Trails { undo, redo })
}

// The slots and the trails of a document that is opened.
fn first_beside(alloc: Global, doc: &Document) -> Result<Beside, AllocError>
    ensures cache { IfOk result (λ beside. beside.cache ≡ add_stacks (stack_ids doc.now) doc.now 0
        no_slots) }
    ensures undo { IfOk result (λ beside. beside.trails.undo ≡ []) }
    ensures redo { IfOk result (λ beside. beside.trails.redo ≡ []) }
{
    let trails = first_trails(alloc)?;
    let cache = first_cache(alloc, doc)?;
    Ok(Beside { cache, trails })
}

/// The parts of a document that is opened.
pub(crate) fn first_parts(alloc: Global, doc: &Document) -> Result<Parts, AllocError>
    ensures base { IfOk result (λ parts. parts.base ≡ doc.now) }
    ensures cache { IfOk result (λ parts. parts.beside.cache ≡ add_stacks (stack_ids doc.now)
        doc.now 0 no_slots) }
    ensures undo { IfOk result (λ parts. parts.beside.trails.undo ≡ []) }
    ensures redo { IfOk result (λ parts. parts.beside.trails.redo ≡ []) }
{
    let beside = first_beside(alloc, doc)?;
    let base = doc.share(alloc)?;
    Ok(Parts { base, beside })
}
