//! The cache of a document that is opened.
ghost use Rattle.std.specs.Prelude.{◌≡◌, IfOk};
ghost use Rattle.spec_cache.specs.Cache.{no_slots};
ghost use Rattle.spec_world.specs.World.{add_stacks, stack_ids};

use crate::pool::Pool;
use crate::stacks::stacks;
use crate::steps::add_stacks;
use std::alloc::{AllocError, Global};
use xl_cache::Cache;
use xl_doc::Document;

/// Blank slots at version 0 for the image and each group.
pub fn first_cache(alloc: Global, doc: &Document) -> Result<Cache, AllocError>
    ensures { IfOk result (λ c. c ≡ add_stacks (stack_ids doc.now) doc.now 0 no_slots) }
{
    let stacks = stacks(alloc, doc)?;
    let mut pool = Pool::new(alloc, doc.width, doc.height, stacks.len(), 0)?;
    let mut cache = Cache::new(alloc)?;
    add_stacks(&mut cache, stacks.as_slice(), &mut pool, 0);
    Ok(cache)
}
