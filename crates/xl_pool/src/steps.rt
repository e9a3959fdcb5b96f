//! Stacks that go, and stacks that come.
ghost use Rattle.std.specs.Prelude.{◌≡◌, ◌+◌, ◌-◌, ◌≤◌, length};
ghost use Rattle.spec_cache.specs.Cache.{IsCache};
ghost use Rattle.xl_regions.specs.Pairs.{numbers};
ghost use Rattle.spec_standing.specs.Change.{with_stacks, without_stacks};
ghost use Rattle.xl_pool.specs.Steps.{AreComing, AreGoing};

use crate::pool::Pool;
use xl_cache::Cache;
use xl_doc::NodeId;

/// Drops the slots of stacks into the pool.
pub fn drop_stacks(cache: &mut Cache, stacks: &[NodeId], pool: &mut Pool)
    requires going { AreGoing (numbers stacks.now) cache.old }
    requires canvas { IsCache pool.old.width pool.old.height cache.old }
    requires room { pool.old.count + length stacks.now ≤ pool.old.room }
    ensures cache { cache.new ≡ without_stacks (numbers stacks.now) cache.old }
    ensures pool { pool.new ≡ record pool.old { count = pool.old.count + length stacks.now } }
{
    for stack in stacks {
        match cache.drop_node(*stack) {
            Some(slots) => pool.put(slots),
            None => unreachable!(),
        }
    }
}

/// Gives blank slots of the pool to stacks.
pub fn add_stacks(cache: &mut Cache, stacks: &[NodeId], pool: &mut Pool, version: u32)
    requires coming { AreComing (numbers stacks.now) pool.old.width pool.old.height version
        cache.old }
    requires enough { length stacks.now ≤ pool.old.count }
    ensures cache { cache.new ≡ with_stacks (numbers stacks.now) pool.old.width pool.old.height
        version cache.old }
    ensures pool { pool.new ≡ record pool.old { count = pool.old.count - length stacks.now } }
{
    for stack in stacks {
        cache.add_node(*stack, pool.take(), version);
    }
}
