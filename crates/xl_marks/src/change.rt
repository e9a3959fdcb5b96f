//! What a group of edits does to the pictures that are kept.
ghost use Rattle.std.specs.Prelude.{◌≡◌, ◌≤◌, [], IfOk};
ghost use Rattle.spec_standing.specs.Change as change;

use crate::damage::Damage;
use std::alloc::{AllocError, Global};
use std::marker::Model;
use std::mem;
use xl_cache::Cache;
use xl_doc::{Document, NodeId, know_limits};
use xl_pool::{Pool, add_stacks, drop_stacks, stacks_that_came};

/// What a group of edits does to the pictures that are kept. It can be gone along there and back, and keeps the slots
/// for the stacks that are to come.
#[derive(Drop)]
pub struct Change {
    damage: Damage,
    came: Vec<NodeId>,
    went: Vec<NodeId>,
    pool: Pool,
}

impl Model for Change {
    ghost use Rattle.std.specs.Prelude.{length};
    ghost use Rattle.xl_regions.specs.Pairs.{numbers};
    ghost use Rattle.spec_standing.specs.Change as change;
    ghost use Rattle.xl_pool.specs.Pool.{IsStocked};

    ghost Value = { change.Change };

    ghost view = { λ c. record {
      width = c.pool.width;
      height = c.pool.height;
      damage = c.damage;
      came = numbers c.came.items;
      went = numbers c.went.items;
    } };

    ghost invariant = { λ c. IsStocked (length c.came.items) (length c.went.items) c.pool };
}

impl Change {
    /// The change from one document to another, with all the memory that it takes to go there and back.
    pub fn new(
        alloc: Global,
        before: &Document,
        after: &Document,
        damage: Damage,
    ) -> Result<Change, AllocError>
        requires width { after.now.width ≡ before.now.width }
        requires height { after.now.height ≡ before.now.height }
        ensures { IfOk result (λ c. c ≡ change.change_between before.now after.now damage) }
    {
        let came = stacks_that_came(alloc, before, after)?;
        let went = stacks_that_came(alloc, after, before)?;
        let pool = Pool::new(alloc, before.width, before.height, came.len(), went.len())?;
        Ok(Change {
            damage,
            came,
            went,
            pool,
        })
    }

    /// The change from a document to one of the same canvas with the same stacks.
    pub fn of_same_stacks(
        alloc: Global,
        document: &Document,
        damage: Damage,
    ) -> Result<Change, AllocError>
        ensures { IfOk result (λ c. c ≡ record { width = document.now.width; height = document.now.height; damage = damage; came = []; went = [] }) }
    {
        know_limits(document);
        Ok(Change {
            damage,
            came: Vec::new(alloc),
            went: Vec::new(alloc),
            pool: Pool::new(alloc, document.width, document.height, 0, 0)?,
        })
    }

    /// Drops the slots of the stacks that go, marks by the damage, and adds blank slots for the stacks that come. The
    /// next time it goes the way back. No memory is taken.
    pub fn go(&mut self, cache: &mut Cache, version: u32)
        requires version { 1 ≤ version }
        requires leads { change.Leads self.old cache.old }
        ensures cache { cache.new ≡ change.gone_along self.old version cache.old }
        ensures back { self.new ≡ change.turned self.old }
    {
        drop_stacks(cache, self.went.as_slice(), &mut self.pool);
        self.damage.mark(cache, version);
        add_stacks(cache, self.came.as_slice(), &mut self.pool, version);
        mem::swap(&mut self.came, &mut self.went);
    }
}
