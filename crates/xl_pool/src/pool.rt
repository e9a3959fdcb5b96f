//! Slots that no stack has.
ghost use Rattle.std.specs.Prelude.{◌≡◌, ◌+◌, ◌-◌, ◌<◌, ◌≤◌, IfOk};
ghost use Rattle.spec_document.specs.Limits.{IsSide};
ghost use Rattle.xl_pool.specs.Pool.{IsPoolOf};
ghost use Rattle.spec_cache.specs.declared.TheConstants.{MAX_STACKS};

use std::alloc::{AllocError, Global};
use std::marker::Model;
use xl_cache::Slots;

/// Slots for one canvas that no stack has. They serve any stack.
#[derive(Drop)]
pub struct Pool {
    width: u32,
    height: u32,
    each: Vec<Slots>,
}

impl Model for Pool {
    ghost use Rattle.std.specs.Prelude.{length, vec_capacity};
    ghost use Rattle.xl_pool.specs.Pool as pool;
    ghost use Rattle.xl_pool.specs.Pool.{HaveSides};

    ghost Value = { pool.Pool };

    ghost view = { λ p. record { width = p.width; height = p.height; count = length p.each.items; room = vec_capacity p.each } };

    ghost invariant = { λ p. HaveSides p.width p.height p.each.items };
}

impl Pool {
    /// So many slots, and room for more.
    pub fn new(
        alloc: Global,
        width: u32,
        height: u32,
        count: usize,
        more: usize,
    ) -> Result<Pool, AllocError>
        requires width { IsSide width }
        requires height { IsSide height }
        requires few { count ≤ MAX_STACKS }
        requires few_more { more ≤ MAX_STACKS }
        ensures { IfOk result (IsPoolOf width height count more) }
    {
        let mut each = Vec::with_capacity(alloc, count + more)?;
        for _i in 0..count {
            each.push_reserved(Slots::new(alloc, width, height)?);
        }
        Ok(Pool {
            width,
            height,
            each,
        })
    }

    /// Keeps slots, in room that is there.
    pub fn put(&mut self, slots: Slots)
        requires width { slots.width ≡ self.old.width }
        requires height { slots.height ≡ self.old.height }
        requires room { self.old.count < self.old.room }
        ensures { self.new ≡ record self.old { count = self.old.count + 1 } }
    {
        self.each.push_reserved(slots);
    }

    /// Hands slots out.
    pub fn take(&mut self) -> Slots
        requires some { 1 ≤ self.old.count }
        ensures width { result.width ≡ self.old.width }
        ensures height { result.height ≡ self.old.height }
        ensures rest { self.new ≡ record self.old { count = self.old.count - 1 } }
    {
        match self.each.pop() {
            Some(slots) => slots,
            None => unreachable!(),
        }
    }
}
