ghost use Rattle.std.specs.Prelude.{◌≡◌, ◌<◌, ◌≤◌, ◌^◌, ◌∷◌, ◌++◌, [], length, map, IsTrue, IfOk, IfErr, IfSome, Some};
ghost use Rattle.std.specs.Prelude.{None, option_map, slice_set, vec_capacity};
ghost use Rattle.spec_filters.specs.Filters.{table_of, after_use};
ghost use Rattle.spec_filters.specs.Slots.{state_at, has_slot};
ghost use Rattle.xl_filters.specs.Chests.{states};

use crate::filter::PointFilter;
use crate::table::Table;
use std::alloc::{AllocFailed, Global};

/// A filter in its slot.
#[derive(Drop)]
pub struct Slot {
    filter: Box<dyn PointFilter + Send>,
}

/// The filters of a session, each in a slot with a number of its own.
#[derive(Drop)]
pub struct Chest {
    slots: Vec<Option<Slot>>,
}

impl Slot {
    fn table(&mut self) -> Table
        ensures table { result ≡ table_of (state self.old.filter) }
        ensures after { state self.new.filter ≡ after_use (state self.old.filter) }
    {
        self.filter.table()
    }
}

impl Chest {
    /// The chest with these filters, the first in slot 0. They come back where memory runs out.
    pub fn new(
        alloc: Global,
        boxes: Vec<Box<dyn PointFilter + Send>>,
    ) -> Result<Chest, AllocFailed<Vec<Box<dyn PointFilter + Send>>>>
        requires { length boxes.items < 2 ^ 32 }
        ensures chest { IfOk result (λ c. states (λ s. state s.filter) c ≡ map (λ b. Some (state b))
            boxes.items) }
        ensures back { IfErr result (λ failed. failed.value ≡ boxes) }
    {
        match Vec::with_capacity(alloc, boxes.len()) {
            Ok(slots) => Ok(Chest::of(slots, boxes)),
            Err(_) => Err(AllocFailed { value: boxes }),
        }
    }

    // The slots have capacity for all.
    fn of(mut slots: Vec<Option<Slot>>, boxes: Vec<Box<dyn PointFilter + Send>>) -> Chest
        requires empty { slots.items ≡ [] }
        requires capacity { length boxes.items ≤ vec_capacity slots }
        ensures { states (λ s. state s.filter) result ≡ map (λ b. Some (state b)) boxes.items }
    {
        for filter in boxes {
            slots.push_reserved(Some(Slot { filter }));
        }
        Chest { slots }
    }

    /// Whether a filter is in the slot.
    pub fn has(&self, slot: u32) -> bool
        ensures { result ≡ has_slot (states (λ s. state s.filter) self.now) slot }
    {
        matches!(self.slots.get(slot as usize), Some(Some(_)))
    }

    /// The table of the filter in a slot, which was then used once more.
    pub fn table(&mut self, slot: u32) -> Table
        requires { IsTrue (has_slot (states (λ s. state s.filter) self.old) slot) }
        ensures table { IfSome (state_at (states (λ s. state s.filter) self.old) slot)
            (λ s. result ≡ table_of s) }
        ensures after { states (λ s. state s.filter) self.new
            ≡ slice_set (states (λ s. state s.filter) self.old) slot
            (option_map after_use (state_at (states (λ s. state s.filter) self.old) slot)) }
    {
        match &mut self.slots[slot as usize] {
            Some(it) => it.table(),
            None => unreachable!(),
        }
    }

    /// Drops the filter in a slot. The slot's number is not used again.
    pub fn forget(&mut self, slot: u32)
        requires { IsTrue (has_slot (states (λ s. state s.filter) self.old) slot) }
        ensures { states (λ s. state s.filter) self.new ≡ slice_set
            (states (λ s. state s.filter) self.old) slot None }
    {
        self.slots[slot as usize] = None;
    }
}
