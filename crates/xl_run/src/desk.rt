//! The filters of the sessions, and the desk of one.
ghost use Rattle.std.specs.List.{AllByRecursion};
ghost use Rattle.std.specs.Prelude.{◌≡◌, ◌^◌, ◌<◌, Some, drop, length, map, IfOk};
ghost use Rattle.xl_filters.specs.Chests.{states};
ghost use Rattle.xl_run.specs.Filters.{boxes_at};

use std::alloc::{AllocError, Global};
use xl_core::Desk;
use xl_filters::{Chest, PointFilter};

/// A desk with these filters.
pub fn desk_of(alloc: Global, boxes: Vec<Box<dyn PointFilter + Send>>) -> Result<Desk, AllocError>
    requires { length boxes.items < 2 ^ 32 }
    ensures { IfOk result (λ desk. states (λ s. state s.filter) desk.chest
        ≡ map (λ b. Some (state b)) boxes.items) }
{
    let Ok(chest) = Chest::new(alloc, boxes) else {
        return Err(AllocError);
    };
    match Desk::new(alloc, chest) {
        Ok(desk) => Ok(desk),
        Err(_) => Err(AllocError),
    }
}

/// Takes the first list of boxes, if there is one.
pub fn first_boxes(
    alloc: Global,
    chest: &mut Vec<Vec<Box<dyn PointFilter + Send>>>,
) -> Vec<Box<dyn PointFilter + Send>>
    requires { AllByRecursion (λ boxes. length boxes.items < 2 ^ 32) chest.old.items }
    ensures first { result.items ≡ boxes_at chest.old.items 0 }
    ensures others { chest.new.items ≡ drop 1 chest.old.items }
    ensures short { length result.items < 2 ^ 32 }
    ensures others_short { AllByRecursion (λ boxes. length boxes.items < 2 ^ 32) chest.new.items }
{
    if chest.is_empty() {
        return Vec::new(alloc);
    }
    chest.remove(0)
}
