//! How many filters the sessions have.
ghost use Rattle.std.specs.Prelude.{◌≡◌, ◌<◌, ◌^◌, length, map, IfOk};
ghost use Rattle.std.specs.List.{AllByRecursion};
ghost use Rattle.xl_filters.specs.Chests.{states_of};

use std::alloc::{AllocError, Global};
use xl_filters::PointFilter;

/// How many filters each session has.
pub fn filter_counts(
    alloc: Global,
    chest: &[Vec<Box<dyn PointFilter + Send>>],
) -> Result<Vec<u32>, AllocError>
    requires { AllByRecursion (λ boxes. length boxes.items < 2 ^ 32) chest.now }
    ensures { IfOk result (λ counts. counts.items ≡ map length
        (states_of (λ b. state b) chest.now)) }
{
    let mut counts = Vec::with_capacity(alloc, chest.len())?;
    for boxes in chest {
        counts.push(boxes.len() as u32)?;
    }
    Ok(counts)
}
