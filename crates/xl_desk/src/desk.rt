//! Desks, at which sessions make their calls.
ghost use Rattle.std.specs.Prelude.{◌≡◌, [], IfOk, IfErr};

use std::alloc::{AllocFailed, Global};
use xl_compose::Picture;
use xl_filters::Chest;

/// What a session brings to its calls: its filters, and the room for the tile that it is handed.
#[derive(Drop)]
pub struct Desk {
    pub chest: Chest,
    pub out: Picture,
}

impl Desk {
    /// A desk with these filters, which come back where memory runs out.
    pub fn new(alloc: Global, chest: Chest) -> Result<Desk, AllocFailed<Chest>>
        ensures chest { IfOk result (λ desk. desk.chest ≡ chest) }
        ensures out { IfOk result (λ desk. desk.out ≡ []) }
        ensures back { IfErr result (λ failed. failed.value ≡ chest) }
    {
        match Picture::blank(alloc) {
            Ok(out) => Ok(Desk { chest, out }),
            Err(_) => Err(AllocFailed { value: chest }),
        }
    }
}
