//! What stays the same while a session plays.
use std::alloc::Global;
use xl_ports::Shelf;
use xl_studio::Studio;

/// What a session plays with: the runtime and the memory, the studio, the gate that it passes before and after each
/// call, and its number.
#[derive(Drop)]
pub struct Setting<'a, W, D: Shelf, G> {
    pub rt: &'a W,
    pub alloc: Global,
    pub studio: &'a Studio<D>,
    pub gate: &'a G,
    pub session: u8,
}
