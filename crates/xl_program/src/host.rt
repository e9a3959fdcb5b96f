//! What a run is made on.
use std::alloc::Global;

/// The runtime, the memory, and the gate that sessions and workers pass on their way.
#[derive(Drop)]
pub struct Host<'a, R, G> {
    pub rt: &'a R,
    pub alloc: Global,
    pub gate: &'a G,
}
