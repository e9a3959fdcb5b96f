//! What a walk along an order keeps.
use xl_judging::Versions;
use xl_standing::Standing;

/// What stands at a place of the order.
#[derive(Drop)]
pub(crate) struct Walk {
    pub(crate) standing: Standing,
    pub(crate) versions: Versions,
    // How many calls each session has made, and the version that it has seen.
    pub(crate) made: [u32; 8],
    pub(crate) seen: [u32; 8],
    // The version of the save that is out.
    pub(crate) out: u32,
}
