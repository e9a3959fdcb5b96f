//! The printed text of a run.
#![tactic(auto)]

/// An entry of a history, as the order line names it. `end` marks the end of a save.
#[derive(Clone, Copy, PartialEq, Eq)]
pub struct OrderWord {
    pub session: u8,
    pub index: u32,
    pub end: bool,
}
