//! A document with its locks, colours, properties and texts of names, as a line of JSON.
#![tactic(auto)]

/// The kind of property that holds parasites: data that programs attach to an image, a layer or a channel under names
/// of their own. It is kept as it was read.
pub const PARASITES: u32 = 21;
