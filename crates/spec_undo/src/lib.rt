//! How much of a document's pixels a change touches, counted in tiles.
#![tactic(auto)]
