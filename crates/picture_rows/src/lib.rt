//! Tests of what makes pictures, from rows of pixels up to the pictures that are kept.
#![tactic(auto)]

#[cfg(test)]
mod blank;
#[cfg(test)]
mod filters;
#[cfg(test)]
mod hierarchies;
#[cfg(test)]
mod in_runs;
#[cfg(test)]
mod jobs;
#[cfg(test)]
mod kept;
#[cfg(test)]
mod planes;
#[cfg(test)]
mod rows;
#[cfg(test)]
mod sheets;
