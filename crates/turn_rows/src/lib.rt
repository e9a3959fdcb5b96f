//! Tests of the turn lock, and of shifts.
#![tactic(auto)]

#[cfg(test)]
mod shifts;
mod tally;
#[cfg(test)]
mod turns;
