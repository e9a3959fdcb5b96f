//! Tests of what is read from text and written as text.
#![tactic(auto)]

#[cfg(test)]
mod commands;
#[cfg(test)]
mod idle_calls;
#[cfg(test)]
mod lines;
#[cfg(test)]
mod messages;
#[cfg(test)]
mod scripts;
