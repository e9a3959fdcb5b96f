//! A core, and a studio over one, by documents that are read from bytes: which answers calls give, which slots they
//! mark, what becomes of jobs that are out, sessions and workers beside each other, a window that is shown twice, and
//! what a seed makes.
#![tactic(auto)]

#[cfg(test)]
mod again;
#[cfg(test)]
mod bench;
#[cfg(test)]
mod beside;
#[cfg(test)]
mod calls;
#[cfg(test)]
mod changes;
#[cfg(test)]
mod coder;
#[cfg(test)]
mod damage;
#[cfg(test)]
mod edits;
#[cfg(test)]
mod gates;
#[cfg(test)]
mod jobs;
#[cfg(test)]
mod kept;
#[cfg(test)]
mod late;
#[cfg(test)]
mod lists;
#[cfg(test)]
mod made;
#[cfg(test)]
mod opened;
#[cfg(test)]
mod played;
#[cfg(test)]
mod refreshed;
#[cfg(test)]
mod row;
#[cfg(test)]
mod step;
#[cfg(test)]
mod studio;
#[cfg(test)]
mod twice;
#[cfg(test)]
mod verdicts;
#[cfg(test)]
mod worker;
