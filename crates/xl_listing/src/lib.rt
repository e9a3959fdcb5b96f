//! A document with its locks, colours, properties and texts of names, as a line of JSON.
#![tactic(auto)]

mod document_line;
mod labels;
mod parasites;

pub use document_line::listing;
