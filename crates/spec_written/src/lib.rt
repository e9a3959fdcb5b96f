//! The least version of the format that can hold a document.
#![tactic(auto)]
