//! The words, names and types of a user pattern, from which `user_patterns_sema` builds the pattern.
#![tactic(auto)]

pub mod names;
pub mod types;
pub mod words;
