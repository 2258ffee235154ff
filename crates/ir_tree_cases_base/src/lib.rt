//! Trees and their parts as words of a line, for the test programs.
#![tactic(auto)]

pub mod build;
pub mod words;
pub mod written;
