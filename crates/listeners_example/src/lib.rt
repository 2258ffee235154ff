//! An example of a user-defined listener: it counts the additions of a module.
#![tactic(auto)]

pub mod additions;
