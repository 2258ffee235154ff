//! The semantics of operations on integers: a constant folder, the registry of the operation table, and theorems of
//! arithmetic for rewrite rules.
#![tactic(auto)]

pub mod arithmetic;
pub mod fold;
pub mod fold_laws;
mod known;
pub mod laws;
pub mod operations;
pub mod tables;
