//! Interning: the index of an item in a map that keeps the order of insertion.
#![tactic(auto)]

pub mod intern;
pub mod keyed;
pub mod lists;
