//! Checks whether the new side of a rewrite pattern refines its old side, for all values at all widths up to a limit.
//!
//! `step` and `evaluation` define what a pattern computes, `sides` a pattern at given widths, `check` the check itself.
//! `claim` and `search` search all lists of values for a counterexample to a claim.
#![tactic(auto)]

pub mod check;
pub mod claim;
mod claims;
mod evaluation;
pub mod family;
pub mod laws;
pub mod search;
pub mod search_laws;
pub mod sides;
pub mod step;
pub mod steps;
pub mod verdict;
