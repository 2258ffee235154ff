//! Matches a user pattern at an operation of a module, and applies it.
//!
//! `match_ops`, `typing` and `constants` match the left side: its operations, types and constants. `plan` computes the
//! rewrite plan (`rewrite_plan`) before anything is interned. `apply` makes its edits through the rewriter.
//!
//! A pattern numbers its values. Such a number is called a place here, and a match binds a value at each place.
#![tactic(auto)]

pub mod apply;
mod apply_plan;
pub mod build_laws;
mod building;
mod constants;
mod edits;
mod intern;
pub mod laws;
pub mod match_ops;
pub mod match_pattern;
pub mod mismatch;
pub mod names;
mod operations;
pub mod pattern_numbers;
mod places;
pub mod plan;
pub mod rewrite_plan;
pub mod types;
mod typing;
mod verified_operands;

pub use patterns_matchers::{constants as known, nodes, predicates};
