//! Semantic analysis of user patterns: builds a pattern from the parts of its text, resolves names and infers types.
//!
//! `terms`, `numbers` and `conditions` analyze the parts. `sema_result` tests the types and builds the pattern.
#![tactic(auto)]

pub mod analyze;
mod conditions;
mod numbers;
mod sema_result;
mod state;
mod terms;
