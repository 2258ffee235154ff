//! The verifier: the rules that the operations of a module break.
//!
//! `check` checks one operation, `verdict` gives a verdict on it, and `diagnostics` is the listener. The rules are in
//! `block_rules` and `place_rules`, and in the crate `ir_verify_base`.
#![tactic(auto)]

mod block_rules;
pub mod check;
pub mod diagnostics;
pub mod finding;
pub mod laws;
mod place_rules;
mod report;
pub mod rules;
pub mod verdict;
