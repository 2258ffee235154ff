//! The soundness of each rewrite rule: one record a rule has everything that is proved of the rule. The module
//! `yield_laws` states how many operands the terminators of verified loops and choices have.
#![tactic(auto)]

pub mod laws;
pub mod yield_laws;

pub use patterns_base as base;
