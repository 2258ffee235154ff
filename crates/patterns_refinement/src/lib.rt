//! The meaning of the operations of patterns, and laws that rewrites refine what a module computes.
//!
//! Each function is a law. `laws` and `refinement` are about a pattern at one match, `strict` and `passing` about
//! patterns that need no premise on poison, `proved` about patterns that hold for all outcomes, `noted` about patterns
//! that a registry notes as `holds`, `rule_refinement` about rules, and `refined` about what an observer sees.
#![tactic(auto)]

pub mod laws;
pub mod noted;
pub mod passing;
pub mod proved;
pub mod refined;
pub mod refinement;
pub mod rule_refinement;
pub mod strict;
