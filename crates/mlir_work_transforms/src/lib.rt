//! The commands that transform a module, apart from canonicalization (crate `greedy`).
//!
//! - `sweep` erases the private symbols that nothing reaches.
//! - `convert` converts to the target of the clauses, and can trace each applied rule.
//! - `apply` and `apply_pattern` apply one rule or user pattern at an operation; `at` canonicalizes one operation.
//! - `rewrite` and `rule_list` parse lists of rules and user patterns; `transform` rewrites by them or by the rules of
//!   canonicalization. It can trace each rewrite, or count which rules and patterns fired.
//! - `why` says why rules don't match at an operation; `unproved` lists the patterns that no check proves for a
//!   module.
#![tactic(auto)]

pub mod apply;
pub mod apply_pattern;
pub mod at;
pub mod convert;
mod convert_lines;
mod fired_lines;
pub mod laws;
pub mod named_patterns;
mod names;
mod narrow;
mod pattern_sites;
pub mod rewrite;
pub mod rewrite_lines;
pub mod rule_choice;
pub mod rule_items;
pub mod rule_list;
mod rules;
pub mod sweep;
mod target;
pub mod trace_form;
mod trace_lines;
pub mod transform;
pub mod unproved;
pub mod why;
mod why_numbers;
pub mod why_pattern;
mod why_types;
mod why_values;

pub use conversion::{fault, rewriter, tracer};
pub use greedy;
pub use mlir_work_registry as registry;
