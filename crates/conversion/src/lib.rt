//! Dialect conversion. Rules legalize the operations of a module for a target, and casts between types are reconciled.
#![tactic(auto)]

mod bench;
mod collapsing;
mod conversion_error;
mod conversion_rewriter;
pub mod convert;
mod defining_ops;
pub mod fault;
mod legalise;
mod legalization;
pub mod match_failure;
mod parts;
mod places;
mod rules;
pub mod tracer;
mod walk;
mod why;

pub use conversion_base as reasons;
pub use conversion_base::{applied_rule, laws, names, rule, target};
pub use patterns;
pub use patterns::rewriter;
