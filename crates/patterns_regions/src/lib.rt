//! Plans the rules that read more of their operation than its head: dead operations, and branches and loops with known
//! conditions or bounds. Nothing is interned for a plan.
#![tactic(auto)]

pub mod block;
pub mod dead;
pub mod inlined;
pub mod plan_rule;
mod plans;
pub mod tests;
mod trip_count;

pub use patterns_plans::{reads, reason};
