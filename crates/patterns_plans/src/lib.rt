//! Plans the rewrite rules that read only the head of their operation, from what the store shows of it. Nothing is
//! interned for a plan.
#![tactic(auto)]

mod casts;
mod combined;
mod constant;
mod expanded;
mod fold_to_operand;
mod in_place;
pub mod plan_rule;
pub mod quick_checks;
pub mod reason;

pub use patterns_base as base;
pub use patterns_matchers as reads;
