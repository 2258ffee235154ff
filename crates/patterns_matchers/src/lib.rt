//! Reads what the rewrite rules need of a module: operations, whether they are verified, constants, names, types,
//! predicates, and the defining operations of values.
#![tactic(auto)]

pub mod constants;
pub mod defining_ops;
pub mod eligibility;
pub mod nodes;
pub mod op_names;
pub mod plan;
pub mod predicates;
pub mod shapes;
mod trivially_verified;
pub mod types;
pub mod verified;

pub use patterns_base::rule;
