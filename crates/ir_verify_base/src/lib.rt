//! The inputs of the verifier's rules, and the rules on an operation's own form, its types and its memrefs.
#![tactic(auto)]

pub mod fits;
pub mod memref_rules;
pub mod node;
pub mod shapes;
pub mod type_rules;
pub mod types;

pub use listeners_support::{events, fact, fact_table, op_context, properties, store};
