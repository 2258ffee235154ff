//! Regions with several blocks as nested scopes: definitions and theorems.
#![tactic(auto)]

pub mod conditions;
pub mod laws;
pub mod nesting;
pub mod placement;
pub mod readings;
pub mod shapes;
pub mod text_order;

pub use ir_tree as trees;
