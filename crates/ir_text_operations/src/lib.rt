//! Parses operations and modules, and interns their names, types and attributes while it parses.
#![tactic(auto)]

mod dictionaries;
mod entries;
pub mod laws;
pub mod limits;
pub mod module;
pub mod op_header;
mod opening;
mod operands;
pub mod ops;
pub mod outer_names;
mod places;
mod scalar_signature;
pub mod single;
mod tail;

pub use ir_text_attributes as attributes;
