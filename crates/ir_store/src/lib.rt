//! The module under edits. Each edit changes the module's tree exactly as the function of the same name in `ir_tree`
//! does, or refuses with the highest-priority reason. Operations are in slots that are linked by block, and operands
//! are linked by the value that they use, so an edit takes a few steps in a module of any size.
#![tactic(auto)]

mod copy;
mod dominance;
mod dominance_checks;
mod entry;
mod grow;
mod load;
mod neighbours;
pub mod op_record;
mod outer;
mod outside;
mod position;
mod preorder;
mod put;
mod release;
mod shift;
pub mod store;
mod using;
mod walk;

pub use ir_store_reads::trees::place;
pub use ir_store_reads::{node, result_uses, row, trees, types, uses};
