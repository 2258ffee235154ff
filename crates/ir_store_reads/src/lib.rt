//! Reads of the slots of a module under edits.
#![tactic(auto)]

pub mod copy;
pub mod depth;
pub mod neighbours;
pub mod node;
pub mod position;
pub mod result_uses;
pub mod spare;
pub mod users;
pub mod uses;
pub mod walk;

pub use ir_store_slots::{
    Draft, IdTable, LinkedLists, OrderedLists, Slots, capacity, entry, find, grow, insertion_point,
    marks, release, row, trees, types, use_lists,
};
