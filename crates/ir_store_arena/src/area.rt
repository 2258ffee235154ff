//! The regions of an operation in a slot.
use ir_tree_laws::types::ids::TypeId;

/// A region of an operation in a slot. The operations of a block are the items of the list of its head.
#[derive(Drop)]
pub enum RegionData {
    Empty,
    Block { args: Vec<TypeId>, head: usize },
}
