//! The nodes of the use lists.

pub use ir_store_arena::RegionData;

/// A node of a use list: the slot of the operation, and the index of the operand.
#[derive(Clone, Copy, Drop)]
pub struct UseNode {
    pub row: u32,
    pub place: u32,
}
