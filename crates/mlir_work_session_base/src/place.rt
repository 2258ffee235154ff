//! Places of operations.
use ir_event::types::ids::OpId;

/// The place of an operation: its parent, the number of the region in the parent, and the index in the block.
#[derive(Clone, Copy)]
pub struct Place {
    pub parent: OpId,
    pub region: usize,
    pub index: usize,
}
