//! The row of a slot.

use crate::types::ids::{NameId, OpId};

/// The kind of a slot, with the key of its data.
#[derive(Clone, Copy, Drop)]
pub enum SlotKind {
    /// A free slot, with the next slot of the free list.
    Free(u32),
    /// The head of a block, with the slot of the parent operation and the index of the region.
    BlockHead { owner: u32, region: u32 },
    /// An operation with few operands and results, without entries and regions, by its key.
    InlineOp(u32),
    /// An operation without entries and regions, by its key.
    ListOp(u32),
    /// An operation without regions, by its key.
    OpWithEntries(u32),
    /// Any operation, by its key.
    FullOp(u32),
}

/// A slot: an operation of the module, a held operation, the head of a block, or a free slot.
#[derive(Clone, Copy, Drop)]
pub struct Slot {
    /// Whether the slot has an operation.
    pub(crate) used: bool,
    /// Whether the operation is in the module.
    pub(crate) live: bool,
    pub(crate) id: OpId,
    pub(crate) name: NameId,
    /// The use node of the first operand. The nodes of the other operands follow it.
    pub(crate) uses: u32,
    /// The head of the use list of the first result, or of a block's first argument. The heads of the others follow it.
    pub(crate) values: u32,
    pub(crate) held: SlotKind,
}
