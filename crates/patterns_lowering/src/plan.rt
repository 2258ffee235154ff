//! The plans of the lowering rules. Nothing is interned for them yet.
use ir_event::trees::tree::TreeOp;
use ir_event::trees::value::Value;
use ir_event::types::ids::{OpId, TypeId};

/// An operation without the operations inside its blocks, and which of its operands and results are of type index.
#[derive(Drop)]
pub struct Indexed {
    pub op: TreeOp,
    pub index_operands: Vec<bool>,
    pub index_results: Vec<bool>,
}

/// The operations of a block that move to another block.
#[derive(Drop)]
pub struct MovedOps {
    /// The operations before the last, in order.
    pub before: Vec<OpId>,
    /// The last operation.
    pub last: OpId,
    /// The operands of the last operation.
    pub handed: Vec<Value>,
}

/// A loop, its block arguments, which of those are of type index, and the operations of its block.
#[derive(Drop)]
pub struct IndexedLoop {
    pub of: Indexed,
    pub arguments: Vec<TypeId>,
    pub index_arguments: Vec<bool>,
    pub body: MovedOps,
}

/// A choice between two blocks, and the operations of each block.
#[derive(Drop)]
pub struct IndexedChoice {
    pub of: Indexed,
    pub first: MovedOps,
    pub second: MovedOps,
}

/// The plan that lowers an operation on index.
#[derive(Drop)]
pub enum Lowering {
    /// An operation on i64, with casts around it.
    Operation(Indexed),
    /// A loop over i64, with casts around it and in its block.
    Loop(IndexedLoop),
    /// A choice with i64 results, with casts in its blocks and after it.
    Choice(IndexedChoice),
}
