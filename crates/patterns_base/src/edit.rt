//! Edits of a module as data.
use ir_tree::place::Place;
use ir_tree::tree::TreeOp;
use ir_tree::value::Value;
use ir_types::ids::{AttrId, NameId, OpId};

/// One edit of a module.
#[derive(Drop)]
pub enum Edit {
    /// Inserts an operation, with nothing inside its blocks, at a place. It gets the next free id, whatever its id is
    /// here.
    Make {
        place: Place,
        op: TreeOp,
    },
    /// Sets an operand of an operation.
    SetOperand {
        op: OpId,
        operand: u32,
        value: Value,
    },
    /// Replaces every use of `old` with `new`.
    Replace {
        old: Value,
        new: Value,
    },
    /// Moves an operation, with everything inside it, to a place.
    Move {
        op: OpId,
        place: Place,
    },
    /// Erases an operation with everything inside it.
    Erase {
        op: OpId,
    },
    /// Sets an attribute of an operation.
    SetAttr {
        op: OpId,
        key: NameId,
        attr: AttrId,
    },
}
