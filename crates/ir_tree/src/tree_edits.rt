//! The edits of a tree. Each is a plain program that rebuilds the tree.
ghost use Rattle.std.specs.Prelude.{◌≡◌, IfOk, OnOk, map, eqb, position};
ghost use Rattle.ir_tree.specs.Tree.{head, ops_of};
ghost use Rattle.ir_tree.specs.Edits.{at, put_operand, put_value, put_values, with_operand, with_value_replaced};
ghost use Rattle.ir_tree.specs.Places.{put_here, put as put_of, put_in, put_before as before_of, drop_op, without as without_of, shifted as shifted_of};

use crate::copy::copy;
use crate::edits::{HeadEdit, ListEdit, NoEdit, edited};
use crate::find::find;
use crate::place::Place;
use crate::tree::TreeOp;
use crate::uses::is_same;
use crate::value::Value;
use ir_types::ids::OpId;
use std::alloc::{AllocError, Global};

/// A value to set as an operand of an operation.
#[derive(Drop)]
struct NewOperand {
    op: OpId,
    place: usize,
    value: Value,
}

impl HeadEdit for NewOperand {
    ghost gives = { λ e. at e.op (put_operand e.place e.value) };

    /// Sets the operand, if this is the operation and it has the operand.
    fn apply(&self, op: &mut TreeOp) -> Result<(), AllocError> {
        if op.id == self.op && self.place < op.operands.len() {
            op.operands[self.place] = self.value;
        }
        Ok(())
    }
}

/// Returns the tree with `value` as operand `place` of an operation. If there is no such operand, an unchanged copy.
#[tactic(auto, using(crate::proofs::Edited::heads_edited))]
pub fn with_operand_set(
    alloc: Global,
    root: &TreeOp,
    op: OpId,
    place: usize,
    value: &Value,
) -> Result<TreeOp, AllocError>
    ensures { IfOk result (λ t. t ≡ with_operand op place value.now root.now) }
{
    let edit = NewOperand {
        op,
        place,
        value: *value,
    };
    edited(alloc, root, &edit, &NoEdit)
}

/// A value to replace another.
#[derive(Drop)]
struct Replacement {
    old: Value,
    new: Value,
}

impl HeadEdit for Replacement {
    ghost gives = { λ e. put_values e.old e.new };

    /// Replaces the old value among the operands of the operation.
    fn apply(&self, op: &mut TreeOp) -> Result<(), AllocError> {
        replace_in(&mut op.operands, &self.old, &self.new);
        Ok(())
    }
}

/// Replaces all occurrences of a value in a list by another.
fn replace_in(values: &mut [Value], old: &Value, new: &Value)
    ensures { values.new ≡ map (put_value old.now new.now) values.old }
{
    for value in values {
        *value = exchanged(value, old, new);
    }
}

/// Returns the new value for the old one, and any other value unchanged.
fn exchanged(value: &Value, old: &Value, new: &Value) -> Value
    ensures { result ≡ put_value old.now new.now value.now }
{
    if is_same(old, value) { *new } else { *value }
}

/// Returns the tree with all uses of `old` replaced by `new`.
#[tactic(auto, using(crate::proofs::Edited::heads_edited))]
pub fn with_replaced(
    alloc: Global,
    root: &TreeOp,
    old: &Value,
    new: &Value,
) -> Result<TreeOp, AllocError>
    ensures { IfOk result (λ t. t ≡ with_value_replaced old.now new.now root.now) }
{
    let edit = Replacement {
        old: *old,
        new: *new,
    };
    edited(alloc, root, &edit, &NoEdit)
}

/// An operation to insert at a place.
#[derive(Drop)]
struct Insertion<'a> {
    place: Place,
    op: &'a TreeOp,
}

impl<'a> ListEdit for Insertion<'a> {
    ghost gives = { λ e. put_here e.place e.op.now };

    /// Inserts a copy of the operation, if this is the list of the place.
    fn apply(&self, owner: OpId, region: usize, ops: &mut Vec<TreeOp>) -> Result<(), AllocError> {
        if owner == self.place.parent && region == self.place.region as usize {
            push_among(ops, self.place.before, self.op)?;
        }
        Ok(())
    }
}

/// Inserts a copy of an operation before another, or at the end.
#[tactic(auto, using(crate::proofs::Lists::put_last_of))]
fn push_among(ops: &mut Vec<TreeOp>, before: Option<OpId>, op: &TreeOp) -> Result<(), AllocError>
    ensures { OnOk result (ops_of ops.new.items ≡ put_in before op.now (ops_of ops.old.items)) }
{
    match before {
        None => {
            ops.push(copy(op)?)?;
            Ok(())
        }
        Some(id) => push_before(ops, id, op),
    }
}

/// Inserts a copy of an operation before the first one with an id, if there is one.
fn push_before(ops: &mut Vec<TreeOp>, id: OpId, op: &TreeOp) -> Result<(), AllocError>
    ensures { OnOk result (ops_of ops.new.items ≡ before_of id op.now (ops_of ops.old.items)) }
{
    if let Some(index) = index_of(ops, id) {
        ops.insert(index, copy(op)?)?;
    }
    Ok(())
}

/// Returns the index of the first operation with an id, or `None` if there is none.
fn index_of(ops: &Vec<TreeOp>, id: OpId) -> Option<usize>
    ensures { result ≡ position (λ o. eqb (head o).id id) ops.now.items }
{
    ops.iter().position(|op| op.id == id)
}

/// Returns the tree with a copy of `op`, and everything inside it, inserted at a place. If there is no such place, an
/// unchanged copy.
#[tactic(auto, using(crate::proofs::Edited::lists_edited))]
pub fn with_inserted(
    alloc: Global,
    root: &TreeOp,
    place: &Place,
    op: &TreeOp,
) -> Result<TreeOp, AllocError>
    ensures { IfOk result (λ t. t ≡ put_of place.now op.now root.now) }
{
    let edit = Insertion { place: *place, op };
    edited(alloc, root, &NoEdit, &edit)
}

/// An operation to remove from its list.
#[derive(Drop)]
struct Removal {
    op: OpId,
}

impl ListEdit for Removal {
    ghost gives = { λ e p r os. drop_op e.op os };

    /// Removes each operation with the id from the list.
    fn apply(&self, _owner: OpId, _region: usize, ops: &mut Vec<TreeOp>) -> Result<(), AllocError> {
        ops.retain(|op| op.id != self.op);
        Ok(())
    }
}

/// Returns the tree without an operation and everything inside it. The root is never removed.
#[tactic(auto, using(crate::proofs::Edited::lists_edited))]
pub fn with_erased(alloc: Global, root: &TreeOp, op: OpId) -> Result<TreeOp, AllocError>
    ensures { IfOk result (λ t. t ≡ without_of op root.now) }
{
    edited(alloc, root, &NoEdit, &Removal { op })
}

/// Returns the tree with an operation, and everything inside it, moved to a place.
pub fn with_moved(
    alloc: Global,
    root: &TreeOp,
    op: OpId,
    place: &Place,
) -> Result<TreeOp, AllocError>
    ensures { IfOk result (λ t. t ≡ shifted_of op place.now root.now) }
{
    let rest = with_erased(alloc, root, op)?;
    match find(root, op) {
        None => Ok(rest),
        Some(moved) => with_inserted(alloc, &rest, place, moved),
    }
}
