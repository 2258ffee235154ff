//! Appends an operation to a list.
ghost use Rattle.std.specs.Prelude.{◌≡◌, OnOk, true};
ghost use Rattle.greedy.specs.Adding.{Adds};
ghost use Rattle.greedy.specs.LocalContext.{is_listed};

use ir_event::types::ids::OpId;
use std::alloc::AllocError;

/// Appends `op` unless it is already the last entry of the list.
pub(crate) fn push(ops: &mut Vec<OpId>, op: OpId) -> Result<(), AllocError>
    ensures { OnOk result (Adds (λ x. x ≡ op) ops.old.items ops.new.items) }
{
    if is_last(ops, op) {
        return Ok(());
    }
    match ops.push(op) {
        Ok(()) => Ok(()),
        Err(_) => Err(AllocError),
    }
}

/// Returns whether `op` is the last entry of the list.
pub(crate) fn is_last(ops: &[OpId], op: OpId) -> bool
    ensures { result ≡ true → is_listed op ops.now ≡ true }
{
    match ops.last() {
        Some(last) => *last == op,
        None => false,
    }
}
