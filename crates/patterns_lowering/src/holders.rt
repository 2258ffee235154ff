//! Placeholders for the arguments of a loop while its operations are moved: casts without operands.
ghost use Rattle.std.specs.Prelude.{◌≡◌, ◌≤◌, ◌+◌, IfOk, OnOk, ◌++◌, ◌∷◌, [], length};
ghost use Rattle.ir_event.specs.trees.Limits.{most_next};
ghost use Rattle.patterns_lowering.specs.Numbers.{erase_edits, first_results, holder_edits, numbers_from};

use crate::lists::{cast, push_edit};
use ir_event::trees::place::Place;
use ir_event::trees::value::Value;
use ir_event::types::ids::{OpId, TypeId};
use patterns_soundness::base::edit::Edit;
use std::alloc::{AllocError, Global};

/// Returns consecutive ids from `first` on, one for each type.
pub(crate) fn ids_from(alloc: Global, first: u32, types: &[TypeId]) -> Result<Vec<OpId>, AllocError>
    requires { first + length types.now ≤ most_next }
    ensures { IfOk result (λ xs. xs.items ≡ numbers_from first types.now) }
{
    let mut ids = Vec::new(alloc);
    let mut next = first;
    let mut rest = types;
    'types: while let [_, tail @ ..] = rest {
        ids.push(OpId::new(next))?;
        next += 1;
        rest = tail;
    }
    Ok(ids)
}

/// Returns the first results of some operations.
pub(crate) fn first_results(alloc: Global, ops: &[OpId]) -> Result<Vec<Value>, AllocError>
    ensures { IfOk result (λ vs. vs.items ≡ first_results ops.now) }
{
    let mut values = Vec::new(alloc);
    let mut rest = ops;
    'ops: while let [op, tail @ ..] = rest {
        values.push(Value::Result(*op, 0))?;
        rest = tail;
    }
    Ok(values)
}

/// Appends the insertion of a cast without operands to a type.
fn push_holder(
    alloc: Global,
    edits: &mut Vec<Edit>,
    place: &Place,
    ty: TypeId,
) -> Result<(), AllocError>
    ensures { OnOk result (edits.new.items ≡ edits.old.items ++ holder_edits place.now (ty ∷ [])) }
{
    let op = cast(alloc, ty, Vec::new(alloc))?;
    push_edit(edits, Edit::Make { place: *place, op })
}

/// Appends the insertion of a cast without operands to each type.
pub(crate) fn push_holders(
    alloc: Global,
    edits: &mut Vec<Edit>,
    place: &Place,
    types: &[TypeId],
) -> Result<(), AllocError>
    ensures { OnOk result (edits.new.items ≡ edits.old.items ++ holder_edits place.now types.now) }
{
    let mut rest = types;
    'types: while let [ty, tail @ ..] = rest {
        push_holder(alloc, edits, place, *ty)?;
        rest = tail;
    }
    Ok(())
}

/// Appends the erasure of some operations.
pub(crate) fn push_erased(edits: &mut Vec<Edit>, ops: &[OpId]) -> Result<(), AllocError>
    ensures { OnOk result (edits.new.items ≡ edits.old.items ++ erase_edits ops.now) }
{
    let mut rest = ops;
    'ops: while let [op, tail @ ..] = rest {
        push_edit(edits, Edit::Erase { op: *op })?;
        rest = tail;
    }
    Ok(())
}
