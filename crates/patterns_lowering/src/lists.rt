//! Lists of values and of edits.
ghost use Rattle.std.specs.Prelude.{◌≡◌, ◌≤◌, ◌+◌, IfOk, OnOk, List, ◌∷◌, [], ◌++◌, length, map, Bool};
ghost use Rattle.ir_event.specs.trees.declared.value.Value.{Value as TreeValue};
ghost use Rattle.ir_event.specs.trees.Limits.{most_next};
ghost use Rattle.patterns_soundness.specs.base.Makes.{results_from};
ghost use Rattle.patterns_soundness.specs.base.Lowering.{crossed, marked};
ghost use Rattle.patterns_lowering.specs.Numbers.{bridge_edits, cast_op, replace_edits};

use ir_event::trees::place::Place;
use ir_event::trees::tree::TreeOp;
use ir_event::trees::value::Value;
use ir_event::types::ids::{OpId, TypeId};
use ir_event::types::word::Word;
use patterns_soundness::base::edit::Edit;
use std::alloc::{AllocError, Global};

/// Appends an edit.
pub(crate) fn push_edit(edits: &mut Vec<Edit>, edit: Edit) -> Result<(), AllocError>
    ensures { OnOk result (edits.new.items ≡ edits.old.items ++ edit ∷ []) }
{
    edits.push(edit)?;
    Ok(())
}

/// Returns a cast of some values to a type.
pub(crate) fn cast(alloc: Global, ty: TypeId, operands: Vec<Value>) -> Result<TreeOp, AllocError>
    ensures { IfOk result (λ o. o ≡ cast_op ty operands.items) }
{
    let mut results = Vec::new(alloc);
    results.push(ty)?;
    Ok(TreeOp {
        id: OpId::new(0),
        name: Word::BuiltinUnrealizedConversionCast.id(),
        operands,
        results,
        props: Vec::new(alloc),
        attrs: Vec::new(alloc),
        regions: Vec::new(alloc),
    })
}

/// Appends the insertion of a cast of a value to a type, if the value is marked.
fn push_bridge(
    alloc: Global,
    edits: &mut Vec<Edit>,
    ty: TypeId,
    place: &Place,
    mark: bool,
    value: Value,
) -> Result<(), AllocError>
    ensures { OnOk result ((ms : List Bool) (vs : List TreeValue)
        → edits.new.items ++ bridge_edits ty place.now ms vs ≡ edits.old.items
        ++ bridge_edits ty place.now (mark ∷ ms) (value ∷ vs)) }
{
    if !mark {
        return Ok(());
    }
    let mut operands = Vec::new(alloc);
    operands.push(value)?;
    let op = cast(alloc, ty, operands)?;
    push_edit(edits, Edit::Make { place: *place, op })
}

/// Appends the insertion of casts of the marked values to a type.
pub(crate) fn push_bridges(
    alloc: Global,
    edits: &mut Vec<Edit>,
    ty: TypeId,
    place: &Place,
    marks: &[bool],
    values: &[Value],
) -> Result<(), AllocError>
    ensures { OnOk result (edits.new.items ≡ edits.old.items ++ bridge_edits ty place.now marks.now values.now) }
{
    let mut left = marks;
    let mut right = values;
    'marks: while let [mark, more @ ..] = left {
        let [value, tail @ ..] = right else {
            return Ok(());
        };
        push_bridge(alloc, edits, ty, place, *mark, *value)?;
        left = more;
        right = tail;
    }
    Ok(())
}

/// Appends the replacement of values by others, one by one.
pub(crate) fn push_replaced(
    edits: &mut Vec<Edit>,
    olds: &[Value],
    news: &[Value],
) -> Result<(), AllocError>
    ensures { OnOk result (edits.new.items ≡ edits.old.items ++ replace_edits olds.now news.now) }
{
    let mut left = olds;
    let mut right = news;
    'values: while let [old, more @ ..] = left {
        let [new, tail @ ..] = right else {
            return Ok(());
        };
        push_edit(
            edits,
            Edit::Replace {
                old: *old,
                new: *new,
            },
        )?;
        left = more;
        right = tail;
    }
    Ok(())
}

/// Appends a value, or the cast with id `next` if the value is marked. Returns the next id after that.
fn cross(values: &mut Vec<Value>, next: u32, mark: bool, value: Value) -> Result<u32, AllocError>
    requires { next + marked (mark ∷ []) ≤ most_next }
    ensures values { IfOk result (λ n. (ms : List Bool) (vs : List TreeValue)
        → values.new.items ++ crossed n ms vs ≡ values.old.items ++ crossed next (mark ∷ ms) (value ∷ vs)) }
    ensures next { IfOk result (λ n. (ms : List Bool) → n + marked ms ≡ next + marked (mark ∷ ms)) }
{
    if !mark {
        values.push(value)?;
        return Ok(next);
    }
    values.push(Value::Result(OpId::new(next), 0))?;
    Ok(next + 1)
}

/// Returns the values, with the marked ones replaced by their casts, whose ids begin with `first`.
pub(crate) fn crossed(
    alloc: Global,
    first: u32,
    marks: &[bool],
    values: &[Value],
) -> Result<Vec<Value>, AllocError>
    requires { first + marked marks.now ≤ most_next }
    ensures { IfOk result (λ vs. vs.items ≡ crossed first marks.now values.now) }
{
    let mut casts = Vec::new(alloc);
    let mut next = first;
    let mut left = marks;
    let mut right = values;
    'marks: while let [mark, more @ ..] = left {
        let [value, tail @ ..] = right else {
            return Ok(casts);
        };
        next = cross(&mut casts, next, *mark, *value)?;
        left = more;
        right = tail;
    }
    Ok(casts)
}

/// Returns the results of an operation, one for each type.
pub(crate) fn results_of(
    alloc: Global,
    op: OpId,
    types: &[TypeId],
) -> Result<Vec<Value>, AllocError>
    requires { length types.now ≤ 256 }
    ensures { IfOk result (λ vs. vs.items ≡ results_from op 0 types.now) }
{
    let mut values = Vec::new(alloc);
    let mut number = 0;
    let mut rest = types;
    'types: while let [_, tail @ ..] = rest {
        values.push(Value::Result(op, number))?;
        number += 1;
        rest = tail;
    }
    Ok(values)
}
