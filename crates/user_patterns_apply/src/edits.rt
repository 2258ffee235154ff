//! The edits of a rewrite plan.
ghost use Rattle.std.specs.Prelude.{◌≡◌, ◌++◌, [], ◌∷◌, IfErr, IfOk, OnOk};
ghost use Rattle.patterns_lowering.specs.Interning.{Added, IsCapacityRefusal};
ghost use Rattle.patterns_lowering.specs.Lists.{AllFit, edits_meaning};
ghost use Rattle.rewriter_machine.specs.Edits.{Make as Making};
ghost use Rattle.patterns.specs.Making.{EditsDenote};
ghost use Rattle.ir_event.specs.trees.declared.value.Value.TheVariants.{Result as ResultOf};
ghost use Rattle.patterns_lowering.specs.declared.edit.Edit.TheVariants.{Erase as Erasing, Replace as Replacing};
ghost use Rattle.user_patterns_apply.specs.Built.{AreMadeOf, BuiltIsOf, made_in, operand_in};
ghost use Rattle.user_patterns_apply.specs.Types.{TypeIsOf};
ghost use Rattle.user_patterns_apply.specs.Planned.{EditDenotes, makings, planned_edits};

use crate::intern::{entry, type_number};
use crate::match_pattern::PlacedBuild;
use crate::operations::{given, new_op};
use crate::rewrite_plan::{NewOp, Operand};
use ir_event::analysis::Analysis;
use ir_event::trees::place::Place;
use ir_event::trees::value::Value;
use ir_event::types::ids::OpId;
use ir_event::types::refusal::Refusal;
use patterns_lowering::Bench;
use patterns_lowering::edit::Edit;
use patterns_matchers::op_names::word_name;
use std::alloc::{AllocError, Global};

/// Returns the edit that inserts the new operation at `front`.
///
/// Refusals: `Full` if the context is full; `Memory`.
fn making<L: Analysis>(
    alloc: Global,
    bench: &mut Bench<L>,
    point: &Place,
    next: u32,
    made: &NewOp,
) -> Result<Edit, Refusal>
    requires of { TypeIsOf bench.old.transaction.ctx made.now.ty }
    ensures stands { IfOk result (λ e. EditDenotes bench.new.transaction.ctx e
        (Making point.now (made_in bench.old.transaction.ctx next made.now))) }
    ensures refused { IfErr result (λ e. IsCapacityRefusal bench.new.transaction.ctx e) }
    ensures added { Added L.meaning bench.old bench.new }
{
    let ty = match type_number(bench, &made.ty) {
        Ok(ty) => ty,
        Err(refusal) => return Err(refusal),
    };
    bench.is_wellformed();
    let entry = match entry(bench, made.word, ty, made.property) {
        Ok(entry) => entry,
        Err(refusal) => return Err(refusal),
    };
    bench.is_wellformed();
    let name = word_name(&bench.world().ctx, made.word);
    match new_op(alloc, next, name, &made.operands, ty, &entry) {
        Ok(op) => Ok(Edit::Make { place: *point, op }),
        Err(_) => Err(Refusal::Memory),
    }
}

/// Appends an edit.
fn push(edits: &mut Vec<Edit>, edit: Edit) -> Result<(), AllocError>
    ensures { OnOk result (edits.new.items ≡ edits.old.items ++ edit ∷ []) }
{
    edits.push(edit)?;
    Ok(())
}

/// Appends the edit that inserts one more new operation at `front`.
///
/// Refusals: `Full` if the context is full; `Memory`.
fn push_making<L: Analysis>(
    alloc: Global,
    bench: &mut Bench<L>,
    point: &Place,
    next: u32,
    made: &NewOp,
    edits: &mut Vec<Edit>,
) -> Result<(), Refusal>
    requires of { TypeIsOf bench.old.transaction.ctx made.now.ty }
    requires fits_in { AllFit bench.old.transaction.ctx edits.old.items }
    ensures meaning { OnOk result (edits_meaning bench.new.transaction.ctx edits.new.items
        ≡ edits_meaning bench.old.transaction.ctx edits.old.items
        ++ Making point.now (made_in bench.old.transaction.ctx next made.now) ∷ []) }
    ensures fits_in { OnOk result (AllFit bench.new.transaction.ctx edits.new.items) }
    ensures refused { IfErr result (λ e. IsCapacityRefusal bench.new.transaction.ctx e) }
    ensures added { Added L.meaning bench.old bench.new }
{
    bench.is_wellformed();
    let edit = match making(alloc, bench, point, next, made) {
        Ok(edit) => edit,
        Err(refusal) => return Err(refusal),
    };
    bench.is_wellformed();
    match push(edits, edit) {
        Ok(()) => Ok(()),
        Err(_) => Err(Refusal::Memory),
    }
}

/// Returns the edits that insert the new operations at `front`, in order.
///
/// Refusals: `Full` if the context is full; `Memory`.
fn all_makings<L: Analysis>(
    alloc: Global,
    bench: &mut Bench<L>,
    point: &Place,
    next: u32,
    made: &[NewOp],
) -> Result<Vec<Edit>, Refusal>
    requires of { AreMadeOf bench.old.transaction.ctx made.now }
    ensures meaning { IfOk result (λ es. edits_meaning bench.new.transaction.ctx es.items
        ≡ makings bench.old.transaction.ctx next point.now made.now) }
    ensures fits_in { IfOk result (λ es. AllFit bench.new.transaction.ctx es.items) }
    ensures refused { IfErr result (λ e. IsCapacityRefusal bench.new.transaction.ctx e) }
    ensures added { Added L.meaning bench.old bench.new }
{
    bench.is_wellformed();
    let mut edits = Vec::new(alloc);
    let mut rest = made;
    'made: while let [first, tail @ ..] = rest {
        if let Err(refusal) = push_making(alloc, bench, point, next, first, &mut edits) {
            return Err(refusal);
        }
        bench.is_wellformed();
        rest = tail;
    }
    Ok(edits)
}

/// Appends the edits that replace the result of operation `op` by a value and erase the operation.
fn give(edits: &mut Vec<Edit>, next: u32, op: OpId, operand: &Operand) -> Result<(), AllocError>
    ensures { OnOk result (edits.new.items ≡ edits.old.items
        ++ Replacing (ResultOf op 0) (operand_in next operand.now) ∷ Erasing op ∷ []) }
{
    let new = given(next, operand)?;
    edits.push(Edit::Replace {
        old: Value::Result(op, 0),
        new,
    })?;
    edits.push(Edit::Erase { op })?;
    Ok(())
}

/// Returns the edits of a rewrite plan at operation `op`, and interns the types and attributes that they use. `next` is
/// the next free id. The module stays as it was.
///
/// Refusals: `Full` if the context is full; `Memory`.
pub(crate) fn edits_for<L: Analysis>(
    alloc: Global,
    bench: &mut Bench<L>,
    next: u32,
    op: OpId,
    planned: &PlacedBuild,
) -> Result<Vec<Edit>, Refusal>
    requires of { BuiltIsOf bench.old.transaction.ctx planned.now.built }
    ensures stands { IfOk result (λ es. EditsDenote bench.new.transaction.ctx es.items
        (planned_edits bench.old.transaction.ctx next op planned.now)) }
    ensures refused { IfErr result (λ e. IsCapacityRefusal bench.new.transaction.ctx e) }
    ensures added { Added L.meaning bench.old bench.new }
{
    let mut edits = match all_makings(alloc, bench, &planned.point, next, &planned.built.made) {
        Ok(edits) => edits,
        Err(refusal) => return Err(refusal),
    };
    match give(&mut edits, next, op, &planned.built.result) {
        Ok(()) => Ok(edits),
        Err(_) => Err(Refusal::Memory),
    }
}
