//! Carries out the edits of a plan.
ghost use Rattle.std.specs.Prelude.{◌∷◌, []};
ghost use Rattle.patterns_base.specs.declared.edit.Edit.TheVariants.{Erase as Erased, Make as Made};
ghost use Rattle.patterns_lowering.specs.Held.{module_held};
ghost use Rattle.patterns.specs.Making.{AreFree, AreMade, listed_edits};
ghost use Rattle.patterns.specs.Numbered.{cast_edits, constant_edits, first_result, giving};

use crate::insertion_point::InsertionPoint;
use crate::operations::{new_cast, new_constant};
use crate::plan_edits::PlanEdits;
use ir_event::analysis::Analysis;
use ir_event::trees::tree::TreeOp;
use ir_event::trees::value::Value;
use ir_event::types::ids::{AttrId, NameId, OpId, TypeId};
use ir_event::types::refusal::Refusal;
use patterns_lowering::Bench;
use patterns_lowering::apply_unchecked::apply_unchecked;
use patterns_lowering::edit::Edit;
use std::alloc::Global;

/// Makes edits one after another. None of them is refused. If memory runs out, the module and its marks stay the same.
///
/// Errors: `Memory`.
fn make_edits<L: Analysis>(bench: &mut Bench<L>, edits: &[Edit]) -> Result<(), Refusal>
    requires { AreFree bench.old.transaction.ctx edits.now (module_held bench.old.transaction) }
    ensures { AreMade L.meaning edits.now result bench.old bench.new }
{
    apply_unchecked(bench, edits)
}

/// Inserts `made` at a site. Its result replaces the result of the site's operation, which is erased.
///
/// Errors: `Memory`.
fn give_made<L: Analysis>(
    bench: &mut Bench<L>,
    site: &InsertionPoint,
    made: TreeOp,
) -> Result<(), Refusal>
    requires { AreFree bench.old.transaction.ctx (Made site.now.point made ∷ giving site.now (first_result site.now))
        (module_held bench.old.transaction) }
    ensures { AreMade L.meaning (Made site.now.point made ∷ giving site.now (first_result site.now)) result
        bench.old bench.new }
{
    make_edits(
        bench,
        &[
            Edit::Make {
                place: site.point,
                op: made,
            },
            Edit::Replace {
                old: Value::Result(site.op, 0),
                new: Value::Result(site.next, 0),
            },
            Edit::Erase { op: site.op },
        ],
    )
}

/// Erases an operation.
///
/// Errors: `Memory`.
fn erase_op<L: Analysis>(bench: &mut Bench<L>, op: OpId) -> Result<(), Refusal>
    requires { AreFree bench.old.transaction.ctx (Erased op ∷ []) (module_held bench.old.transaction) }
    ensures { AreMade L.meaning (Erased op ∷ []) result bench.old bench.new }
{
    make_edits(bench, &[Edit::Erase { op }])
}

/// Replaces the result of the site's operation with `new`, and erases the operation.
///
/// Errors: `Memory`.
fn give_value<L: Analysis>(
    bench: &mut Bench<L>,
    site: &InsertionPoint,
    new: Value,
) -> Result<(), Refusal>
    requires { AreFree bench.old.transaction.ctx (giving site.now new) (module_held bench.old.transaction) }
    ensures { AreMade L.meaning (giving site.now new) result bench.old bench.new }
{
    let old = Value::Result(site.op, 0);
    make_edits(
        bench,
        &[Edit::Replace { old, new }, Edit::Erase { op: site.op }],
    )
}

/// Inserts a constant at a site. Its result replaces the result of the site's operation, which is erased.
///
/// Errors: `Memory`.
fn give_constant<L: Analysis>(
    alloc: Global,
    bench: &mut Bench<L>,
    site: &InsertionPoint,
    ty: TypeId,
    value: AttrId,
) -> Result<(), Refusal>
    requires { AreFree bench.old.transaction.ctx (constant_edits site.now ty value) (module_held bench.old.transaction) }
    ensures { AreMade L.meaning (constant_edits site.now ty value) result bench.old bench.new }
{
    match new_constant(alloc, ty, value) {
        Ok(constant) => give_made(bench, site, constant),
        Err(_) => Err(Refusal::Memory),
    }
}

/// Inserts an operation with one operand at a site. Its result replaces the result of the site's operation, which is
/// erased.
///
/// Errors: `Memory`.
fn give_cast<L: Analysis>(
    alloc: Global,
    bench: &mut Bench<L>,
    site: &InsertionPoint,
    name: NameId,
    ty: TypeId,
    value: &Value,
) -> Result<(), Refusal>
    requires { AreFree bench.old.transaction.ctx (cast_edits site.now name ty value.now) (module_held bench.old.transaction) }
    ensures { AreMade L.meaning (cast_edits site.now name ty value.now) result bench.old bench.new }
{
    match new_cast(alloc, name, ty, value) {
        Ok(cast) => give_made(bench, site, cast),
        Err(_) => Err(Refusal::Memory),
    }
}

/// Makes the edits of a plan at a site. None of them is refused. If memory runs out, the module and its marks stay the
/// same.
///
/// Errors: `Memory`.
pub(crate) fn apply_listed<L: Analysis>(
    alloc: Global,
    bench: &mut Bench<L>,
    site: &InsertionPoint,
    edits: PlanEdits,
) -> Result<(), Refusal>
    requires { AreFree bench.old.transaction.ctx (listed_edits site.now edits) (module_held bench.old.transaction) }
    ensures { AreMade L.meaning (listed_edits site.now edits) result bench.old bench.new }
{
    match &edits {
        PlanEdits::Erase => erase_op(bench, site.op),
        PlanEdits::Give(new) => give_value(bench, site, *new),
        PlanEdits::Constant { ty, value } => give_constant(alloc, bench, site, *ty, *value),
        PlanEdits::Cast { name, ty, value } => give_cast(alloc, bench, site, *name, *ty, value),
        PlanEdits::List(edits) => make_edits(bench, edits),
    }
}
