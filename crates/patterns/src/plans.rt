//! Interns what each plan needs, and returns its edits.
ghost use Rattle.std.specs.Prelude.{◌≡◌, ◌+◌, ◌≤◌, IfOk, IfErr};
ghost use Rattle.ir_event.specs.types.Things.{IsName, IsType};
ghost use Rattle.ir_event.specs.types.Terms.{name_term, type_term};
ghost use Rattle.ir_event.specs.trees.Limits.{most_next};
ghost use Rattle.patterns_soundness.specs.base.Made.{cast};
ghost use Rattle.patterns_soundness.specs.base.Makes.{give_constant, give_new};
ghost use Rattle.patterns_plans.specs.reads.Plans.{choosing, combined, dividing_by, mirroring, subtracting};
ghost use Rattle.patterns_lowering.specs.Interning.{Added, IsCapacityRefusal};
ghost use Rattle.patterns.specs.Interned.{DifferenceAttrs};
ghost use Rattle.patterns.specs.Making.{EditsDenote, listed_edits};

use crate::edits::{
    chosen_edits, combined_edits, difference_edits, mirrored_edits, remainder_edits,
};
use crate::insertion_point::InsertionPoint;
use crate::interned::{flags_attr, flags_for, integer_type, predicate_attr, value_attr};
use crate::plan_edits::PlanEdits;
use ir_event::analysis::Analysis;
use ir_event::trees::value::Value;
use ir_event::types::ids::{AttrId, NameId, TypeId};
use ir_event::types::refusal::Refusal;
use patterns_lowering::Bench;
use patterns_lowering::edit::Edit;
use std::alloc::Global;

/// Returns the edits that make a constant.
pub(crate) fn constant<L: Analysis>(
    bench: &mut Bench<L>,
    site: &InsertionPoint,
    ty: TypeId,
    bits: u128,
) -> Result<PlanEdits, Refusal>
    requires of { IsType bench.old.transaction.ctx ty }
    ensures stands { IfOk result (λ es. EditsDenote bench.new.transaction.ctx (listed_edits site.now es)
        (give_constant site.now.point site.now.next site.now.op (type_term bench.old.transaction.ctx ty) bits)) }
    ensures refused { IfErr result (λ e. IsCapacityRefusal bench.new.transaction.ctx e) }
    ensures added { Added L.meaning bench.old bench.new }
{
    let value = match value_attr(bench, ty, bits) {
        Ok(value) => value,
        Err(refusal) => return Err(refusal),
    };
    bench.is_wellformed();
    Ok(PlanEdits::Constant { ty, value })
}

/// Returns the edits that make an operation with one operand.
pub(crate) fn recast<L: Analysis>(
    bench: &Bench<L>,
    site: &InsertionPoint,
    name: NameId,
    ty: TypeId,
    value: Value,
) -> PlanEdits
    requires name { IsName bench.now.transaction.ctx name }
    requires ty { IsType bench.now.transaction.ctx ty }
    ensures { EditsDenote bench.now.transaction.ctx (listed_edits site.now result)
        (give_new site.now.point site.now.next site.now.op
        (cast (name_term bench.now.transaction.ctx name) (type_term bench.now.transaction.ctx ty) value)) }
{
    bench.is_wellformed();
    PlanEdits::Cast { name, ty, value }
}

/// Returns the edits that make a constant and an operation on a value and that constant.
pub(crate) fn combination<L: Analysis>(
    alloc: Global,
    bench: &mut Bench<L>,
    site: &InsertionPoint,
    name: NameId,
    ty: TypeId,
    operand: &Value,
    bits: u128,
) -> Result<Vec<Edit>, Refusal>
    requires name { IsName bench.old.transaction.ctx name }
    requires ty { IsType bench.old.transaction.ctx ty }
    requires headroom { site.now.next + 2 ≤ most_next }
    ensures stands { IfOk result (λ es. EditsDenote bench.new.transaction.ctx es.items
        (combined site.now.next site.now.op site.now.point (name_term bench.old.transaction.ctx name)
        (type_term bench.old.transaction.ctx ty) operand.now bits)) }
    ensures refused { IfErr result (λ e. IsCapacityRefusal bench.new.transaction.ctx e) }
    ensures added { Added L.meaning bench.old bench.new }
{
    let value = match value_attr(bench, ty, bits) {
        Ok(value) => value,
        Err(refusal) => return Err(refusal),
    };
    bench.is_wellformed();
    let flags = match flags_for(bench, name) {
        Ok(flags) => flags,
        Err(refusal) => return Err(refusal),
    };
    bench.is_wellformed();
    match combined_edits(alloc, site, name, ty, operand, value, flags) {
        Ok(edits) => Ok(edits),
        Err(_) => Err(Refusal::Memory),
    }
}

/// Returns the edits that change the predicate and the operands of a comparison in place.
pub(crate) fn mirrored<L: Analysis>(
    alloc: Global,
    bench: &mut Bench<L>,
    site: &InsertionPoint,
    predicate: u128,
    first: &Value,
    second: &Value,
) -> Result<Vec<Edit>, Refusal>
    ensures stands { IfOk result (λ es. EditsDenote bench.new.transaction.ctx es.items
        (mirroring site.now.op predicate first.now second.now)) }
    ensures refused { IfErr result (λ e. IsCapacityRefusal bench.new.transaction.ctx e) }
    ensures added { Added L.meaning bench.old bench.new }
{
    let predicate = match predicate_attr(bench, predicate) {
        Ok(predicate) => predicate,
        Err(refusal) => return Err(refusal),
    };
    bench.is_wellformed();
    match mirrored_edits(alloc, site, predicate, first, second) {
        Ok(edits) => Ok(edits),
        Err(_) => Err(Refusal::Memory),
    }
}

/// Returns the edits that make a comparison and a select on it.
pub(crate) fn choice<L: Analysis>(
    alloc: Global,
    bench: &mut Bench<L>,
    site: &InsertionPoint,
    predicate: u128,
    ty: TypeId,
    first: &Value,
    second: &Value,
) -> Result<Vec<Edit>, Refusal>
    requires ty { IsType bench.old.transaction.ctx ty }
    requires headroom { site.now.next + 2 ≤ most_next }
    ensures stands { IfOk result (λ es. EditsDenote bench.new.transaction.ctx es.items
        (choosing site.now.next site.now.op site.now.point predicate
        (type_term bench.old.transaction.ctx ty) first.now second.now)) }
    ensures refused { IfErr result (λ e. IsCapacityRefusal bench.new.transaction.ctx e) }
    ensures added { Added L.meaning bench.old bench.new }
{
    let predicate = match predicate_attr(bench, predicate) {
        Ok(predicate) => predicate,
        Err(refusal) => return Err(refusal),
    };
    bench.is_wellformed();
    let truth = match integer_type(bench, 1) {
        Ok(truth) => truth,
        Err(refusal) => return Err(refusal),
    };
    bench.is_wellformed();
    match chosen_edits(alloc, site, truth, predicate, ty, first, second) {
        Ok(edits) => Ok(edits),
        Err(_) => Err(Refusal::Memory),
    }
}

/// Interns the attributes of two constants of one type, and of overflow flags without a set flag.
fn difference_attrs<L: Analysis>(
    bench: &mut Bench<L>,
    ty: TypeId,
    ones: u128,
) -> Result<(AttrId, AttrId, AttrId), Refusal>
    requires ty { IsType bench.old.transaction.ctx ty }
    ensures ok { IfOk result (λ a. DifferenceAttrs bench.new.transaction.ctx (type_term bench.old.transaction.ctx ty) ones a) }
    ensures refused { IfErr result (λ e. IsCapacityRefusal bench.new.transaction.ctx e) }
    ensures added { Added L.meaning bench.old bench.new }
{
    let ones = match value_attr(bench, ty, ones) {
        Ok(value) => value,
        Err(refusal) => return Err(refusal),
    };
    bench.is_wellformed();
    let one = match value_attr(bench, ty, 1) {
        Ok(value) => value,
        Err(refusal) => return Err(refusal),
    };
    bench.is_wellformed();
    let flags = match flags_attr(bench) {
        Ok(flags) => flags,
        Err(refusal) => return Err(refusal),
    };
    Ok((ones, one, flags))
}

/// Returns the edits that add the complement of the second value and 1 to the first value.
pub(crate) fn difference<L: Analysis>(
    alloc: Global,
    bench: &mut Bench<L>,
    site: &InsertionPoint,
    ty: TypeId,
    first: &Value,
    second: &Value,
    ones: u128,
) -> Result<Vec<Edit>, Refusal>
    requires ty { IsType bench.old.transaction.ctx ty }
    requires headroom { site.now.next + 5 ≤ most_next }
    ensures stands { IfOk result (λ es. EditsDenote bench.new.transaction.ctx es.items
        (subtracting site.now.next site.now.op site.now.point
        (type_term bench.old.transaction.ctx ty) first.now second.now ones)) }
    ensures refused { IfErr result (λ e. IsCapacityRefusal bench.new.transaction.ctx e) }
    ensures added { Added L.meaning bench.old bench.new }
{
    let (ones, one, flags) = match difference_attrs(bench, ty, ones) {
        Ok(attrs) => attrs,
        Err(refusal) => return Err(refusal),
    };
    bench.is_wellformed();
    match difference_edits(alloc, site, ty, first, second, ones, one, flags) {
        Ok(edits) => Ok(edits),
        Err(_) => Err(Refusal::Memory),
    }
}

/// Returns the edits that compute the remainder of the first value by the second.
pub(crate) fn remainder<L: Analysis>(
    alloc: Global,
    bench: &mut Bench<L>,
    site: &InsertionPoint,
    division: NameId,
    ty: TypeId,
    first: &Value,
    second: &Value,
) -> Result<Vec<Edit>, Refusal>
    requires name { IsName bench.old.transaction.ctx division }
    requires ty { IsType bench.old.transaction.ctx ty }
    requires headroom { site.now.next + 3 ≤ most_next }
    ensures stands { IfOk result (λ es. EditsDenote bench.new.transaction.ctx es.items
        (dividing_by site.now.next site.now.op site.now.point (name_term bench.old.transaction.ctx division)
        (type_term bench.old.transaction.ctx ty) first.now second.now)) }
    ensures refused { IfErr result (λ e. IsCapacityRefusal bench.new.transaction.ctx e) }
    ensures added { Added L.meaning bench.old bench.new }
{
    let flags = match flags_for(bench, division) {
        Ok(flags) => flags,
        Err(refusal) => return Err(refusal),
    };
    bench.is_wellformed();
    let set = match flags_attr(bench) {
        Ok(flags) => flags,
        Err(refusal) => return Err(refusal),
    };
    bench.is_wellformed();
    match remainder_edits(alloc, site, division, ty, first, second, flags, set) {
        Ok(edits) => Ok(edits),
        Err(_) => Err(Refusal::Memory),
    }
}
