//! The edits of plans, with interned numbers.
ghost use Rattle.std.specs.Prelude.{◌≡◌, ◌+◌, ◌≤◌, ◌++◌, [], ◌∷◌, IfOk, None, OnOk, Some};
ghost use Rattle.ir_event.specs.types.declared.word.Word.TheVariants.{ArithAddi, ArithMuli, ArithSubi, ArithXori};
ghost use Rattle.ir_event.specs.types.WordNames.{word_number};
ghost use Rattle.ir_event.specs.trees.Limits.{most_next};
ghost use Rattle.patterns_base.specs.declared.edit.Edit.TheVariants.{Make as Made};
ghost use Rattle.patterns.specs.New.{new_binary, new_constant, new_op};
ghost use Rattle.patterns.specs.Numbered.{chosen_edits, combined_edits, difference_edits};
ghost use Rattle.patterns.specs.Numbered.{first_result, giving, mirrored_edits, remainder_edits, result_at};

use crate::insertion_point::InsertionPoint;
use crate::operations::{flag_entry, new_op};
use ir_event::trees::value::Value;
use ir_event::types::ids::{AttrId, NameId, OpId, TypeId};
use ir_event::types::word::Word;
use patterns_lowering::edit::Edit;
use std::alloc::{AllocError, Global};

/// Returns the result of the first operation that is made at a site.
fn first_result(site: &InsertionPoint) -> Value
    ensures { result ≡ first_result site.now }
{
    Value::Result(site.next, 0)
}

/// Returns the result of the operation that is made `count` operations after the first one.
fn result_at(site: &InsertionPoint, count: u32) -> Value
    requires { site.now.next + count ≤ most_next }
    ensures { result ≡ result_at site.now count }
{
    Value::Result(OpId::new(site.next.number() + count), 0)
}

/// Appends the insertion of a new operation at the site.
fn push_insertion(
    alloc: Global,
    edits: &mut Vec<Edit>,
    site: &InsertionPoint,
    name: NameId,
    operands: &[Value],
    ty: TypeId,
    entry: &Option<(NameId, AttrId)>,
) -> Result<(), AllocError>
    ensures { OnOk result (edits.new.items ≡ edits.old.items
        ++ Made site.now.point (new_op name operands.now ty entry.now) ∷ []) }
{
    let op = new_op(alloc, name, operands, ty, entry)?;
    edits.push(Edit::Make {
        place: site.point,
        op,
    })?;
    Ok(())
}

/// Appends the insertion of a constant with an interned attribute.
fn push_constant(
    alloc: Global,
    edits: &mut Vec<Edit>,
    site: &InsertionPoint,
    ty: TypeId,
    value: AttrId,
) -> Result<(), AllocError>
    ensures { OnOk result (edits.new.items ≡ edits.old.items ++ Made site.now.point (new_constant ty value) ∷ []) }
{
    let entry = Some((Word::Value.id(), value));
    push_insertion(
        alloc,
        edits,
        site,
        Word::ArithConstant.id(),
        &[],
        ty,
        &entry,
    )
}

/// Appends the edits that replace the result of the site's operation with `value` and erase the operation.
fn give(edits: &mut Vec<Edit>, site: &InsertionPoint, value: Value) -> Result<(), AllocError>
    ensures { OnOk result (edits.new.items ≡ edits.old.items ++ giving site.now value) }
{
    edits.push(Edit::Replace {
        old: Value::Result(site.op, 0),
        new: value,
    })?;
    edits.push(Edit::Erase { op: site.op })?;
    Ok(())
}

/// Returns the edits of a plan that makes a constant, with an interned attribute, and an operation on a value and that
/// constant.
pub(crate) fn combined_edits(
    alloc: Global,
    site: &InsertionPoint,
    name: NameId,
    ty: TypeId,
    operand: &Value,
    value: AttrId,
    flags: Option<AttrId>,
) -> Result<Vec<Edit>, AllocError>
    requires { site.now.next + 2 ≤ most_next }
    ensures { IfOk result (λ es. es.items ≡ combined_edits site.now name ty operand.now value flags) }
{
    let operands = [*operand, first_result(site)];
    let flags = flag_entry(flags);
    let mut edits = Vec::with_capacity(alloc, 4)?;
    push_constant(alloc, &mut edits, site, ty, value)?;
    push_insertion(alloc, &mut edits, site, name, &operands, ty, &flags)?;
    give(&mut edits, site, result_at(site, 1))?;
    Ok(edits)
}

/// Returns the edits of a plan that changes the predicate, an interned attribute, and the operands of a comparison in
/// place.
pub(crate) fn mirrored_edits(
    alloc: Global,
    site: &InsertionPoint,
    predicate: AttrId,
    first: &Value,
    second: &Value,
) -> Result<Vec<Edit>, AllocError>
    ensures { IfOk result (λ es. es.items ≡ mirrored_edits site.now predicate first.now second.now) }
{
    let mut edits = Vec::with_capacity(alloc, 3)?;
    edits.push(Edit::SetAttr {
        op: site.op,
        key: Word::Predicate.id(),
        attr: predicate,
    })?;
    edits.push(Edit::SetOperand {
        op: site.op,
        operand: 0,
        value: *first,
    })?;
    edits.push(Edit::SetOperand {
        op: site.op,
        operand: 1,
        value: *second,
    })?;
    Ok(edits)
}

/// Returns the edits of a plan that makes a comparison, by its result type and its predicate's attribute, and a select
/// on it.
pub(crate) fn chosen_edits(
    alloc: Global,
    site: &InsertionPoint,
    truth: TypeId,
    predicate: AttrId,
    ty: TypeId,
    first: &Value,
    second: &Value,
) -> Result<Vec<Edit>, AllocError>
    requires { site.now.next + 2 ≤ most_next }
    ensures { IfOk result (λ es. es.items ≡ chosen_edits site.now truth predicate ty first.now second.now) }
{
    let compared = [*first, *second];
    let chosen = [first_result(site), *first, *second];
    let asks = Some((Word::Predicate.id(), predicate));
    let comparison = Word::ArithCmpi.id();
    let choice = Word::ArithSelect.id();
    let mut edits = Vec::with_capacity(alloc, 4)?;
    push_insertion(alloc, &mut edits, site, comparison, &compared, truth, &asks)?;
    push_insertion(alloc, &mut edits, site, choice, &chosen, ty, &None)?;
    give(&mut edits, site, result_at(site, 1))?;
    Ok(edits)
}

/// Appends the complement of a value, by a constant of ones.
fn push_complement(
    alloc: Global,
    edits: &mut Vec<Edit>,
    site: &InsertionPoint,
    ty: TypeId,
    value: &Value,
    ones: AttrId,
) -> Result<(), AllocError>
    ensures { OnOk result (edits.new.items ≡ edits.old.items ++ Made site.now.point (new_constant ty ones)
        ∷ Made site.now.point (new_binary (word_number ArithXori) ty value.now (first_result site.now) None) ∷ []) }
{
    let operands = [*value, first_result(site)];
    push_constant(alloc, edits, site, ty, ones)?;
    push_insertion(
        alloc,
        edits,
        site,
        Word::ArithXori.id(),
        &operands,
        ty,
        &None,
    )
}

/// Appends the sum of the complement and 1, by a constant of 1.
fn push_negative(
    alloc: Global,
    edits: &mut Vec<Edit>,
    site: &InsertionPoint,
    ty: TypeId,
    one: AttrId,
    flags: AttrId,
) -> Result<(), AllocError>
    requires { site.now.next + 5 ≤ most_next }
    ensures { OnOk result (edits.new.items ≡ edits.old.items ++ Made site.now.point (new_constant ty one)
        ∷ Made site.now.point (new_binary (word_number ArithAddi) ty (result_at site.now 1) (result_at site.now 2) (Some flags)) ∷ []) }
{
    let operands = [result_at(site, 1), result_at(site, 2)];
    let flags = flag_entry(Some(flags));
    push_constant(alloc, edits, site, ty, one)?;
    push_insertion(
        alloc,
        edits,
        site,
        Word::ArithAddi.id(),
        &operands,
        ty,
        &flags,
    )
}

/// Appends the sum of a value and the negative value, which replaces the result of the site's operation.
fn push_sum(
    alloc: Global,
    edits: &mut Vec<Edit>,
    site: &InsertionPoint,
    ty: TypeId,
    value: &Value,
    flags: AttrId,
) -> Result<(), AllocError>
    requires { site.now.next + 5 ≤ most_next }
    ensures { OnOk result (edits.new.items ≡ edits.old.items
        ++ Made site.now.point (new_binary (word_number ArithAddi) ty value.now (result_at site.now 3) (Some flags))
        ∷ giving site.now (result_at site.now 4)) }
{
    let operands = [*value, result_at(site, 3)];
    let flags = flag_entry(Some(flags));
    push_insertion(
        alloc,
        edits,
        site,
        Word::ArithAddi.id(),
        &operands,
        ty,
        &flags,
    )?;
    give(edits, site, result_at(site, 4))
}

/// Returns the edits of a plan that adds the complement of the second value and 1 to the first value.
pub(crate) fn difference_edits(
    alloc: Global,
    site: &InsertionPoint,
    ty: TypeId,
    first: &Value,
    second: &Value,
    ones: AttrId,
    one: AttrId,
    flags: AttrId,
) -> Result<Vec<Edit>, AllocError>
    requires { site.now.next + 5 ≤ most_next }
    ensures { IfOk result (λ es. es.items ≡ difference_edits site.now ty first.now second.now ones one flags) }
{
    let mut edits = Vec::with_capacity(alloc, 7)?;
    push_complement(alloc, &mut edits, site, ty, second, ones)?;
    push_negative(alloc, &mut edits, site, ty, one, flags)?;
    push_sum(alloc, &mut edits, site, ty, first, flags)?;
    Ok(edits)
}

/// Appends the product of the first result and a value.
fn push_product(
    alloc: Global,
    edits: &mut Vec<Edit>,
    site: &InsertionPoint,
    ty: TypeId,
    value: &Value,
    flags: AttrId,
) -> Result<(), AllocError>
    ensures { OnOk result (edits.new.items ≡ edits.old.items
        ++ Made site.now.point (new_binary (word_number ArithMuli) ty (first_result site.now) value.now (Some flags)) ∷ []) }
{
    let operands = [first_result(site), *value];
    let flags = flag_entry(Some(flags));
    push_insertion(
        alloc,
        edits,
        site,
        Word::ArithMuli.id(),
        &operands,
        ty,
        &flags,
    )
}

/// Appends the difference of a value and the product, which replaces the result of the site's operation.
fn push_rest(
    alloc: Global,
    edits: &mut Vec<Edit>,
    site: &InsertionPoint,
    ty: TypeId,
    value: &Value,
    flags: AttrId,
) -> Result<(), AllocError>
    requires { site.now.next + 3 ≤ most_next }
    ensures { OnOk result (edits.new.items ≡ edits.old.items
        ++ Made site.now.point (new_binary (word_number ArithSubi) ty value.now (result_at site.now 1) (Some flags))
        ∷ giving site.now (result_at site.now 2)) }
{
    let operands = [*value, result_at(site, 1)];
    let flags = flag_entry(Some(flags));
    push_insertion(
        alloc,
        edits,
        site,
        Word::ArithSubi.id(),
        &operands,
        ty,
        &flags,
    )?;
    give(edits, site, result_at(site, 2))
}

/// Returns the edits of a plan that computes the remainder of the first value by the second.
pub(crate) fn remainder_edits(
    alloc: Global,
    site: &InsertionPoint,
    division: NameId,
    ty: TypeId,
    first: &Value,
    second: &Value,
    flags: Option<AttrId>,
    set: AttrId,
) -> Result<Vec<Edit>, AllocError>
    requires { site.now.next + 3 ≤ most_next }
    ensures { IfOk result (λ es. es.items ≡ remainder_edits site.now division ty first.now second.now flags set) }
{
    let divided = [*first, *second];
    let flags = flag_entry(flags);
    let mut edits = Vec::with_capacity(alloc, 5)?;
    push_insertion(alloc, &mut edits, site, division, &divided, ty, &flags)?;
    push_product(alloc, &mut edits, site, ty, second, set)?;
    push_rest(alloc, &mut edits, site, ty, first, set)?;
    Ok(edits)
}
