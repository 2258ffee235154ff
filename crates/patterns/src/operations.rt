//! Builds new operations.
ghost use Rattle.std.specs.Prelude.{◌≡◌, IfOk, option_map};
ghost use Rattle.ir_event.specs.types.Terms.{name_term};
ghost use Rattle.patterns_laws.specs.Words.{among, flagged};
ghost use Rattle.patterns.specs.New.{entries, flag_entry, new_cast, new_constant, new_op};

use ir_event::trees::tree::TreeOp;
use ir_event::trees::value::Value;
use ir_event::types::context::Context;
use ir_event::types::ids::{AttrId, NameId, OpId, TypeId};
use ir_event::types::word::Word;
use std::alloc::{AllocError, Global};

/// Returns whether new operations with this name get overflow flags.
#[tactic(auto, unfolding(patterns_laws::specs::Words::flagged))]
pub(crate) fn is_flagged(ctx: &Context, name: NameId) -> bool
    ensures { result ≡ among flagged (name_term ctx.now name) }
{
    ctx.is_word(name, Word::ArithAddi)
        || ctx.is_word(name, Word::ArithSubi)
        || ctx.is_word(name, Word::ArithMuli)
}

/// Returns the property entry of overflow flags.
pub(crate) fn flag_entry(flags: Option<AttrId>) -> Option<(NameId, AttrId)>
    ensures { result ≡ flag_entry flags }
{
    match flags {
        Some(flags) => Some((Word::OverflowFlags.id(), flags)),
        None => None,
    }
}

/// Returns a dictionary with at most one entry.
fn entries(
    alloc: Global,
    entry: &Option<(NameId, AttrId)>,
) -> Result<Vec<(NameId, AttrId)>, AllocError>
    ensures { IfOk result (λ es. es.items ≡ entries entry.now) }
{
    let Some(entry) = entry else {
        return Ok(Vec::new(alloc));
    };
    let mut entries = Vec::with_capacity(alloc, 1)?;
    entries.push(*entry)?;
    Ok(entries)
}

/// Returns an operation with one result and at most one property.
pub(crate) fn new_op(
    alloc: Global,
    name: NameId,
    operands: &[Value],
    ty: TypeId,
    entry: &Option<(NameId, AttrId)>,
) -> Result<TreeOp, AllocError>
    ensures { IfOk result (λ o. o ≡ new_op name operands.now ty entry.now) }
{
    let operands = Vec::from_slice(alloc, operands)?;
    let mut results = Vec::with_capacity(alloc, 1)?;
    results.push(ty)?;
    let props = entries(alloc, entry)?;
    Ok(TreeOp {
        id: OpId::new(0),
        name,
        operands,
        results,
        props,
        attrs: Vec::new(alloc),
        regions: Vec::new(alloc),
    })
}

/// Returns a constant with an interned attribute.
pub(crate) fn new_constant(alloc: Global, ty: TypeId, value: AttrId) -> Result<TreeOp, AllocError>
    ensures { IfOk result (λ o. o ≡ new_constant ty value) }
{
    let entry = Some((Word::Value.id(), value));
    new_op(alloc, Word::ArithConstant.id(), &[], ty, &entry)
}

/// Returns an operation with one operand and no properties.
pub(crate) fn new_cast(
    alloc: Global,
    name: NameId,
    ty: TypeId,
    value: &Value,
) -> Result<TreeOp, AllocError>
    ensures { IfOk result (λ o. o ≡ new_cast name ty value.now) }
{
    new_op(alloc, name, &[*value], ty, &None)
}
