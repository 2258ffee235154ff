//! New operations from C arrays.
ghost use Rattle.std.specs.Prelude.{◌≡◌, IfOk, OnOk, Some, [], ◌∷◌, ◌++◌, map, true};
ghost use Rattle.ir_event.specs.tree_laws.Reasons.{holds_none};
ghost use Rattle.mlir_work_c_read.specs.Numbers.{value_of as show_value};
ghost use Rattle.mlir_work_c_read.specs.Headers.{IsOrMemory, dictionaries, entries_of, header, is_property, same_truth};

use crate::dictionaries::{attributes_of, dictionaries_fault, properties_of};
use crate::numbers::{ValueNumbers, value_of};
use ir_event::trees::tree::TreeOp;
use ir_event::trees::value::Value;
use ir_event::types::context::Context;
use ir_event::types::ids::{AttrId, NameId, OpId, TypeId};
use ir_event::types::refusal::Refusal;
use ir_text_operations::attributes::dictionaries::Entry;
use std::alloc::{AllocError, Global};

/// An entry of a new operation: the numbers of its key and its attribute, and whether it is a property.
#[repr(C)]
#[derive(Clone, Copy)]
pub struct NewEntry {
    pub key: u32,
    pub attribute: u32,
    /// 0: a discardable attribute, or a property if its key is inherent to the operation; otherwise a property.
    pub is_property: u32,
}

/// Returns the operation with these numbers, without regions. Its entries are in the dictionaries and in the order that
/// they have in an operation text. Its id is 0, and is ignored.
///
/// Refusals: of the first entry that is refused, properties first, `DuplicateKey` if its key was given before, also in
/// the other dictionary, or else `TooMany` if its dictionary is full; and `Memory`.
pub fn header_of(
    alloc: Global,
    ctx: &Context,
    name: u32,
    operands: &[ValueNumbers],
    results: &[u32],
    entries: &[NewEntry],
) -> Result<TreeOp, Refusal>
    ensures reported { IsOrMemory (λ t. t) (header ctx.now name operands.now results.now entries.now) result }
    ensures bare { IfOk result (λ t. holds_none (Some t) ≡ true) }
{
    let name = NameId::new(name);
    let (props, attrs) = match dictionaries_of(alloc, ctx, name, entries) {
        Ok(found) => found,
        Err(refusal) => return Err(refusal),
    };
    let operands = values_of(alloc, operands)?;
    let results = types_of(alloc, results)?;
    Ok(TreeOp {
        id: OpId::new(0),
        name,
        operands,
        results,
        props,
        attrs,
        regions: Vec::new(alloc),
    })
}

/// Returns the properties and the attributes of an operation, each sorted, or why it can't have these entries.
fn dictionaries_of(
    alloc: Global,
    ctx: &Context,
    name: NameId,
    entries: &[NewEntry],
) -> Result<(Vec<Entry>, Vec<Entry>), Refusal>
    ensures { IsOrMemory (λ d. (d.0.items, d.1.items)) (dictionaries ctx.now name entries.now) result }
{
    let given = entries_of(alloc, entries, true)?;
    let others = entries_of(alloc, entries, false)?;
    if let Some(refusal) = dictionaries_fault(ctx, name, &given, &others) {
        return Err(refusal);
    }
    let props = properties_of(alloc, ctx, name, &given, &others)?;
    let attrs = attributes_of(alloc, ctx, name, &others)?;
    Ok((props, attrs))
}

/// Returns the values of C structs.
fn values_of(alloc: Global, values: &[ValueNumbers]) -> Result<Vec<Value>, AllocError>
    ensures { IfOk result (λ v. v.items ≡ map show_value values.now) }
{
    let mut out = Vec::with_capacity(alloc, values.len())?;
    'values: for value in values {
        out.push(value_of(value))?;
    }
    Ok(out)
}

/// Returns the types with these numbers.
fn types_of(alloc: Global, types: &[u32]) -> Result<Vec<TypeId>, AllocError>
    ensures { IfOk result (λ v. v.items ≡ types.now) }
{
    let mut out = Vec::with_capacity(alloc, types.len())?;
    'types: for ty in types {
        out.push(TypeId::new(*ty))?;
    }
    Ok(out)
}

/// Returns the entries that are given as properties, or the others.
fn entries_of(
    alloc: Global,
    entries: &[NewEntry],
    properties: bool,
) -> Result<Vec<Entry>, AllocError>
    ensures { IfOk result (λ v. v.items ≡ entries_of properties entries.now) }
{
    let mut out = Vec::new(alloc);
    let mut rest = entries;
    'entries: while let [entry, tail @ ..] = rest {
        push_given(&mut out, entry, properties)?;
        rest = tail;
    }
    Ok(out)
}

/// Appends an entry if it is given as a property, or if it isn't.
fn push_given(out: &mut Vec<Entry>, entry: &NewEntry, properties: bool) -> Result<(), AllocError>
    ensures { OnOk result (out.new.items ≡ out.old.items ++ entries_of properties (entry.now ∷ [])) }
{
    if is_given(entry, properties) {
        out.push((NameId::new(entry.key), AttrId::new(entry.attribute)))?;
    }
    Ok(())
}

/// Returns whether an entry is given as a property, or as no property.
fn is_given(entry: &NewEntry, properties: bool) -> bool
    ensures { result ≡ same_truth (is_property entry.now) properties }
{
    if entry.is_property != 0 {
        return properties;
    }
    !properties
}
