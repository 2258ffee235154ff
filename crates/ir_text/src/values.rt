//! Names of values: assigns them, looks them up and prints them.
ghost use Rattle.std.specs.Prelude.{◌≡◌, ◌++◌, IfOk, IfSome, IsTrue, OnOk, Some, true, map, length, ◌==◌, codes};
ghost use Rattle.std.specs.Option.{option_map};
ghost use Rattle.ir_types.specs.Things.{ContextModel};
ghost use Rattle.ir_types.specs.Terms.{type_term};
ghost use Rattle.ir_text.specs.Rows.{parted};
ghost use Rattle.ir_text.specs.TypeText.{in_round, type_text, type_texts};
ghost use Rattle.ir_text.specs.Naming.{name_text, source_of, naming_of, value_text, value_type, name_result, name_results, name_argument};
ghost use Rattle.ir_text_types.specs.TypeGrammar.{types_of};
ghost use Rattle.ir_text.specs.View.{naming_in, named_in};

use crate::naming::{NamedValue, Source, ValueName};
use crate::numbers::write_number;
use crate::separators::{write_between, write_short};
use crate::types::print_type;
use indexmap::IndexMap;
use ir_tree::value::Value;
use ir_types::context::Context;
use ir_types::ids::{OpId, TypeId};
use std::alloc::AllocError;

fn source_of(value: Value) -> Source
    ensures { result ≡ source_of value }
{
    match value {
        Value::Result(op, place) => Source::Result(op, place),
        Value::Arg(op, region, place) => Source::Argument(op, region, place),
    }
}

/// Returns the index that is as far from the last name as the ids of two operations are apart: that of the last name
/// and `op`. In a block without nested operations, the result of `op` is named there.
#[inline(always)]
fn result_index(named: &IndexMap<Source, NamedValue>, op: OpId) -> Option<usize> {
    let last = named.len().checked_sub(1)?;
    let (source, _) = named.get_index(last)?;
    let Source::Result(last_op, _) = source else {
        return None;
    };
    let back = last_op.number().checked_sub(op.number())?;
    last.checked_sub(back as usize)
}

/// Returns the index at which a value is likely to be named. An argument of the first function is named at its own
/// index.
#[inline(always)]
fn likely_index(named: &IndexMap<Source, NamedValue>, value: &Value) -> Option<usize> {
    match value {
        Value::Result(op, _) => result_index(named, *op),
        Value::Arg(_, _, place) => Some(*place as usize),
    }
}

/// Returns whether this is the source of the value.
#[inline(always)]
fn is_source(source: &Source, value: &Value) -> bool
    ensures { IsTrue result → source.now ≡ source_of value.now }
{
    match source {
        Source::Result(op, place) => match value {
            Value::Result(of, at) => *op == *of && *place == *at,
            Value::Arg(..) => false,
        },
        Source::Argument(op, region, place) => match value {
            Value::Result(..) => false,
            Value::Arg(of, inside, at) => *op == *of && *region == *inside && *place == *at,
        },
    }
}

/// Returns the name and the type of a value, if they are at the index at which they are likely to be. No hash is
/// computed.
#[inline(always)]
fn likely_naming(named: &IndexMap<Source, NamedValue>, value: &Value) -> Option<NamedValue>
    ensures { IfSome result (λ n. (c : ContextModel) → Some (naming_in c n) ≡ naming_of (named_in c named.now.entries) value.now) }
{
    let index = likely_index(named, value)?;
    match named.get_index(index) {
        Some((source, naming)) => {
            if is_source(source, value) {
                return Some(*naming);
            }
            None
        }
        None => None,
    }
}

/// Returns the name and the type of a value, or `None` if the value has no name.
#[inline(always)]
#[tactic(auto, using(crate::proofs::Entries::naming_found))]
fn naming_of(named: &IndexMap<Source, NamedValue>, value: Value) -> Option<NamedValue>
    ensures { (c : ContextModel) → option_map (naming_in c) result ≡ naming_of (named_in c named.now.entries) value }
{
    if let Some(naming) = likely_naming(named, &value) {
        return Some(naming);
    }
    named.get(&source_of(value)).copied()
}

fn write_name(out: &mut Vec<u8>, name: ValueName) -> Result<(), AllocError>
    ensures { OnOk result (out.new.items ≡ out.old.items ++ name_text name) }
{
    match name {
        ValueName::Only(number) => {
            write_short(out, b"%")?;
            write_number(out, u64::from(number))
        }
        ValueName::Part(number, place) => {
            write_short(out, b"%")?;
            write_number(out, u64::from(number))?;
            write_short(out, b"#")?;
            write_number(out, u64::from(place))
        }
        ValueName::Argument(number) => {
            write_short(out, b"%arg")?;
            write_number(out, u64::from(number))
        }
    }
}

fn write_value(
    out: &mut Vec<u8>,
    named: &IndexMap<Source, NamedValue>,
    value: Value,
) -> Result<(), AllocError>
    ensures { (c : ContextModel) → OnOk result (out.new.items ≡ out.old.items ++ value_text (named_in c named.now.entries) value) }
{
    match naming_of(named, value) {
        None => write_short(out, b"%"),
        Some(naming) => write_name(out, naming.name),
    }
}

/// Appends the names of operands, separated by commas.
fn write_values(
    out: &mut Vec<u8>,
    named: &IndexMap<Source, NamedValue>,
    operands: &[Value],
) -> Result<(), AllocError>
    ensures { (c : ContextModel) → OnOk result (out.new.items ≡ out.old.items ++ parted (codes ", ") true (map (value_text (named_in c named.now.entries)) operands.now)) }
{
    let mut first = true;
    'operands: for operand in operands {
        write_between(out, first, b", ")?;
        first = false;
        write_value(out, named, *operand)?;
    }
    Ok(())
}

/// Appends the names of operands in parentheses.
pub(crate) fn write_operands(
    out: &mut Vec<u8>,
    named: &IndexMap<Source, NamedValue>,
    operands: &[Value],
) -> Result<(), AllocError>
    ensures { (c : ContextModel) → OnOk result (out.new.items ≡ out.old.items ++ in_round (map (value_text (named_in c named.now.entries)) operands.now)) }
{
    write_short(out, b"(")?;
    write_values(out, named, operands)?;
    write_short(out, b")")?;
    Ok(())
}

/// Appends the type with this id, or `index` if the context has no such type.
#[tactic(auto, using(crate::proofs::Entries::no_type_is_index))]
fn write_any_type(ctx: &Context, out: &mut Vec<u8>, id: TypeId) -> Result<(), AllocError>
    ensures { OnOk result (out.new.items ≡ out.old.items ++ type_text (type_term ctx.now id)) }
{
    if ctx.has_type(id) {
        print_type(ctx, out, id)
    } else {
        write_short(out, b"index")
    }
}

/// Appends the type of a value, or `index` if the value has no name.
fn write_value_type(
    ctx: &Context,
    out: &mut Vec<u8>,
    named: &IndexMap<Source, NamedValue>,
    value: Value,
) -> Result<(), AllocError>
    ensures { OnOk result (out.new.items ≡ out.old.items ++ type_text (value_type (named_in ctx.now named.now.entries) value)) }
{
    match naming_of(named, value) {
        None => write_short(out, b"index"),
        Some(naming) => write_any_type(ctx, out, naming.ty),
    }
}

/// Appends the types of operands, separated by commas.
pub(crate) fn write_operand_types(
    ctx: &Context,
    out: &mut Vec<u8>,
    named: &IndexMap<Source, NamedValue>,
    operands: &[Value],
) -> Result<(), AllocError>
    ensures { OnOk result (out.new.items ≡ out.old.items ++ parted (codes ", ") true (type_texts (types_of (map (value_type (named_in ctx.now named.now.entries)) operands.now)))) }
{
    let mut first = true;
    'operands: for operand in operands {
        write_between(out, first, b", ")?;
        first = false;
        write_value_type(ctx, out, named, *operand)?;
    }
    Ok(())
}

/// Returns an index of a value or a region as a u32. No tree has so many that the index exceeds a u32.
fn small(number: usize) -> Result<u32, AllocError>
    ensures { IfOk result (λ n. n ≡ number) }
{
    match u32::try_from(number) {
        Ok(number) => Ok(number),
        Err(_) => Err(AllocError),
    }
}

fn name_result(
    named: &mut IndexMap<Source, NamedValue>,
    op: OpId,
    only: bool,
    number: u32,
    place: usize,
    ty: TypeId,
) -> Result<(), AllocError>
    ensures { (c : ContextModel) → OnOk result (named_in c named.new.entries ≡ name_result op only number place (type_term c ty) (named_in c named.old.entries)) }
{
    let place = small(place)?;
    let name = if only {
        ValueName::Only(number)
    } else {
        ValueName::Part(number, place)
    };
    named.insert(Source::Result(op, place), NamedValue { name, ty })?;
    Ok(())
}

/// Names the results of an operation by the operation's number.
pub(crate) fn name_results(
    named: &mut IndexMap<Source, NamedValue>,
    op: OpId,
    number: u32,
    results: &[TypeId],
) -> Result<(), AllocError>
    ensures { (c : ContextModel) → OnOk result (named_in c named.new.entries ≡ name_results op (length (map (type_term c) results.now) == 1) number 0 (map (type_term c) results.now) (named_in c named.old.entries)) }
{
    let only = results.len() == 1;
    for (place, ty) in results.iter().enumerate() {
        name_result(named, op, only, number, place, *ty)?;
    }
    Ok(())
}

/// Names an argument of the block of a region.
pub(crate) fn name_argument(
    named: &mut IndexMap<Source, NamedValue>,
    op: OpId,
    region: usize,
    place: usize,
    number: u32,
    ty: TypeId,
) -> Result<(), AllocError>
    ensures { (c : ContextModel) → OnOk result (named_in c named.new.entries ≡ name_argument op region place number (type_term c ty) (named_in c named.old.entries)) }
{
    let source = Source::Argument(op, small(region)?, small(place)?);
    let name = ValueName::Argument(number);
    named.insert(source, NamedValue { name, ty })?;
    Ok(())
}
