//! Computes the answer to a line.
use crate::parts::{first_word, operands, properties, types};
use dialects_int::fold::fold;
use ir_types::bits::{Bits, BitsKind};
use ir_types::context::Context;
use ir_types::ids::{AttrId, NameId, TypeId};
use ir_types::refusal::Refusal;
use op_registry::definition::{OpDef, Trait, Types};
use op_registry::own::{EffectSet, Own};
use op_registry::registry::Registry;
use std::alloc::{AllocError, Global};

/// Returns the fold, or `None` if an id isn't of the context.
fn checked_fold(
    context: &Context,
    name: NameId,
    props: &[(NameId, AttrId)],
    operands: &[Option<Bits>],
    results: &[TypeId],
) -> Option<Bits> {
    let attrs = props.iter().all(|entry| context.has_attr(entry.1));
    let types = results.iter().all(|ty| context.has_type(*ty));
    if attrs && types {
        fold(context, name, props, operands, results)
    } else {
        None
    }
}

fn bits_text(alloc: Global, bits: Option<Bits>) -> Result<String, AllocError> {
    let Some(bits) = bits else {
        return format!(in alloc; "none");
    };
    let value = bits.value;
    match bits.kind {
        BitsKind::Int(width) => format!(in alloc; "i{width}:{value}"),
        BitsKind::Index => format!(in alloc; "index:{value}"),
    }
}

/// Answers a fold of an operation, given its name, results and properties.
fn folded_by(
    alloc: Global,
    context: &Context,
    name: NameId,
    results: &[TypeId],
    props: &[(NameId, AttrId)],
    text: &str,
) -> Result<String, AllocError> {
    let known = operands(alloc, text)?;
    bits_text(alloc, checked_fold(context, name, props, &known, results))
}

/// Answers a fold of an operation, given its name and results, and a text `OPERANDS PROPERTIES`.
fn folded_to(
    alloc: Global,
    context: &mut Context,
    name: NameId,
    results: &[TypeId],
    text: &str,
) -> Result<String, Refusal> {
    let (known, props) = first_word(text);
    let props = properties(alloc, context, props)?;
    Ok(folded_by(alloc, context, name, results, &props, known)?)
}

/// Answers a fold, given a text `NAME RESULTS OPERANDS PROPERTIES`.
fn folded(alloc: Global, context: &mut Context, text: &str) -> Result<String, Refusal> {
    let (name, text) = first_word(text);
    let (results, text) = first_word(text);
    let name = context.name(name.as_bytes())?;
    let results = types(alloc, context, results)?;
    folded_to(alloc, context, name, &results, text)
}

/// Returns the number of fixed types, and whether more are allowed.
fn width(types: &Types) -> (usize, bool) {
    (types.first.len(), types.more.is_some())
}

/// Returns how many properties of a row are required.
fn count_required(def: &OpDef) -> usize {
    let mut required = 0usize;
    for property in def.properties.iter() {
        if property.required {
            required = required.saturating_add(1);
        }
    }
    required
}

/// Returns the counts of a row.
fn counts(alloc: Global, def: &OpDef) -> Result<String, AllocError> {
    let (operands, more_operands) = width(&def.operands);
    let (results, more_results) = width(&def.results);
    let regions = def.regions.len();
    let properties = def.properties.len();
    let required = count_required(def);
    let parents = def.parents.len();
    format!(in alloc;
        "{operands} {more_operands} {results} {more_results} {regions} {properties} {required} {parents}"
    )
}

fn row_text(alloc: Global, table: &Registry, name: NameId) -> Result<String, AllocError> {
    match table.get(name) {
        Some(def) => counts(alloc, def),
        None => String::from_str(alloc, "none"),
    }
}

fn listed(alloc: Global, effects: EffectSet) -> Result<String, AllocError> {
    let EffectSet {
        allocate,
        free,
        read,
        write,
    } = effects;
    format!(in alloc; "{allocate} {free} {read} {write}")
}

fn effects_text(alloc: Global, table: &Registry, name: NameId) -> Result<String, AllocError> {
    match table.effects(name) {
        Own::Pure => String::from_str(alloc, "pure"),
        Own::Only(effects) => listed(alloc, effects),
        Own::Recursive => String::from_str(alloc, "recursive"),
        Own::Unknown => String::from_str(alloc, "unknown"),
    }
}

fn traits_text(alloc: Global, table: &Registry, name: NameId) -> Result<String, AllocError> {
    let terminator = table.has(name, Trait::Terminator);
    let isolated = table.has(name, Trait::Isolated);
    let symbol_table = table.has(name, Trait::SymbolTable);
    let symbol = table.has(name, Trait::Symbol);
    let recursive = table.has(name, Trait::Recursive);
    format!(in alloc; "{terminator} {isolated} {symbol_table} {symbol} {recursive}")
}

/// Answers a question about the row of an operation.
fn table_text(
    alloc: Global,
    context: &mut Context,
    table: &Registry,
    call: &str,
    text: &str,
) -> Result<String, Refusal> {
    let name = context.name(text.as_bytes())?;
    let answer = match call {
        "row" => row_text(alloc, table, name),
        "effects" => effects_text(alloc, table, name),
        _ => traits_text(alloc, table, name),
    };
    Ok(answer?)
}

/// Returns the answer to a line.
pub fn answer(
    alloc: Global,
    context: &mut Context,
    table: &Registry,
    line: &str,
) -> Result<String, Refusal> {
    let (call, rest) = first_word(line);
    match call {
        "fold" => folded(alloc, context, rest),
        _ => table_text(alloc, context, table, call, rest),
    }
}
