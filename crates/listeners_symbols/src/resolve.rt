//! Resolves symbol references in a table of roles.
ghost use Rattle.std.specs.Prelude.{◌≡◌, eqb};
ghost use Rattle.std.specs.Cmp.Lexicographic.{pointwise};
ghost use Rattle.listeners_symbols.specs.Symbols as symbols;
ghost use Rattle.listeners_symbols.specs.Symbols.{function_at, says_table};
ghost use Rattle.listeners_symbols.specs.Table.{call_numbers};
ghost use Rattle.listeners_symbols.specs.Lines.{numbers_at};

use crate::definitions::Definitions;
use crate::role::Call;
use crate::roles::Roles;
use ir_event::types::ids::{NameId, OpId, TypeId};

/// Returns whether an operation is a symbol table.
fn is_table(roles: &Roles, op: OpId) -> bool
    ensures { result ≡ says_table (numbers_at roles.now op) }
{
    match roles.get(op) {
        None => false,
        Some(role) => role.is_table,
    }
}

/// Returns the operation that defines a name in operation `op`, or `None` if `op` isn't a symbol table or has no such
/// name.
fn look_up(roles: &Roles, definitions: &Definitions, op: OpId, name: NameId) -> Option<OpId>
    ensures { result ≡ symbols.look_up eqb (numbers_at roles.now) definitions.now op name }
{
    if !is_table(roles, op) {
        return None;
    }
    definitions.first(op, name)
}

/// Returns the operation that defines a name in an operation, if there is an operation.
pub fn look_in(
    roles: &Roles,
    definitions: &Definitions,
    found: Option<OpId>,
    name: NameId,
) -> Option<OpId>
    ensures { result ≡ symbols.look_in eqb (numbers_at roles.now) definitions.now found name }
{
    match found {
        None => None,
        Some(op) => look_up(roles, definitions, op, name),
    }
}

/// Returns the operation to which a reference resolves: the first part is looked up in a symbol table, each later part
/// in the operation of the part before it.
pub(crate) fn resolve(
    roles: &Roles,
    definitions: &Definitions,
    table: Option<OpId>,
    parts: &[NameId],
) -> Option<OpId>
    ensures { result ≡ symbols.resolve eqb (numbers_at roles.now) definitions.now table parts.now }
{
    let mut found = table;
    let mut rest = parts;
    while let [part, more @ ..] = rest {
        found = look_in(roles, definitions, found, *part);
        rest = more;
    }
    found
}

/// Returns whether two lists of types are equal.
fn same_types(ones: &[TypeId], others: &[TypeId]) -> bool
    ensures { result ≡ pointwise eqb ones.now others.now }
{
    let mut left = ones;
    let mut right = others;
    while let [a, more @ ..] = left {
        let [b, rest @ ..] = right else {
            return false;
        };
        if *a != *b {
            return false;
        }
        left = more;
        right = rest;
    }
    right.is_empty()
}

/// Returns whether an operation is a function with the types of a call's operands and results.
#[tactic(auto, using(crate::proofs::Lines::some_types))]
pub(crate) fn fits(roles: &Roles, call: &Call, op: OpId) -> bool
    ensures { result ≡ symbols.fits eqb (call_numbers call.now) (function_at (numbers_at roles.now op)) }
{
    let Some(role) = roles.get(op) else {
        return false;
    };
    let Some(function) = &role.function else {
        return false;
    };
    let function = function.get();
    same_types(function.inputs.as_slice(), &call.inputs)
        && same_types(function.outputs.as_slice(), &call.outputs)
}
