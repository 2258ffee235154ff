//! Marks the private definitions that operations reach, until no more can be marked. `left` has the definitions that
//! aren't marked yet.
ghost use Rattle.std.specs.Prelude.{◌≡◌, ◌≤◌, ℕ, List, ◌∷◌, [], eqb, map, true, OnOk, IfOk};
ghost use Rattle.listeners_symbols.specs.Symbols.{DefinitionOf, definitions};
ghost use Rattle.listeners_symbols.specs.Table.{reference_of};
ghost use Rattle.listeners_symbols.specs.Lines.{numbered, numbers_at};
ghost use Rattle.listeners.specs.Marks.{ConsideredIn, IsMarked, MarksIn, RemovedIn, SettledIn, StartsIn};
ghost use Rattle.listeners.specs.Marks.{TakesFound, left_at, queue_of, size};
ghost use Rattle.std.specs.Map.{keys_of};
ghost use Rattle.listeners.specs.Unreached.{prefixes, reached_from, targets};

use crate::waiting::{all_left, left_above, take_out, wait};
use ir_event::types::ids::{NameId, OpId};
use listeners_symbols::definitions::{Definitions, definitions_of};
use listeners_symbols::resolve::look_in;
use listeners_symbols::role::Reference;
use listeners_symbols::roles::Roles;
use std::alloc::{AllocError, Global};
use std::collections::BTreeMap;

/// Marks an operation as reached, if there is one.
fn take_found(
    left: &mut BTreeMap<OpId, Vec<OpId>>,
    pending: &mut Vec<Vec<OpId>>,
    found: &Option<OpId>,
) -> Result<(), AllocError>
    ensures taken { OnOk result
        (TakesFound found.now (queue_of pending.old) (left_at left.old) (queue_of pending.new) (left_at left.new)) }
    ensures size { OnOk result (size left.new pending.new ≤ size left.old pending.old) }
{
    match *found {
        None => Ok(()),
        Some(op) => take_out(left, pending, op),
    }
}

/// Marks the operations to which the prefixes of a reference resolve.
fn reach(
    roles: &Roles,
    definitions: &Definitions,
    table: &Option<OpId>,
    parts: &[NameId],
    left: &mut BTreeMap<OpId, Vec<OpId>>,
    pending: &mut Vec<Vec<OpId>>,
) -> Result<(), AllocError>
    ensures removed { OnOk result
        (RemovedIn (numbers_at roles.now) definitions.now
        (prefixes eqb (numbers_at roles.now) definitions.now table.now parts.now) pending.old left.old pending.new
        left.new) }
    ensures size { OnOk result (size left.new pending.new ≤ size left.old pending.old) }
{
    let mut found = *table;
    let mut rest = parts;
    while let [part, more @ ..] = rest {
        found = look_in(roles, definitions, found, *part);
        take_found(left, pending, &found)?;
        rest = more;
    }
    Ok(())
}

/// Marks the operations to which the prefixes of the references resolve.
fn reach_each(
    roles: &Roles,
    definitions: &Definitions,
    table: &Option<OpId>,
    references: &[Reference],
    left: &mut BTreeMap<OpId, Vec<OpId>>,
    pending: &mut Vec<Vec<OpId>>,
) -> Result<(), AllocError>
    ensures removed { OnOk result
        (RemovedIn (numbers_at roles.now) definitions.now
        (targets eqb (numbers_at roles.now) definitions.now table.now
        (map reference_of references.now)) pending.old left.old pending.new left.new) }
    ensures size { OnOk result (size left.new pending.new ≤ size left.old pending.old) }
{
    let mut rest = references;
    while let [reference, more @ ..] = rest {
        reach(roles, definitions, table, &reference.parts, left, pending)?;
        rest = more;
    }
    Ok(())
}

/// Marks the operations that an operation reaches.
fn reach_from(
    roles: &Roles,
    definitions: &Definitions,
    op: OpId,
    left: &mut BTreeMap<OpId, Vec<OpId>>,
    pending: &mut Vec<Vec<OpId>>,
) -> Result<(), AllocError>
    ensures removed { OnOk result
        (RemovedIn (numbers_at roles.now) definitions.now
        (reached_from eqb (numbers_at roles.now) definitions.now
        (numbers_at roles.now op)) pending.old left.old pending.new left.new) }
    ensures size { OnOk result (size left.new pending.new ≤ size left.old pending.old) }
{
    match roles.get(op) {
        None => Ok(()),
        Some(role) => reach_each(
            roles,
            definitions,
            &role.table,
            &role.references,
            left,
            pending,
        ),
    }
}

/// Returns whether an operation has no references.
fn refers_to_none(roles: &Roles, op: OpId) -> bool
    ensures { (ds : List (DefinitionOf ℕ)) → result ≡ true
        → reached_from eqb (numbers_at roles.now) ds (numbers_at roles.now op) ≡ [] }
{
    match roles.get(op) {
        None => true,
        Some(role) => role.references.is_empty(),
    }
}

/// Visits an operation that has references. If it is inside an unmarked definition, it waits for that definition.
/// Otherwise what it reaches is marked.
fn consider(
    roles: &Roles,
    definitions: &Definitions,
    op: OpId,
    left: &mut BTreeMap<OpId, Vec<OpId>>,
    pending: &mut Vec<Vec<OpId>>,
) -> Result<(), AllocError>
    ensures considered { OnOk result
        (ConsideredIn (numbers_at roles.now) definitions.now (op ∷ []) pending.old left.old pending.new left.new) }
    ensures size { OnOk result (size left.new pending.new ≤ size left.old pending.old) }
{
    if refers_to_none(roles, op) {
        return Ok(());
    }
    match left_above(roles, left, op)? {
        Some(definition) => wait(left, op, definition),
        None => reach_from(roles, definitions, op, left, pending),
    }
}

/// Visits the operations.
fn consider_each(
    roles: &Roles,
    definitions: &Definitions,
    ops: &[OpId],
    left: &mut BTreeMap<OpId, Vec<OpId>>,
    pending: &mut Vec<Vec<OpId>>,
) -> Result<(), AllocError>
    ensures considered { OnOk result
        (ConsideredIn (numbers_at roles.now) definitions.now ops.now pending.old left.old pending.new left.new) }
    ensures size { OnOk result (size left.new pending.new ≤ size left.old pending.old) }
{
    let mut rest = ops;
    while let [op, more @ ..] = rest {
        consider(roles, definitions, *op, left, pending)?;
        rest = more;
    }
    Ok(())
}

/// Visits all operations of a table of roles. Operations without references reach nothing.
fn consider_all(
    roles: &Roles,
    definitions: &Definitions,
    left: &mut BTreeMap<OpId, Vec<OpId>>,
    pending: &mut Vec<Vec<OpId>>,
) -> Result<(), AllocError>
    ensures { OnOk result (ConsideredIn (numbers_at roles.now) definitions.now
        (keys_of roles.now.all.entries) pending.old left.old pending.new left.new) }
{
    for op in &roles.symbol_ops {
        consider(roles, definitions, *op, left, pending)?;
    }
    Ok(())
}

/// Visits the pending operations until none is pending.
fn settle(
    roles: &Roles,
    definitions: &Definitions,
    left: &mut BTreeMap<OpId, Vec<OpId>>,
    pending: Vec<Vec<OpId>>,
) -> Result<(), AllocError>
    ensures { OnOk result (MarksIn (numbers_at roles.now) definitions.now [] pending left.old
        → SettledIn (numbers_at roles.now) definitions.now left.new) }
{
    let mut pending = pending;
    'pending: while let Some(waiting) = pending.pop() {
        consider_each(roles, definitions, &waiting, left, &mut pending)?;
    }
    Ok(())
}

/// Marks all definitions that are reached.
fn mark(
    alloc: Global,
    roles: &Roles,
    definitions: &Definitions,
    left: &mut BTreeMap<OpId, Vec<OpId>>,
) -> Result<(), AllocError>
    ensures { OnOk result (StartsIn (numbers_at roles.now) (left_at left.old)
        → SettledIn (numbers_at roles.now) definitions.now left.new) }
{
    let mut pending = Vec::new(alloc);
    consider_all(roles, definitions, left, &mut pending)?;
    settle(roles, definitions, left, pending)
}

/// Returns the private definitions that nothing reaches, given a table of roles.
pub(crate) fn unreached(
    alloc: Global,
    roles: &Roles,
) -> Result<BTreeMap<OpId, Vec<OpId>>, AllocError>
    ensures { IfOk result (λ left. IsMarked (numbers_at roles.now) (definitions (numbered roles.now.all.entries))
        (left_at left)) }
{
    let definitions = definitions_of(alloc, roles)?;
    let mut left = all_left(alloc, roles)?;
    mark(alloc, roles, &definitions, &mut left)?;
    Ok(left)
}
