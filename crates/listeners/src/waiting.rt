//! Private definitions that aren't marked yet, each with the operations that wait for it.
ghost use Rattle.std.specs.Prelude.{◌≡◌, ◌≤◌, ℕ, List, [], ◌∷◌, Some, OnOk, IfOk, if◌then◌else◌, None};
ghost use Rattle.std.specs.BTreeMap.{btree_map_len};
ghost use Rattle.listeners_symbols.specs.Table.{role_numbers};
ghost use Rattle.listeners_symbols.specs.Lines.{numbers_at};
ghost use Rattle.listeners.specs.Marking.{Waiting};
ghost use Rattle.listeners.specs.Marks.{IsAbove, TakesOut, added, added_at, left_at, parent_at, queue_of, size};
ghost use Rattle.listeners.specs.Unreached as unreached;
ghost use Rattle.listeners.specs.Unreached.{says_definition};

use ir_event::types::ids::{NameId, OpId};
use listeners_symbols::role::Role;
use listeners_symbols::roles::Roles;
use std::alloc::{AllocError, Global};
use std::collections::BTreeMap;

/// Returns the name of a private definition, or `None` if the operation isn't one (Symbols and Symbol Tables, "Symbol
/// Visibility").
pub(crate) fn private_name(role: &Role) -> Option<NameId>
    ensures { result ≡ unreached.private_name (role_numbers role.now) }
{
    if role.home.is_some() && role.is_private {
        role.symbol
    } else {
        None
    }
}

/// Returns the parent of an operation.
fn parent(roles: &Roles, op: OpId) -> Option<OpId>
    ensures { result ≡ parent_at (numbers_at roles.now op) }
{
    match roles.get(op) {
        None => None,
        Some(role) => role.parent,
    }
}

/// Returns the innermost unmarked definition that contains the operation, which may be the operation itself. Refuses an
/// operation at a depth above the limit.
pub(crate) fn left_above(
    roles: &Roles,
    left: &BTreeMap<OpId, Vec<OpId>>,
    op: OpId,
) -> Result<Option<OpId>, AllocError>
    ensures { IfOk result (λ p. IsAbove (numbers_at roles.now) (left_at left.now) op p) }
{
    let mut at = op;
    'up: for _ in 0..129 {
        if left.contains_key(&at) {
            return Ok(Some(at));
        }
        let Some(around) = parent(roles, at) else {
            return Ok(None);
        };
        at = around;
    }
    Err(AllocError)
}

/// Makes an operation wait for an unmarked definition.
pub(crate) fn wait(
    left: &mut BTreeMap<OpId, Vec<OpId>>,
    op: OpId,
    definition: OpId,
) -> Result<(), AllocError>
    ensures waiting { OnOk result
        ((ws : List ℕ) → left_at left.old definition ≡ Some ws
        → Waiting op definition ws (left_at left.old) (left_at left.new)) }
    ensures len { btree_map_len left.new ≡ btree_map_len left.old }
{
    if let Some(waiting) = left.get_mut(&definition) {
        waiting.push(op)?;
    }
    Ok(())
}

/// Marks a definition as reached, if it isn't marked. The operations that waited for it become pending.
pub(crate) fn take_out(
    left: &mut BTreeMap<OpId, Vec<OpId>>,
    pending: &mut Vec<Vec<OpId>>,
    definition: OpId,
) -> Result<(), AllocError>
    ensures taken { OnOk result
        (TakesOut definition (queue_of pending.old) (left_at left.old) (queue_of pending.new) (left_at left.new)) }
    ensures size { OnOk result (size left.new pending.new ≤ size left.old pending.old) }
{
    if let Some(waiting) = left.remove(&definition) {
        pending.push(waiting)?;
    }
    Ok(())
}

/// Adds an operation to the unmarked definitions if it is a private definition.
fn add(
    alloc: Global,
    op: OpId,
    role: &Role,
    left: &mut BTreeMap<OpId, Vec<OpId>>,
) -> Result<(), AllocError>
    ensures { OnOk result ((z : ℕ)
        → left_at left.new z ≡ added op (unreached.private_name (role_numbers role.now)) z (left_at left.old z)) }
{
    if private_name(role).is_some() {
        left.insert(op, Vec::new(alloc))?;
    }
    Ok(())
}

/// Adds an operation of a table to the unmarked definitions if it is a private definition.
fn add_at(
    alloc: Global,
    roles: &Roles,
    op: OpId,
    left: &mut BTreeMap<OpId, Vec<OpId>>,
) -> Result<(), AllocError>
    ensures { OnOk result ((z : ℕ) → left_at left.new z ≡ added_at op (numbers_at roles.now op) z (left_at left.old z)) }
{
    match roles.get(op) {
        None => Ok(()),
        Some(role) => add(alloc, op, role, left),
    }
}

/// Returns all private definitions, unmarked.
pub(crate) fn all_left(
    alloc: Global,
    roles: &Roles,
) -> Result<BTreeMap<OpId, Vec<OpId>>, AllocError>
    ensures { IfOk result (λ left. (x : ℕ)
        → left_at left x ≡ (if says_definition (numbers_at roles.now x) then Some [] else None)) }
{
    let mut left = BTreeMap::new(alloc);
    for op in &roles.hidden {
        add_at(alloc, roles, *op, &mut left)?;
    }
    Ok(left)
}
