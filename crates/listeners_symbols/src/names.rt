//! The names to which references may refer.
ghost use Rattle.std.specs.Prelude.{◌≡◌, ◌||◌, ℕ, eqb, OnOk, IfOk};
ghost use Rattle.std.specs.List.{list_any};
ghost use Rattle.std.specs.Ordering.{nat_cmp};
ghost use Rattle.std.specs.BTreeSet.{contains};
ghost use Rattle.listeners_symbols.specs.Symbols.{is_among, undefined};
ghost use Rattle.listeners_symbols.specs.Symbols as symbols;
ghost use Rattle.listeners_symbols.specs.Listeners.{kept_at};
ghost use Rattle.listeners_symbols.specs.Lines.{HasNames, numbered, undefined_by};
ghost use Rattle.listeners_symbols.specs.Telling.{contribution_at};

use crate::definers::Definers;
use crate::definitions::Definitions;
use crate::role::Role;
use crate::roles::{Roles, defines};
use ir_event::types::ids::{NameId, OpId};
use std::alloc::{AllocError, Global};
use std::collections::BTreeSet;

/// The definitions, and the names that other operations may define as symbols.
#[derive(Drop)]
pub(crate) struct Names {
    pub(crate) definitions: Definitions,
    pub(crate) possible: BTreeSet<NameId>,
}

/// Adds the name of an operation if it has one and isn't a definition.
fn add_name(role: &Role, names: &mut BTreeSet<NameId>) -> Result<(), AllocError>
    ensures { OnOk result ((n : ℕ) → contains nat_cmp names.new n
        ≡ (contains nat_cmp names.old n || is_among eqb (undefined role.now.home role.now.symbol role.now.name) n)) }
{
    let Some(name) = role.name else {
        return Ok(());
    };
    if defines(role) {
        return Ok(());
    }
    names.insert(name)?;
    Ok(())
}

/// Adds the name of an operation of a table if it has one and isn't a definition.
fn add_name_at(roles: &Roles, op: OpId, names: &mut BTreeSet<NameId>) -> Result<(), AllocError>
    ensures { OnOk result ((n : ℕ) → contains nat_cmp names.new n
        ≡ (contains nat_cmp names.old n || is_among eqb (contribution_at undefined_by op (kept_at roles.now op)) n)) }
{
    match roles.get(op) {
        None => Ok(()),
        Some(role) => add_name(role, names),
    }
}

/// Returns the names of the operations of a table of roles that aren't definitions.
fn undefined_names(alloc: Global, roles: &Roles) -> Result<BTreeSet<NameId>, AllocError>
    ensures { IfOk result (λ s. HasNames (symbols.undefined_names (numbered roles.now.all.entries)) s) }
{
    roles.ordered();
    let mut names = BTreeSet::new(alloc);
    for op in &roles.naming {
        add_name_at(roles, *op, &mut names)?;
    }
    Ok(names)
}

/// Returns the names that operations which aren't definitions may define as symbols.
pub(crate) fn possible_names(
    alloc: Global,
    definers: Definers,
    roles: &Roles,
) -> Result<BTreeSet<NameId>, AllocError>
    ensures { IfOk result (λ s. HasNames (symbols.possible_names definers (numbered roles.now.all.entries)) s) }
{
    match definers {
        Definers::Listed => Ok(BTreeSet::new(alloc)),
        Definers::AnyNamed => undefined_names(alloc, roles),
    }
}

/// Returns whether a part of a reference is one of these names.
pub(crate) fn may_mean(possible: &BTreeSet<NameId>, parts: &[NameId]) -> bool
    ensures { result ≡ list_any (contains nat_cmp possible.now) parts.now }
{
    let mut rest = parts;
    while let [part, more @ ..] = rest {
        if possible.contains(part) {
            return true;
        }
        rest = more;
    }
    false
}
