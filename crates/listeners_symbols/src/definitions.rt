//! The definitions of symbols.
ghost use Rattle.std.specs.Prelude.{◌≡◌, ◌++◌, [], ◌∷◌, ℕ, eqb, OnOk, IfOk};
ghost use Rattle.ir_event.specs.trees.Ids.{first_of};
ghost use Rattle.listeners_symbols.specs.Symbols.{definitions, defined, first_defined};
ghost use Rattle.listeners_symbols.specs.Listeners.{kept_at};
ghost use Rattle.listeners_symbols.specs.Lines.{HasFirst, defined_by, first_in, numbered};
ghost use Rattle.listeners_symbols.specs.Telling.{contribution_at};

use crate::role::Role;
use crate::roles::Roles;
use ir_event::types::ids::{NameId, OpId};
use std::alloc::{AllocError, Global};
use std::collections::BTreeMap;
use std::marker::Model;

/// A definition: the symbol table and the name, and the operation.
pub type Definition = ((OpId, NameId), OpId);

/// Definitions ordered by operation id. A contract describes them by the list.
#[derive(Drop)]
pub struct Definitions {
    list: Vec<Definition>,
    /// The first definition of each name in each symbol table.
    first: BTreeMap<(OpId, NameId), OpId>,
}

impl Model for Definitions {
    ghost use Rattle.std.specs.Prelude.{List, ℕ};

    ghost Value = { List ((ℕ × ℕ) × ℕ) };

    ghost use Rattle.listeners_symbols.specs.Lines.{HasFirst};

    ghost view = { λ d. d.list.items };

    ghost invariant = { λ d. HasFirst d.list.items d.first };
}

impl Definitions {
    /// Returns the definitions, ordered by operation id.
    pub fn list(&self) -> &[Definition]
        ensures { result.now ≡ self.now }
    {
        &self.list
    }

    /// Returns the operation that defines a name in a symbol table: the first of several definitions, or `None`.
    pub fn first(&self, table: OpId, name: NameId) -> Option<OpId>
        ensures { result ≡ first_defined eqb table name self.now }
    {
        self.first.get(&(table, name)).copied()
    }
}

/// Appends the definition of an operation, if it is one.
fn push_definition(op: OpId, role: &Role, out: &mut Vec<Definition>) -> Result<(), AllocError>
    ensures { OnOk result (out.new.items ≡ out.old.items ++ defined role.now.home role.now.symbol op) }
{
    let Some(table) = role.home else {
        return Ok(());
    };
    let Some(name) = role.symbol else {
        return Ok(());
    };
    out.push(((table, name), op))?;
    Ok(())
}

/// Appends the definition of an operation of a table, if it is one.
fn push_definition_at(roles: &Roles, op: OpId, out: &mut Vec<Definition>) -> Result<(), AllocError>
    ensures { OnOk result (out.new.items ≡ out.old.items ++ contribution_at defined_by op (kept_at roles.now op)) }
{
    match roles.get(op) {
        None => Ok(()),
        Some(role) => push_definition(op, role, out),
    }
}

/// Returns the definitions of a table of roles, ordered by operation id.
fn listed(alloc: Global, roles: &Roles) -> Result<Vec<Definition>, AllocError>
    ensures { IfOk result (λ v. v.items ≡ definitions (numbered roles.now.all.entries)) }
{
    roles.ordered();
    let mut out = Vec::new(alloc);
    for op in &roles.symbol_ops {
        push_definition_at(roles, *op, &mut out)?;
    }
    Ok(out)
}

/// Adds a definition if its symbol table has no definition of its name yet.
fn add_first(
    definition: &Definition,
    first: &mut BTreeMap<(OpId, NameId), OpId>,
) -> Result<(), AllocError>
    ensures { OnOk result ((table name : ℕ) → first_in first.new table name
        ≡ first_of (first_in first.old table name) (first_defined eqb table name (definition.now ∷ []))) }
{
    let (key, op) = *definition;
    if first.get(&key).is_some() {
        return Ok(());
    }
    first.insert(key, op)?;
    Ok(())
}

/// Returns the first definition of each name in each symbol table.
fn firsts(alloc: Global, list: &[Definition]) -> Result<BTreeMap<(OpId, NameId), OpId>, AllocError>
    ensures { IfOk result (λ m. HasFirst list.now m) }
{
    let mut first = BTreeMap::new(alloc);
    let mut rest = list;
    while let [definition, more @ ..] = rest {
        add_first(definition, &mut first)?;
        rest = more;
    }
    Ok(first)
}

/// Returns the definitions of a table of roles.
pub fn definitions_of(alloc: Global, roles: &Roles) -> Result<Definitions, AllocError>
    ensures { IfOk result (λ d. d ≡ definitions (numbered roles.now.all.entries)) }
{
    let list = listed(alloc, roles)?;
    let first = firsts(alloc, &list)?;
    Ok(Definitions { list, first })
}
