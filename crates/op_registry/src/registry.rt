//! Looks up rows of the operation table.
ghost use Rattle.std.specs.Prelude.{◌≡◌, ℕ, List, map, slice_get};
ghost use Rattle.std.specs.Option.{option_map};
ghost use Rattle.ir_types.specs.Things.{ContextModel};
ghost use Rattle.ir_types.specs.Terms.{name_term};
ghost use Rattle.ir_types.specs.Sound.{IsSound};
ghost use Rattle.op_registry.specs.Rows.{Row, rows};
ghost use Rattle.op_registry.specs.Registry.{row_from, row_of, has_trait, own_of};

use crate::definition::{OpDef, Trait};
use crate::own::Own;
use crate::table::table;
use ir_types::ids::NameId;

/// The rows of the registered operations. The index of a row is the id of the operation's name, which is the same in
/// every context.
#[derive(Clone, Copy)]
pub struct Registry {
    table: &'static [OpDef],
    ghost whole: { map row_from table.now ≡ map (λ (row : List ℕ × Row). row.1) rows },
}

impl Registry {
    /// Returns the registry of the operation table.
    pub fn new() -> Registry {
        Registry { table: table() }
    }

    /// Returns the row of an operation, or `None` if it isn't registered.
    pub fn get(&self, name: NameId) -> Option<&OpDef>
        ensures { (c : ContextModel) → IsSound c → option_map (λ def. row_from def.now) result ≡ row_of (name_term c name) }
    {
        row_at(self.table, name.number() as usize)
    }

    /// Returns whether an operation has a trait. An operation that isn't registered has none.
    pub fn has(&self, name: NameId, wanted: Trait) -> bool
        ensures { (c : ContextModel) → IsSound c → result ≡ has_trait wanted (name_term c name) }
    {
        match self.get(name) {
            Some(def) => def.traits.has(wanted),
            None => false,
        }
    }

    /// Returns the effects of an operation itself: unknown for an operation that isn't registered.
    pub fn effects(&self, name: NameId) -> Own
        ensures { (c : ContextModel) → IsSound c → result ≡ own_of (name_term c name) }
    {
        match self.get(name) {
            Some(def) => def.effects,
            None => Own::Unknown,
        }
    }
}

/// Returns the row at an index of a table, or `None` if there is none.
fn row_at(table: &[OpDef], place: usize) -> Option<&OpDef>
    ensures { option_map (λ def. row_from def.now) result ≡ slice_get (map row_from table.now) place }
{
    if place < table.len() {
        Some(&table[place])
    } else {
        None
    }
}
