//! Theorems that relate the rows to the words of a context.
ghost use Rattle.std.specs.Prelude.{◌≡◌, ℕ, List, map, is_some};
ghost use Rattle.ir_types.specs.Words.{operations, keys, is_listed};
ghost use Rattle.op_registry.specs.Rows.{Row, rows};
ghost use Rattle.op_registry.specs.Registry.{row_of, keys_of};
ghost use Rattle.op_registry.specs.Properties.{property_kinds};
ghost use Rattle.op_registry.specs.declared.property.PropertyKind.{PropertyKind};

/// The rows are those of the registered operations, with the keys of their properties.
pub fn rows_are_operations()
    ensures { map (λ (row : List ℕ × Row). (row.0, keys_of row.1)) rows ≡ operations }
{}

/// An operation is registered exactly if it has a row.
pub fn listed_has_row()
    ensures { (op : List ℕ) → is_listed op ≡ is_some (row_of op) }
{}

/// Each key has a kind.
pub fn kinds_are_of_keys()
    ensures { map (λ (row : List ℕ × PropertyKind). row.0) property_kinds ≡ keys }
{}
