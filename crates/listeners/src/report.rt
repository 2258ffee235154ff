//! The report rows of a table of uses.
ghost use Rattle.std.specs.Prelude.{◌≡◌, [], ◌∷◌, ◌++◌, map, IfOk, OnOk};
ghost use Rattle.ir_event.specs.declared.row.Row.{Row as Line};
ghost use Rattle.listeners.specs.Uses.{in_order};
ghost use Rattle.listeners.specs.Keys.{keys_of, key_cells, value_at};
ghost use Rattle.listeners.specs.Tables.{table_uses};

use crate::gather::push_changed;
use crate::key::UseKey;
use crate::table::UseTable;
use ir_event::row::{Cell, Row};
use ir_event::trees::value::Value;
use std::alloc::{AllocError, Global};

/// Returns the keys of the uses in order.
fn sorted_keys(alloc: Global, table: &UseTable) -> Result<Vec<UseKey>, AllocError>
    ensures { IfOk result (λ keys. keys.items ≡ keys_of (in_order (table_uses table.now))) }
{
    let mut keys = Vec::with_capacity(alloc, table.listed.len())?;
    push_changed(&table.changed, &mut keys)?;
    table.listed.push_unchanged(&table.changed, &mut keys)?;
    keys.sort_unstable();
    Ok(keys)
}

/// Returns the value of a key.
fn value_of(key: &UseKey) -> Value
    ensures { result ≡ value_at key.now.owner key.now.region key.now.place }
{
    match key.region {
        None => Value::Result(key.owner, key.place),
        Some(region) => Value::Arg(key.owner, region, key.place),
    }
}

/// Returns the row of a key.
fn row(alloc: Global, key: &UseKey) -> Result<Row, AllocError>
    ensures { IfOk result (λ row. row.cells.items ≡ key_cells key.now) }
{
    let mut cells = Vec::with_capacity(alloc, 3)?;
    cells.push(Cell::Val(value_of(key)))?;
    cells.push(Cell::Op(key.user))?;
    cells.push(Cell::Num(key.operand))?;
    Ok(Row { cells })
}

/// Appends the row of a key.
fn push_row(alloc: Global, key: &UseKey, rows: &mut Vec<Row>) -> Result<(), AllocError>
    ensures { OnOk result (map (λ (r : Line). r.cells.items) rows.new.items
        ≡ map (λ (r : Line). r.cells.items) rows.old.items ++ key_cells key.now ∷ []) }
{
    rows.push(row(alloc, key)?)?;
    Ok(())
}

/// Returns the rows of the keys.
pub(crate) fn rows_of_keys(alloc: Global, keys: &[UseKey]) -> Result<Vec<Row>, AllocError>
    ensures { IfOk result (λ rows. map (λ (r : Line). r.cells.items) rows.items ≡ map key_cells keys.now) }
{
    let mut rows = Vec::with_capacity(alloc, keys.len())?;
    for key in keys {
        push_row(alloc, key, &mut rows)?;
    }
    Ok(rows)
}

/// Returns the rows of a table, in order.
pub(crate) fn rows_of_table(alloc: Global, table: &UseTable) -> Result<Vec<Row>, AllocError>
    ensures { IfOk result (λ rows. map (λ (r : Line). r.cells.items) rows.items
        ≡ map key_cells (keys_of (in_order (table_uses table.now)))) }
{
    let keys = sorted_keys(alloc, table)?;
    rows_of_keys(alloc, &keys)
}
