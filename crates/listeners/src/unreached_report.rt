//! The rows of the report of unreached symbols.
ghost use Rattle.std.specs.Prelude.{◌≡◌, ◌++◌, ◌∷◌, [], OnOk, IfOk};
ghost use Rattle.std.specs.Ordering.{nat_cmp};
ghost use Rattle.listeners_support.specs.Map as idmap;
ghost use Rattle.ir_event.specs.declared.row.Cell.TheVariants.{Op, Name};
ghost use Rattle.listeners_symbols.specs.Symbols.{definitions};
ghost use Rattle.listeners_symbols.specs.Table.{role_numbers};
ghost use Rattle.listeners_symbols.specs.Lines.{cells_of, numbered, numbers_at};
ghost use Rattle.listeners_symbols.specs.Listeners.{kept_at};
ghost use Rattle.listeners_symbols.specs.Telling.{contribution_at};
ghost use Rattle.listeners.specs.Lines.{is_out, line_by, lines_cells};
ghost use Rattle.listeners.specs.Marking.{Left};
ghost use Rattle.listeners.specs.Marks.{IsMarked, left_at};
ghost use Rattle.listeners.specs.Unreached as unreached;
ghost use Rattle.listeners.specs.Unreached.{line_of, lines_with};

use crate::marking::unreached;
use crate::waiting::private_name;
use ir_event::row::{Cell, Row};
use ir_event::trees::value::Value;
use ir_event::types::ids::{NameId, OpId};
use listeners_symbols::role::Role;
use listeners_symbols::roles::Roles;
use std::alloc::{AllocError, Global};
use std::collections::BTreeMap;

// The checker has no proof of the loans of a function that holds cells, unless the function has a value of each type in
// a cell: so one makes a `Value` that nothing uses.

/// Appends the row of a definition.
fn push_line(alloc: Global, op: OpId, name: NameId, out: &mut Vec<Row>) -> Result<(), AllocError>
    ensures { OnOk result (cells_of out.new.items ≡ cells_of out.old.items ++ (Op op ∷ Name name ∷ []) ∷ []) }
{
    let _value = Value::Result(op, 0);
    let mut cells = Vec::with_capacity(alloc, 2)?;
    cells.push(Cell::Op(op))?;
    cells.push(Cell::Name(name))?;
    out.push(Row { cells })?;
    Ok(())
}

/// Appends the row of an operation if it is a private definition that isn't reached.
fn push_line_of(
    alloc: Global,
    left: &BTreeMap<OpId, Vec<OpId>>,
    op: OpId,
    role: &Role,
    out: &mut Vec<Row>,
) -> Result<(), AllocError>
    ensures { OnOk result (cells_of out.new.items ≡ cells_of out.old.items
        ++ lines_cells (line_of (is_out (left_at left.now) op) op (unreached.private_name (role_numbers role.now)))) }
{
    if !left.contains_key(&op) {
        return Ok(());
    }
    let Some(name) = private_name(role) else {
        return Ok(());
    };
    push_line(alloc, op, name, out)
}

/// Appends the row of an operation of a table if it is a private definition that isn't reached.
fn push_line_at(
    alloc: Global,
    roles: &Roles,
    left: &BTreeMap<OpId, Vec<OpId>>,
    op: OpId,
    out: &mut Vec<Row>,
) -> Result<(), AllocError>
    ensures { OnOk result (cells_of out.new.items
        ≡ cells_of out.old.items ++ lines_cells (contribution_at (line_by (left_at left.now)) op (kept_at roles.now op))) }
{
    match roles.get(op) {
        None => Ok(()),
        Some(role) => push_line_of(alloc, left, op, role, out),
    }
}

/// Appends the rows of the private definitions that aren't reached.
fn push_lines(
    alloc: Global,
    roles: &Roles,
    left: &BTreeMap<OpId, Vec<OpId>>,
    out: &mut Vec<Row>,
) -> Result<(), AllocError>
    ensures { OnOk result (cells_of out.new.items
        ≡ cells_of out.old.items ++ lines_cells (lines_with (is_out (left_at left.now)) (numbered roles.now.all.entries))) }
{
    roles.ordered();
    for op in &roles.hidden {
        push_line_at(alloc, roles, left, *op, out)?;
    }
    Ok(())
}

/// Returns the rows of a table of roles that may have private definitions.
fn lines_left(alloc: Global, roles: &Roles) -> Result<Vec<Row>, AllocError>
    ensures rows { IfOk result
        (λ out. (left : Left) × IsMarked (numbers_at roles.now) (definitions (numbered roles.now.all.entries)) left
        × (cells_of out.items ≡ lines_cells (lines_with (is_out left) (numbered roles.now.all.entries)))) }
{
    let left = unreached(alloc, roles)?;
    let mut out = Vec::new(alloc);
    push_lines(alloc, roles, &left, &mut out)?;
    Ok(out)
}

/// Returns the rows of a table of roles. Without private definitions, the table isn't read.
pub(crate) fn lines(alloc: Global, roles: &Roles) -> Result<Vec<Row>, AllocError>
    ensures rows { IfOk result
        (λ out. (left : Left) × IsMarked (numbers_at roles.now) (definitions (numbered roles.now.all.entries)) left
        × (cells_of out.items ≡ lines_cells (lines_with (is_out left) (numbered roles.now.all.entries)))) }
    ensures ordered { IfOk result (λ _. idmap.IsOrdered roles.now.all) }
{
    roles.ordered();
    if roles.hidden.is_empty() {
        return Ok(Vec::new(alloc));
    }
    let out = lines_left(alloc, roles)?;
    Ok(out)
}
