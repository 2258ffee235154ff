//! The rows of the report.
ghost use Rattle.std.specs.Prelude.{◌≡◌, ◌++◌, ◌∷◌, [], eqb, map, option_map, OnOk, IfOk, None, false};
ghost use Rattle.std.specs.List.{list_any};
ghost use Rattle.std.specs.Ordering.{nat_cmp};
ghost use Rattle.std.specs.BTreeSet.{contains};
ghost use Rattle.listeners_support.specs.Map as idmap;
ghost use Rattle.ir_event.specs.declared.row.Cell.TheVariants as cell;
ghost use Rattle.ir_event.specs.declared.tag.Tag.TheVariants as word;
ghost use Rattle.ir_event.specs.Tags.{tag_number};
ghost use Rattle.listeners_symbols.specs.Symbols.{all_reference_lines, call_line, definition_lines, duplicate_lines};
ghost use Rattle.listeners_symbols.specs.Symbols.{is_duplicate, mismatch_line, mismatch_lines, reference_line};
ghost use Rattle.listeners_symbols.specs.Symbols.{reference_lines, symbol_lines, lines_with};
ghost use Rattle.listeners_symbols.specs.Table.{call_numbers, reference_of};
ghost use Rattle.listeners_symbols.specs.Listeners.{kept_at};
ghost use Rattle.listeners_symbols.specs.Lines.{call_by, cells_of, lines_cells, numbered, numbers_at, references_by};
ghost use Rattle.listeners_symbols.specs.Telling.{contribution_at};

use crate::definers::Definers;
use crate::definitions::{Definition, Definitions, definitions_of};
use crate::names::{Names, may_mean, possible_names};
use crate::resolve::{fits, resolve};
use crate::role::{Call, Reference, Role};
use crate::roles::Roles;
use ir_event::row::{Cell, Row};
use ir_event::tag::Tag;
use ir_event::trees::value::Value;
use ir_event::types::ids::{AttrId, NameId, OpId};
use std::alloc::{AllocError, Global};

// The checker has no proof of the loans of a function that holds cells, unless the function has a value of each type in
// a cell: so some make a `Value` that nothing uses.

/// Appends the row of a definition, with the word `tag`.
fn push_definition(
    alloc: Global,
    tag: Tag,
    definition: &Definition,
    out: &mut Vec<Row>,
) -> Result<(), AllocError>
    ensures { OnOk result (cells_of out.new.items
        ≡ cells_of out.old.items
        ++ (cell.Tag (tag_number tag) ∷ cell.Op definition.now.0.0 ∷ cell.Name definition.now.0.1
        ∷ cell.Op definition.now.1 ∷ []) ∷ []) }
{
    let ((table, name), op) = *definition;
    let _value = Value::Result(op, 0);
    let mut cells = Vec::with_capacity(alloc, 4)?;
    cells.push(Cell::Tag(tag.number()))?;
    cells.push(Cell::Op(table))?;
    cells.push(Cell::Name(name))?;
    cells.push(Cell::Op(op))?;
    out.push(Row { cells })?;
    Ok(())
}

/// Appends the rows of the definitions.
fn push_definitions(
    alloc: Global,
    definitions: &Definitions,
    out: &mut Vec<Row>,
) -> Result<(), AllocError>
    ensures { OnOk result (cells_of out.new.items
        ≡ cells_of out.old.items ++ lines_cells (definition_lines definitions.now)) }
{
    let mut rest = definitions.list();
    while let [definition, more @ ..] = rest {
        push_definition(alloc, Tag::Def, definition, out)?;
        rest = more;
    }
    Ok(())
}

/// Returns whether another operation defines the same name in the same symbol table first.
fn is_duplicate(definitions: &Definitions, definition: &Definition) -> bool
    ensures { result ≡ is_duplicate eqb definitions.now definition.now }
{
    let ((table, name), op) = *definition;
    match definitions.first(table, name) {
        None => true,
        Some(first) => first != op,
    }
}

/// Appends the rows of the duplicate definitions.
fn push_duplicates(
    alloc: Global,
    definitions: &Definitions,
    out: &mut Vec<Row>,
) -> Result<(), AllocError>
    ensures { OnOk result (cells_of out.new.items
        ≡ cells_of out.old.items ++ lines_cells (duplicate_lines eqb definitions.now definitions.now)) }
{
    let mut rest = definitions.list();
    while let [definition, more @ ..] = rest {
        if is_duplicate(definitions, definition) {
            push_definition(alloc, Tag::Duplicate, definition, out)?;
        }
        rest = more;
    }
    Ok(())
}

/// Appends the row of a reference that resolves.
fn push_use(
    alloc: Global,
    user: OpId,
    path: AttrId,
    op: OpId,
    out: &mut Vec<Row>,
) -> Result<(), AllocError>
    ensures { OnOk result (cells_of out.new.items ≡ cells_of out.old.items
        ++ (cell.Tag (tag_number word.Use) ∷ cell.Op user ∷ cell.Path path ∷ cell.Op op ∷ []) ∷ []) }
{
    let _value = Value::Result(op, 0);
    let mut cells = Vec::with_capacity(alloc, 4)?;
    cells.push(Cell::Tag(Tag::Use.number()))?;
    cells.push(Cell::Op(user))?;
    cells.push(Cell::Path(path))?;
    cells.push(Cell::Op(op))?;
    out.push(Row { cells })?;
    Ok(())
}

/// Appends the row of a reference that doesn't resolve, with the word `tag`.
fn push_unresolved(
    alloc: Global,
    tag: Tag,
    user: OpId,
    path: AttrId,
    out: &mut Vec<Row>,
) -> Result<(), AllocError>
    ensures { OnOk result (cells_of out.new.items
        ≡ cells_of out.old.items ++ (cell.Tag (tag_number tag) ∷ cell.Op user ∷ cell.Path path ∷ []) ∷ []) }
{
    let _value = Value::Result(user, 0);
    let mut cells = Vec::with_capacity(alloc, 3)?;
    cells.push(Cell::Tag(tag.number()))?;
    cells.push(Cell::Op(user))?;
    cells.push(Cell::Path(path))?;
    out.push(Row { cells })?;
    Ok(())
}

/// Appends the row of a reference that doesn't resolve. The word is `unknown` if an operation that isn't a definition
/// may have the name, and `unresolved` otherwise.
fn push_missing(
    alloc: Global,
    may: bool,
    user: OpId,
    path: AttrId,
    out: &mut Vec<Row>,
) -> Result<(), AllocError>
    ensures { OnOk result (cells_of out.new.items
        ≡ cells_of out.old.items ++ lines_cells (reference_line false may user path None)) }
{
    if may {
        push_unresolved(alloc, Tag::Unknown, user, path, out)
    } else {
        push_unresolved(alloc, Tag::Unresolved, user, path, out)
    }
}

/// Appends the row of a reference if it resolves and `resolved` is `true`, or if it doesn't and `resolved` is `false`.
fn push_reference(
    alloc: Global,
    resolved: bool,
    user: OpId,
    reference: &Reference,
    found: Option<OpId>,
    names: &Names,
    out: &mut Vec<Row>,
) -> Result<(), AllocError>
    ensures { OnOk result (cells_of out.new.items ≡ cells_of out.old.items
        ++ lines_cells (reference_line resolved (list_any (contains nat_cmp names.now.possible) reference.now.parts.items)
        user reference.now.path found)) }
{
    match found {
        Some(op) => {
            if resolved {
                push_use(alloc, user, reference.path, op, out)?;
            }
        }
        None => {
            if !resolved {
                let may = may_mean(&names.possible, &reference.parts);
                push_missing(alloc, may, user, reference.path, out)?;
            }
        }
    }
    Ok(())
}

/// Appends the rows of an operation's references.
fn push_references(
    alloc: Global,
    resolved: bool,
    roles: &Roles,
    names: &Names,
    user: OpId,
    role: &Role,
    out: &mut Vec<Row>,
) -> Result<(), AllocError>
    ensures { OnOk result (cells_of out.new.items
        ≡ cells_of out.old.items
        ++ lines_cells (reference_lines eqb (numbers_at roles.now) names.now.definitions
        (contains nat_cmp names.now.possible) resolved user role.now.table
        (map reference_of role.now.references.items))) }
{
    let mut rest = role.references.as_slice();
    while let [reference, more @ ..] = rest {
        let found = resolve(roles, &names.definitions, role.table, &reference.parts);
        push_reference(alloc, resolved, user, reference, found, names, out)?;
        rest = more;
    }
    Ok(())
}

/// Appends the rows of the references of an operation of a table.
fn push_references_at(
    alloc: Global,
    resolved: bool,
    roles: &Roles,
    names: &Names,
    user: OpId,
    out: &mut Vec<Row>,
) -> Result<(), AllocError>
    ensures { OnOk result (cells_of out.new.items ≡ cells_of out.old.items
        ++ lines_cells (contribution_at (references_by (numbers_at roles.now) names.now.definitions
        (contains nat_cmp names.now.possible) resolved) user (kept_at roles.now user))) }
{
    match roles.get(user) {
        None => Ok(()),
        Some(role) => push_references(alloc, resolved, roles, names, user, role, out),
    }
}

/// Appends the rows of the references of all operations.
fn push_all_references(
    alloc: Global,
    resolved: bool,
    roles: &Roles,
    names: &Names,
    out: &mut Vec<Row>,
) -> Result<(), AllocError>
    ensures { OnOk result (cells_of out.new.items ≡ cells_of out.old.items ++ lines_cells
        (all_reference_lines eqb (numbers_at roles.now) names.now.definitions (contains nat_cmp names.now.possible)
        resolved (numbered roles.now.all.entries))) }
{
    roles.ordered();
    for op in &roles.symbol_ops {
        push_references_at(alloc, resolved, roles, names, *op, out)?;
    }
    Ok(())
}

/// Appends the row of a call that doesn't match its callee.
fn push_mismatch(alloc: Global, user: OpId, op: OpId, out: &mut Vec<Row>) -> Result<(), AllocError>
    ensures { OnOk result (cells_of out.new.items
        ≡ cells_of out.old.items ++ (cell.Tag (tag_number word.Mismatch) ∷ cell.Op user ∷ cell.Op op ∷ []) ∷ []) }
{
    let _value = Value::Result(op, 0);
    let mut cells = Vec::with_capacity(alloc, 3)?;
    cells.push(Cell::Tag(Tag::Mismatch.number()))?;
    cells.push(Cell::Op(user))?;
    cells.push(Cell::Op(op))?;
    out.push(Row { cells })?;
    Ok(())
}

/// Appends a row if a call resolves to an operation that isn't a function of its types.
fn push_call(
    alloc: Global,
    roles: &Roles,
    user: OpId,
    call: &Call,
    found: Option<OpId>,
    out: &mut Vec<Row>,
) -> Result<(), AllocError>
    ensures { OnOk result (cells_of out.new.items ≡ cells_of out.old.items
        ++ lines_cells (mismatch_line eqb (numbers_at roles.now) user (call_numbers call.now) found)) }
{
    let Some(op) = found else {
        return Ok(());
    };
    if fits(roles, call, op) {
        return Ok(());
    }
    push_mismatch(alloc, user, op, out)
}

/// Appends the row of an operation's call, if it has a call that doesn't match.
fn push_call_of(
    alloc: Global,
    roles: &Roles,
    definitions: &Definitions,
    user: OpId,
    role: &Role,
    out: &mut Vec<Row>,
) -> Result<(), AllocError>
    ensures { OnOk result (cells_of out.new.items
        ≡ cells_of out.old.items
        ++ lines_cells (call_line eqb eqb (numbers_at roles.now) definitions.now user role.now.table
        (option_map call_numbers role.now.call))) }
{
    let Some(call) = &role.call else {
        return Ok(());
    };
    let call = call.get();
    let found = resolve(roles, definitions, role.table, &call.callee);
    push_call(alloc, roles, user, call, found, out)
}

/// Appends the row of the call of an operation of a table, if it has a call that doesn't match.
fn push_call_at(
    alloc: Global,
    roles: &Roles,
    definitions: &Definitions,
    user: OpId,
    out: &mut Vec<Row>,
) -> Result<(), AllocError>
    ensures { OnOk result (cells_of out.new.items ≡ cells_of out.old.items
        ++ lines_cells (contribution_at (call_by (numbers_at roles.now) definitions.now) user (kept_at roles.now user))) }
{
    match roles.get(user) {
        None => Ok(()),
        Some(role) => push_call_of(alloc, roles, definitions, user, role, out),
    }
}

/// Appends the rows of the calls that don't match.
fn push_mismatches(
    alloc: Global,
    roles: &Roles,
    definitions: &Definitions,
    out: &mut Vec<Row>,
) -> Result<(), AllocError>
    ensures { OnOk result (cells_of out.new.items ≡ cells_of out.old.items
        ++ lines_cells (mismatch_lines eqb eqb (numbers_at roles.now) definitions.now (numbered roles.now.all.entries))) }
{
    roles.ordered();
    for op in &roles.symbol_ops {
        push_call_at(alloc, roles, definitions, *op, out)?;
    }
    Ok(())
}

/// Returns the rows of all operations, given the names.
fn push_lines(
    alloc: Global,
    roles: &Roles,
    names: &Names,
    out: &mut Vec<Row>,
) -> Result<(), AllocError>
    ensures { OnOk result (cells_of out.new.items ≡ cells_of out.old.items
        ++ lines_cells (lines_with eqb eqb (numbers_at roles.now) names.now.definitions
        (contains nat_cmp names.now.possible) (numbered roles.now.all.entries))) }
{
    push_definitions(alloc, &names.definitions, out)?;
    push_duplicates(alloc, &names.definitions, out)?;
    push_all_references(alloc, true, roles, names, out)?;
    push_all_references(alloc, false, roles, names, out)?;
    push_mismatches(alloc, roles, &names.definitions, out)
}

/// Returns the rows of a table of roles, given the operations that may define symbols.
pub(crate) fn lines(
    alloc: Global,
    definers: Definers,
    roles: &Roles,
) -> Result<Vec<Row>, AllocError>
    ensures rows { IfOk result
        (λ out. cells_of out.items
        ≡ lines_cells (symbol_lines eqb eqb definers (numbers_at roles.now) (numbered roles.now.all.entries))) }
    ensures ordered { IfOk result (λ _. idmap.IsOrdered roles.now.all) }
{
    roles.ordered();
    let definitions = definitions_of(alloc, roles)?;
    let possible = possible_names(alloc, definers, roles)?;
    let names = Names {
        definitions,
        possible,
    };
    let mut out = Vec::new(alloc);
    push_lines(alloc, roles, &names, &mut out)?;
    Ok(out)
}
