//! Writes the entries of a note.
ghost use Rattle.std.specs.Prelude.{◌≡◌, ◌++◌, ◌∷◌, [], map, OnOk, Some};
ghost use Rattle.ir_event.specs.types.Terms.{type_term};
ghost use Rattle.ir_event.specs.types.Things.{IsType};
ghost use Rattle.ir_event.specs.Modules.{module_in};
ghost use Rattle.mlir_work_script_base.specs.Values.{op_text, value_text};
ghost use Rattle.mlir_work_notes.specs.Notes.{Held, Operation, AppendsNotes, Typed, listed_op, listed_root, missing_op, missing_value, typed, value_with_type};
ghost use Rattle.ir_event.specs.tree_laws.Values.{type_of_value};

use ir_event::store::store::Store;
use ir_event::trees::value::Value;
use ir_event::types::context::Context;
use ir_event::types::ids::{OpId, TypeId};
use ir_event::world::World;
use ir_text::types::print_type;
use ir_text_tokens::print::print_string;
use mlir_work_script_base::cells;
use std::alloc::{AllocError, Global};

fn write_op_id(out: &mut Vec<u8>, op: OpId) -> Result<(), AllocError>
    ensures { OnOk result (out.new.items ≡ out.old.items ++ op_text op) }
{
    cells::write_op_id(out, op).map_err(|_| AllocError)
}

fn write_value_name(out: &mut Vec<u8>, value: Value) -> Result<(), AllocError>
    ensures { OnOk result (out.new.items ≡ out.old.items ++ value_text value) }
{
    cells::write_value(out, value).map_err(|_| AllocError)
}

/// Appends an operation.
pub(crate) fn write_op(out: &mut Vec<u8>, op: OpId) -> Result<(), AllocError>
    ensures { AppendsNotes result out.old.items out.new.items (Operation op ∷ []) }
{
    out.push(b' ')?;
    write_op_id(out, op)
}

/// Appends operations.
pub(crate) fn write_ops(out: &mut Vec<u8>, ops: &[OpId]) -> Result<(), AllocError>
    ensures { AppendsNotes result out.old.items out.new.items (map Operation ops.now) }
{
    let mut rest = ops;
    'ops: while let [op, more @ ..] = rest {
        write_op(out, *op)?;
        rest = more;
    }
    Ok(())
}

/// Appends a value.
pub(crate) fn write_value(out: &mut Vec<u8>, value: Value) -> Result<(), AllocError>
    ensures { AppendsNotes result out.old.items out.new.items (Held value ∷ []) }
{
    out.push(b' ')?;
    write_value_name(out, value)
}

/// Appends a type in quotes.
fn write_quoted_type(
    alloc: Global,
    ctx: &Context,
    out: &mut Vec<u8>,
    ty: TypeId,
) -> Result<(), AllocError>
    requires { IsType ctx.now ty }
    ensures { AppendsNotes result out.old.items out.new.items (Typed (type_term ctx.now ty) ∷ []) }
{
    let mut text = Vec::new(alloc);
    print_type(ctx, &mut text, ty)?;
    out.push(b' ')?;
    print_string(out, &text)
}

/// Appends an operation, if there is one.
pub(crate) fn write_listed_op(out: &mut Vec<u8>, op: Option<OpId>) -> Result<(), AllocError>
    ensures { AppendsNotes result out.old.items out.new.items (listed_op op) }
{
    match op {
        None => Ok(()),
        Some(op) => write_op(out, op),
    }
}

/// Appends an operation if it isn't in the module.
pub(crate) fn write_missing_op(
    out: &mut Vec<u8>,
    store: &Store,
    op: Option<OpId>,
) -> Result<(), AllocError>
    ensures { AppendsNotes result out.old.items out.new.items (missing_op store.now.module_of.tree op) }
{
    let Some(op) = op else {
        return Ok(());
    };
    if store.in_tree(op) {
        return Ok(());
    }
    write_op(out, op)
}

/// Appends an operation if it is the module's root.
pub(crate) fn write_root(
    out: &mut Vec<u8>,
    store: &Store,
    op: Option<OpId>,
) -> Result<(), AllocError>
    ensures { AppendsNotes result out.old.items out.new.items (listed_root store.now.module_of.tree op) }
{
    let Some(op) = op else {
        return Ok(());
    };
    if store.root() == op {
        return write_op(out, op);
    }
    Ok(())
}

/// Appends a value if it isn't in the module.
fn write_if_missing(out: &mut Vec<u8>, store: &Store, value: &Value) -> Result<(), AllocError>
    ensures { AppendsNotes result out.old.items out.new.items (missing_value store.now.module_of.tree (Some value.now)) }
{
    if store.value_type(*value).is_some() {
        return Ok(());
    }
    write_value(out, *value)
}

/// Appends a value, if there is one and it isn't in the module.
pub(crate) fn write_missing_value(
    out: &mut Vec<u8>,
    store: &Store,
    value: &Option<Value>,
) -> Result<(), AllocError>
    ensures { AppendsNotes result out.old.items out.new.items (missing_value store.now.module_of.tree value.now) }
{
    match value {
        None => Ok(()),
        Some(value) => write_if_missing(out, store, value),
    }
}

/// Appends the type of a value, if the value is in the module.
fn write_type_of(
    alloc: Global,
    world: &World,
    out: &mut Vec<u8>,
    value: &Value,
) -> Result<(), AllocError>
    ensures { AppendsNotes result out.old.items out.new.items (typed (type_of_value value.now (module_in world.now).tree)) }
{
    match world.store.value_type(*value) {
        None => Ok(()),
        Some(ty) => write_quoted_type(alloc, &world.ctx, out, ty),
    }
}

/// Appends a value with its type.
pub(crate) fn write_value_with_type(
    alloc: Global,
    world: &World,
    out: &mut Vec<u8>,
    value: &Option<Value>,
) -> Result<(), AllocError>
    ensures { AppendsNotes result out.old.items out.new.items (value_with_type (module_in world.now).tree value.now) }
{
    match value {
        None => Ok(()),
        Some(value) => {
            write_value(out, *value)?;
            write_type_of(alloc, world, out, value)
        }
    }
}
