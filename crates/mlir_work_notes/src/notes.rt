//! Builds the note on the refusal of a command.
ghost use Rattle.std.specs.Prelude.{◌≡◌, IfOk};
ghost use Rattle.ir_event.specs.Modules.{module_in};
ghost use Rattle.ir_event.specs.trees.Meaning.{isolated_in};
ghost use Rattle.ir_event.specs.types.declared.refusal.Refusal.TheVariants.{IntoItself, IsRoot, NoSuchOp, NoSuchValue, TypeDiffers};
ghost use Rattle.mlir_work_script.specs.Commands.{said_of};
ghost use Rattle.mlir_work_notes.specs.Notes.{AppendsNotes, about_if, about_text, notes_of, unseen, users_left};
ghost use Rattle.rewriter_machine.specs.Commands.{Replace};

use crate::note_subjects::{
    entry_dropped, entry_set, holder_of, place_of_command, subject_of, value_given, value_replaced,
};
use crate::users::{blind_users, outside_users};
use crate::write_notes::{
    write_listed_op, write_missing_op, write_missing_value, write_op, write_ops, write_root,
    write_value, write_value_with_type,
};
use ir_event::trees::value::Value;
use ir_event::types::refusal::Refusal;
use ir_event::world::World;
use mlir_work_script::command::Command;
use std::alloc::{AllocError, Global};

/// Appends the operations that a command names and that aren't in the module.
fn write_missing_ops(
    world: &World,
    out: &mut Vec<u8>,
    command: &Command<'_>,
) -> Result<(), AllocError>
    ensures { AppendsNotes result out.old.items out.new.items (notes_of NoSuchOp (said_of command.now) (module_in world.now)) }
{
    write_missing_op(out, &world.store, subject_of(command))?;
    write_missing_op(out, &world.store, place_of_command(command))
}

/// Appends the values that a command names and that aren't in the module.
fn write_missing_values(
    world: &World,
    out: &mut Vec<u8>,
    command: &Command<'_>,
) -> Result<(), AllocError>
    ensures { AppendsNotes result out.old.items out.new.items (notes_of NoSuchValue (said_of command.now) (module_in world.now)) }
{
    write_missing_value(out, &world.store, &value_replaced(command))?;
    write_missing_value(out, &world.store, &value_given(command))
}

/// Appends the operations outside the erased operation that use its values.
fn write_users_left(
    alloc: Global,
    world: &World,
    out: &mut Vec<u8>,
    command: &Command<'_>,
) -> Result<(), AllocError>
    ensures { AppendsNotes result out.old.items out.new.items (users_left world.now.store.module_of.tree (said_of command.now)) }
{
    match command {
        Command::Erase(op) => write_ops(out, &outside_users(alloc, world, *op)?),
        _ => Ok(()),
    }
}

/// Appends the replacement value and the users at which it isn't visible.
fn write_blind(
    alloc: Global,
    world: &World,
    out: &mut Vec<u8>,
    old: &Value,
    new: &Value,
) -> Result<(), AllocError>
    ensures { AppendsNotes result out.old.items out.new.items (unseen (isolated_in world.now.ctx) world.now.store.module_of.tree (Replace old.now new.now)) }
{
    write_value(out, *new)?;
    write_ops(out, &blind_users(alloc, world, old, new)?)
}

/// Appends a value that isn't visible, and the operations at which it isn't.
fn write_unseen(
    alloc: Global,
    world: &World,
    out: &mut Vec<u8>,
    command: &Command<'_>,
) -> Result<(), AllocError>
    ensures { AppendsNotes result out.old.items out.new.items (unseen (isolated_in world.now.ctx) world.now.store.module_of.tree (said_of command.now)) }
{
    match command {
        Command::SetOperand { op, value, .. } => {
            write_value(out, *value)?;
            write_op(out, *op)
        }
        Command::Replace { old, new } => write_blind(alloc, world, out, old, new),
        _ => Ok(()),
    }
}

/// Appends two values and their types.
fn write_types(
    alloc: Global,
    world: &World,
    out: &mut Vec<u8>,
    command: &Command<'_>,
) -> Result<(), AllocError>
    ensures { AppendsNotes result out.old.items out.new.items (notes_of TypeDiffers (said_of command.now) (module_in world.now)) }
{
    write_value_with_type(alloc, world, out, &value_replaced(command))?;
    write_value_with_type(alloc, world, out, &value_given(command))
}

/// Appends the operation that a command moves and the operation of its insertion point.
fn write_both(world: &World, out: &mut Vec<u8>, command: &Command<'_>) -> Result<(), AllocError>
    ensures { AppendsNotes result out.old.items out.new.items (notes_of IntoItself (said_of command.now) (module_in world.now)) }
{
    write_listed_op(out, subject_of(command))?;
    write_listed_op(out, place_of_command(command))
}

/// Appends those of the named operations that are the module's root.
fn write_roots(world: &World, out: &mut Vec<u8>, command: &Command<'_>) -> Result<(), AllocError>
    ensures { AppendsNotes result out.old.items out.new.items (notes_of IsRoot (said_of command.now) (module_in world.now)) }
{
    write_root(out, &world.store, subject_of(command))?;
    write_root(out, &world.store, place_of_command(command))
}

/// Appends the operations and values that the refusal of a command is about.
fn write_notes(
    alloc: Global,
    world: &World,
    out: &mut Vec<u8>,
    refusal: Refusal,
    command: &Command<'_>,
) -> Result<(), AllocError>
    ensures { AppendsNotes result out.old.items out.new.items (notes_of refusal (said_of command.now) (module_in world.now)) }
{
    match refusal {
        Refusal::NoSuchOp => write_missing_ops(world, out, command),
        Refusal::NoSuchValue => write_missing_values(world, out, command),
        Refusal::HasUses => write_users_left(alloc, world, out, command),
        Refusal::NotVisible => write_unseen(alloc, world, out, command),
        Refusal::TypeDiffers => write_types(alloc, world, out, command),
        Refusal::NoSuchIndex => write_listed_op(out, holder_of(command)),
        Refusal::NoSuchKey => write_listed_op(out, entry_dropped(command)),
        Refusal::Full => write_listed_op(out, entry_set(command)),
        Refusal::IntoItself | Refusal::OtherTable => write_both(world, out, command),
        Refusal::TooDeepHere => write_listed_op(out, place_of_command(command)),
        Refusal::IsRoot => write_roots(world, out, command),
        _ => Ok(()),
    }
}

/// Returns the listed text after the word `about`, or an empty text if nothing is listed.
fn about_if(alloc: Global, reported: &[u8]) -> Result<Vec<u8>, AllocError>
    ensures { IfOk result (λ v. v.items ≡ about_if reported.now) }
{
    let mut out = Vec::new(alloc);
    if reported.is_empty() {
        return Ok(out);
    }
    out.extend_from_slice(b" about")?;
    out.extend_from_slice(reported)?;
    Ok(out)
}

/// Returns the note on the refusal of a command in the module. It is empty if there is nothing to list.
pub fn notes_for(
    alloc: Global,
    world: &World,
    refusal: Refusal,
    command: &Command<'_>,
) -> Result<Vec<u8>, AllocError>
    ensures { IfOk result (λ v. v.items ≡ about_text (notes_of refusal (said_of command.now) (module_in world.now))) }
{
    let mut reported = Vec::new(alloc);
    write_notes(alloc, world, &mut reported, refusal, command)?;
    about_if(alloc, &reported)
}
