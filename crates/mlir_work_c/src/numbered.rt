//! The C functions for edits by interned numbers, and for interning.
ghost use Rattle.std.specs.Prelude.{◌≡◌};
ghost use Rattle.rewriter.specs.RewriterCalls.{AgreesOrStale};
ghost use Rattle.mlir_work_analyses.specs.Listeners.{any_analysis};
ghost use Rattle.mlir_work_c.specs.Calls.{IsHeld};
ghost use Rattle.mlir_work_c.specs.Numbers.{point_of_numbers};
ghost use Rattle.mlir_work_c.specs.Numbered.{AttributeGoes, AttributeInterned, Drops, DropGoes, InsertGoes, InsertsNew, NameGoes, NameInterned, Sets, SetGoes, TypeGoes, TypeInterned};

use crate::answer::{Answer, closed, counted, edited, inserted, parse_error_answer, refused};
use crate::handle::Handle;
use crate::numbers::{NewOperation, point_of};
use crate::session::Session;
use ir_event::types::ids::{AttrId, NameId, OpId};
use ir_event::types::refusal::Refusal;
use mlir_work_c_read::attributes::{drop_attribute, set_attribute};
use mlir_work_c_read::header::{NewEntry, header_of};
use mlir_work_c_read::insert::insert;
use mlir_work_c_read::intern::{intern_attribute, intern_name, intern_type};
use mlir_work_c_read::numbers::ValueNumbers;
use std::alloc::Global;

/// Inserts an operation without regions.
fn insert_in(
    alloc: Global,
    session: &mut Session,
    new: &NewOperation,
    operands: &[ValueNumbers],
    results: &[u32],
    entries: &[NewEntry],
) -> Answer
    requires { AgreesOrStale any_analysis session.old.bench }
    ensures inserts { InsertsNew (point_of_numbers new.now.point) new.now.name operands.now results.now entries.now session.old result session.new }
    ensures kept { AgreesOrStale any_analysis session.new.bench }
{
    let Some(point) = point_of(&new.point) else {
        return refused(Refusal::BadCommand);
    };
    let ctx = &session.bench.world().ctx;
    match header_of(alloc, ctx, new.name, operands, results, entries) {
        Err(refusal) => return refused(refusal),
        Ok(header) => return inserted(insert(&mut session.bench, &point, &header)),
    }
}

/// Inserts an operation without regions, with its entries in the dictionaries and in the order that they have in the
/// text of `insert`. An insertion point of unknown kind is refused as a bad command.
#[unsafe(no_mangle)]
pub extern "C" fn mlir_work_insert(
    alloc: Global,
    held: &mut Handle,
    new: &NewOperation,
    operands: &[ValueNumbers],
    results: &[u32],
    entries: &[NewEntry],
    answer: &mut Answer,
)
    requires kept { IsHeld held.old.slot.value }
    ensures goes { InsertGoes (point_of_numbers new.now.point) new.now.name operands.now results.now entries.now held.old.slot.value answer.new held.new.slot.value }
    ensures kept { IsHeld held.new.slot.value }
{
    if !held.is_open() {
        *answer = closed();
        return;
    }
    let found = held.slot.as_mut();
    *answer = insert_in(alloc, found, new, operands, results, entries);
}

/// Sets the entry of an operation at a key.
fn set_in(session: &mut Session, op: OpId, key: NameId, attribute: AttrId) -> Answer
    requires { AgreesOrStale any_analysis session.old.bench }
    ensures sets { Sets op key attribute session.old result session.new }
    ensures kept { AgreesOrStale any_analysis session.new.bench }
{
    edited(set_attribute(&mut session.bench, op, key, attribute))
}

/// Sets the entry of an operation at a key, as `set-attr` does.
#[unsafe(no_mangle)]
pub extern "C" fn mlir_work_set_attribute(
    held: &mut Handle,
    operation: u32,
    key: u32,
    attribute: u32,
    answer: &mut Answer,
)
    requires kept { IsHeld held.old.slot.value }
    ensures goes { SetGoes operation key attribute held.old.slot.value answer.new held.new.slot.value }
    ensures kept { IsHeld held.new.slot.value }
{
    if !held.is_open() {
        *answer = closed();
        return;
    }
    let found = held.slot.as_mut();
    *answer = set_in(
        found,
        OpId::new(operation),
        NameId::new(key),
        AttrId::new(attribute),
    );
}

/// Removes the entry of an operation at a key.
fn drop_in(session: &mut Session, op: OpId, key: NameId) -> Answer
    requires { AgreesOrStale any_analysis session.old.bench }
    ensures drops { Drops op key session.old result session.new }
    ensures kept { AgreesOrStale any_analysis session.new.bench }
{
    edited(drop_attribute(&mut session.bench, op, key))
}

/// Removes the entry of an operation at a key, as `drop-attr` does.
#[unsafe(no_mangle)]
pub extern "C" fn mlir_work_drop_attribute(
    held: &mut Handle,
    operation: u32,
    key: u32,
    answer: &mut Answer,
)
    requires kept { IsHeld held.old.slot.value }
    ensures goes { DropGoes operation key held.old.slot.value answer.new held.new.slot.value }
    ensures kept { IsHeld held.new.slot.value }
{
    if !held.is_open() {
        *answer = closed();
        return;
    }
    let found = held.slot.as_mut();
    *answer = drop_in(found, OpId::new(operation), NameId::new(key));
}

/// Returns the answer with the number of a name.
fn name_in(session: &mut Session, text: &[u8]) -> Answer
    requires { AgreesOrStale any_analysis session.old.bench }
    ensures interned { NameInterned text.now session.old result session.new }
    ensures kept { AgreesOrStale any_analysis session.new.bench }
{
    match intern_name(&mut session.bench, text) {
        Ok(name) => counted(name.number() as u64),
        Err(refusal) => refused(refusal),
    }
}

/// Gets the number of a name. A new name is interned.
#[unsafe(no_mangle)]
pub extern "C" fn mlir_work_name(held: &mut Handle, text: &[u8], answer: &mut Answer)
    requires kept { IsHeld held.old.slot.value }
    ensures goes { NameGoes text.now held.old.slot.value answer.new held.new.slot.value }
    ensures kept { IsHeld held.new.slot.value }
{
    if !held.is_open() {
        *answer = closed();
        return;
    }
    let found = held.slot.as_mut();
    *answer = name_in(found, text);
}

/// Returns the answer with the number of a type.
fn type_in(session: &mut Session, text: &[u8]) -> Answer
    requires { AgreesOrStale any_analysis session.old.bench }
    ensures interned { TypeInterned text.now session.old result session.new }
    ensures kept { AgreesOrStale any_analysis session.new.bench }
{
    match intern_type(&mut session.bench, text) {
        Ok(ty) => counted(ty.number() as u64),
        Err(error) => parse_error_answer(error),
    }
}

/// Gets the number of a type. A new type is interned.
#[unsafe(no_mangle)]
pub extern "C" fn mlir_work_type(held: &mut Handle, text: &[u8], answer: &mut Answer)
    requires kept { IsHeld held.old.slot.value }
    ensures goes { TypeGoes text.now held.old.slot.value answer.new held.new.slot.value }
    ensures kept { IsHeld held.new.slot.value }
{
    if !held.is_open() {
        *answer = closed();
        return;
    }
    let found = held.slot.as_mut();
    *answer = type_in(found, text);
}

/// Returns the answer with the number of an attribute.
fn attribute_in(session: &mut Session, text: &[u8]) -> Answer
    requires { AgreesOrStale any_analysis session.old.bench }
    ensures interned { AttributeInterned text.now session.old result session.new }
    ensures kept { AgreesOrStale any_analysis session.new.bench }
{
    match intern_attribute(&mut session.bench, text) {
        Ok(attribute) => counted(attribute.number() as u64),
        Err(error) => parse_error_answer(error),
    }
}

/// Gets the number of an attribute. A new attribute is interned.
#[unsafe(no_mangle)]
pub extern "C" fn mlir_work_attribute(held: &mut Handle, text: &[u8], answer: &mut Answer)
    requires kept { IsHeld held.old.slot.value }
    ensures goes { AttributeGoes text.now held.old.slot.value answer.new held.new.slot.value }
    ensures kept { IsHeld held.new.slot.value }
{
    if !held.is_open() {
        *answer = closed();
        return;
    }
    let found = held.slot.as_mut();
    *answer = attribute_in(found, text);
}
