//! The C functions that read operations, their entries and their uses, and the texts of interned numbers. They change
//! nothing.
ghost use Rattle.std.specs.Prelude.{◌≡◌, option_map};
ghost use Rattle.mlir_work_c.specs.Requested.{requested};
ghost use Rattle.mlir_work_c.specs.Calls.{IsHeld};
ghost use Rattle.mlir_work_c_read.specs.Numbers.{number_of as reported, value_of as show_value};
ghost use Rattle.mlir_work_c.specs.Reading.{MayWrite, Writes, WritesItems, WritesOperations, WritesUsesOf, argument_count_in, attribute_in, attribute_of_key_in, attribute_text_in, counts_in, entry_numbers, integer_in, name_in, name_number_in, name_text_in, property_in, property_of_key_in, region_in, type_in, type_text_in};

use crate::handle::Handle;
use crate::numbers::NO_MEMORY;
use ir_event::types::ids::{AttrId, NameId, OpId, TypeId};
use mlir_work_c_read::entries::{attribute_at, attribute_by_key, property_at, property_by_key};
use mlir_work_c_read::numbers::{
    Counts, EntryNumbers, IntegerNumbers, UseNumbers, ValueNumbers, count_or_none, no_number,
    number_or_none, value_of,
};
use mlir_work_c_read::operations::{
    argument_count, counts_of, name_of, region_of, type_of, write_operations,
};
use mlir_work_c_read::texts::{
    attribute_text, find_name, name_text, read_integer, type_text, write_text,
};
use mlir_work_c_read::uses::write_uses;
use std::alloc::Global;

/// Writes the operations of the module in pre-order, as many as there is space for. Returns how many the module has.
#[unsafe(no_mangle)]
pub extern "C" fn mlir_work_operations(held: &mut Handle, into: &mut [u32]) -> u64
    requires kept { IsHeld held.old.slot.value }
    ensures same { held.new.slot.value ≡ held.old.slot.value }
    ensures reported { WritesOperations held.old.slot.value into.old into.new result }
{
    if !held.is_open() {
        return no_number();
    }
    let found = held.slot.as_mut();
    let count = write_operations(found.bench.world(), into);
    match count {
        Ok(count) => count as u64,
        Err(_) => NO_MEMORY,
    }
}

/// Returns the region of its parent in which an operation is.
#[unsafe(no_mangle)]
pub extern "C" fn mlir_work_region_of(held: &mut Handle, operation: u32) -> u64
    requires kept { IsHeld held.old.slot.value }
    ensures same { held.new.slot.value ≡ held.old.slot.value }
    ensures reported { result ≡ reported (requested (region_in operation) held.old.slot.value) }
{
    if !held.is_open() {
        return no_number();
    }
    let found = held.slot.as_mut();
    number_or_none(region_of(found.bench.world(), OpId::new(operation)))
}

/// Returns the number of the name of an operation.
#[unsafe(no_mangle)]
pub extern "C" fn mlir_work_name_of(held: &mut Handle, operation: u32) -> u64
    requires kept { IsHeld held.old.slot.value }
    ensures same { held.new.slot.value ≡ held.old.slot.value }
    ensures reported { result ≡ reported (requested (name_in operation) held.old.slot.value) }
{
    if !held.is_open() {
        return no_number();
    }
    let found = held.slot.as_mut();
    number_or_none(name_of(found.bench.world(), OpId::new(operation)))
}

/// Gets the counts of an operation. Returns whether the operation exists.
#[unsafe(no_mangle)]
pub extern "C" fn mlir_work_counts(held: &mut Handle, operation: u32, counts: &mut Counts) -> bool
    requires kept { IsHeld held.old.slot.value }
    ensures same { held.new.slot.value ≡ held.old.slot.value }
    ensures reported { Writes (requested (counts_in operation) held.old.slot.value) counts.old counts.new result }
{
    if !held.is_open() {
        return false;
    }
    let found = held.slot.as_mut();
    let reported = counts_of(found.bench.world(), OpId::new(operation));
    let Some(reported) = reported else {
        return false;
    };
    *counts = reported;
    true
}

/// Returns the number of arguments of the block of a region.
#[unsafe(no_mangle)]
pub extern "C" fn mlir_work_argument_count(held: &mut Handle, operation: u32, region: u32) -> u64
    requires kept { IsHeld held.old.slot.value }
    ensures same { held.new.slot.value ≡ held.old.slot.value }
    ensures reported { result ≡ reported (requested (argument_count_in operation region) held.old.slot.value) }
{
    if !held.is_open() {
        return no_number();
    }
    let found = held.slot.as_mut();
    count_or_none(argument_count(found.bench.world(), OpId::new(operation), region))
}

/// Returns the number of the type of a value.
#[unsafe(no_mangle)]
pub extern "C" fn mlir_work_value_type(held: &mut Handle, value: &ValueNumbers) -> u64
    requires kept { IsHeld held.old.slot.value }
    ensures same { held.new.slot.value ≡ held.old.slot.value }
    ensures reported { result ≡ reported (requested (type_in (show_value value.now)) held.old.slot.value) }
{
    if !held.is_open() {
        return no_number();
    }
    let found = held.slot.as_mut();
    number_or_none(type_of(found.bench.world(), value_of(value)))
}

/// Gets a property of an operation by its index. Returns whether the property exists.
#[unsafe(no_mangle)]
pub extern "C" fn mlir_work_property_at(
    held: &mut Handle,
    operation: u32,
    index: usize,
    entry: &mut EntryNumbers,
) -> bool
    requires kept { IsHeld held.old.slot.value }
    ensures same { held.new.slot.value ≡ held.old.slot.value }
    ensures reported { Writes (option_map entry_numbers (requested (property_in operation index) held.old.slot.value)) entry.old entry.new result }
{
    if !held.is_open() {
        return false;
    }
    let found = held.slot.as_mut();
    let reported = property_at(found.bench.world(), OpId::new(operation), index);
    let Some((key, attr)) = reported else {
        return false;
    };
    *entry = EntryNumbers {
        key: key.number(),
        attribute: attr.number(),
    };
    true
}

/// Gets a discardable attribute of an operation by its index. Returns whether the attribute exists.
#[unsafe(no_mangle)]
pub extern "C" fn mlir_work_attribute_at(
    held: &mut Handle,
    operation: u32,
    index: usize,
    entry: &mut EntryNumbers,
) -> bool
    requires kept { IsHeld held.old.slot.value }
    ensures same { held.new.slot.value ≡ held.old.slot.value }
    ensures reported { Writes (option_map entry_numbers (requested (attribute_in operation index) held.old.slot.value)) entry.old entry.new result }
{
    if !held.is_open() {
        return false;
    }
    let found = held.slot.as_mut();
    let reported = attribute_at(found.bench.world(), OpId::new(operation), index);
    let Some((key, attr)) = reported else {
        return false;
    };
    *entry = EntryNumbers {
        key: key.number(),
        attribute: attr.number(),
    };
    true
}

/// Returns the number of the property of an operation at a key.
#[unsafe(no_mangle)]
pub extern "C" fn mlir_work_property_by_key(held: &mut Handle, operation: u32, key: u32) -> u64
    requires kept { IsHeld held.old.slot.value }
    ensures same { held.new.slot.value ≡ held.old.slot.value }
    ensures reported { result ≡ reported (requested (property_of_key_in operation key) held.old.slot.value) }
{
    if !held.is_open() {
        return no_number();
    }
    let found = held.slot.as_mut();
    number_or_none(property_by_key(found.bench.world(), OpId::new(operation), NameId::new(key)))
}

/// Returns the number of the discardable attribute of an operation at a key.
#[unsafe(no_mangle)]
pub extern "C" fn mlir_work_attribute_by_key(held: &mut Handle, operation: u32, key: u32) -> u64
    requires kept { IsHeld held.old.slot.value }
    ensures same { held.new.slot.value ≡ held.old.slot.value }
    ensures reported { result ≡ reported (requested (attribute_of_key_in operation key) held.old.slot.value) }
{
    if !held.is_open() {
        return no_number();
    }
    let found = held.slot.as_mut();
    number_or_none(attribute_by_key(found.bench.world(), OpId::new(operation), NameId::new(key)))
}

/// Gets the type and the value of an integer attribute. Returns whether the attribute is an integer.
#[unsafe(no_mangle)]
pub extern "C" fn mlir_work_integer(
    held: &mut Handle,
    attribute: u32,
    integer: &mut IntegerNumbers,
) -> bool
    requires kept { IsHeld held.old.slot.value }
    ensures same { held.new.slot.value ≡ held.old.slot.value }
    ensures reported { Writes (requested (integer_in attribute) held.old.slot.value) integer.old integer.new result }
{
    if !held.is_open() {
        return false;
    }
    let found = held.slot.as_mut();
    let reported = read_integer(&found.bench.world().ctx, AttrId::new(attribute));
    let Some(reported) = reported else {
        return false;
    };
    *integer = reported;
    true
}

/// Writes the uses of a value, as many as there is space for. Returns how many the value has.
#[unsafe(no_mangle)]
pub extern "C" fn mlir_work_uses(
    held: &mut Handle,
    value: &ValueNumbers,
    into: &mut [UseNumbers],
) -> usize
    requires kept { IsHeld held.old.slot.value }
    ensures same { held.new.slot.value ≡ held.old.slot.value }
    ensures reported { WritesUsesOf (show_value value.now) held.old.slot.value into.old into.new result }
{
    if !held.is_open() {
        return 0;
    }
    let found = held.slot.as_mut();
    write_uses(found.bench.world(), value_of(value), into)
}

/// Returns the number of the name with this text.
#[unsafe(no_mangle)]
pub extern "C" fn mlir_work_find_name(held: &mut Handle, text: &[u8]) -> u64
    requires kept { IsHeld held.old.slot.value }
    ensures same { held.new.slot.value ≡ held.old.slot.value }
    ensures reported { result ≡ reported (requested (name_number_in text.now) held.old.slot.value) }
{
    if !held.is_open() {
        return no_number();
    }
    let found = held.slot.as_mut();
    number_or_none(find_name(&found.bench.world().ctx, text))
}

/// Writes the text of a name, as many bytes as there is space for. Returns its length.
#[unsafe(no_mangle)]
pub extern "C" fn mlir_work_name_text(held: &mut Handle, name: u32, into: &mut [u8]) -> u64
    requires kept { IsHeld held.old.slot.value }
    ensures same { held.new.slot.value ≡ held.old.slot.value }
    ensures reported { WritesItems (requested (name_text_in name) held.old.slot.value) into.old into.new result }
{
    if !held.is_open() {
        return no_number();
    }
    let found = held.slot.as_mut();
    match name_text(&found.bench.world().ctx, NameId::new(name)) {
        Some(text) => write_text(text, into) as u64,
        None => no_number(),
    }
}

/// Writes a text, as many bytes as there is space for. Returns its length, or 2^64 - 1 for `None`.
fn write_some(text: Option<Vec<u8>>, into: &mut [u8]) -> u64
    ensures { WritesItems (option_map (λ v. v.items) text) into.old into.new result }
{
    match text {
        Some(text) => write_text(&text, into) as u64,
        None => no_number(),
    }
}

/// Writes the text of a type, as many bytes as there is space for. Returns its length.
#[unsafe(no_mangle)]
pub extern "C" fn mlir_work_type_text(
    alloc: Global,
    held: &mut Handle,
    ty: u32,
    into: &mut [u8],
) -> u64
    requires kept { IsHeld held.old.slot.value }
    ensures same { held.new.slot.value ≡ held.old.slot.value }
    ensures reported { MayWrite (requested (type_text_in ty) held.old.slot.value) into.old into.new result }
{
    if !held.is_open() {
        return no_number();
    }
    let found = held.slot.as_mut();
    let made = type_text(alloc, &found.bench.world().ctx, TypeId::new(ty));
    let Ok(text) = made else {
        return NO_MEMORY;
    };
    write_some(text, into)
}

/// Writes the text of an attribute, as many bytes as there is space for. Returns its length.
#[unsafe(no_mangle)]
pub extern "C" fn mlir_work_attribute_text(
    alloc: Global,
    held: &mut Handle,
    attribute: u32,
    into: &mut [u8],
) -> u64
    requires kept { IsHeld held.old.slot.value }
    ensures same { held.new.slot.value ≡ held.old.slot.value }
    ensures reported { MayWrite (requested (attribute_text_in attribute) held.old.slot.value) into.old into.new result }
{
    if !held.is_open() {
        return no_number();
    }
    let found = held.slot.as_mut();
    let made = attribute_text(alloc, &found.bench.world().ctx, AttrId::new(attribute));
    let Ok(text) = made else {
        return NO_MEMORY;
    };
    write_some(text, into)
}
