//! Texts of interned names, types and attributes, and the number of a name.
ghost use Rattle.std.specs.Prelude.{◌≡◌, IfOk, length, option_map};
ghost use Rattle.mlir_work_c_read.specs.Filled.{over};
ghost use Rattle.mlir_work_c_read.specs.Texts.{attribute_text, integer_of, integer_read, name_number, name_text, type_text, type_width};

use crate::numbers::IntegerNumbers;
use crate::rows::WORD;
use ir_event::types::context::Context;
use ir_event::types::ids::{AttrId, NameId, TypeId};
use ir_event::types::node::{AttrNode, TypeNode};
use ir_event::world::World;
use ir_text::attributes::print_attr;
use ir_text::types::print_type;
use std::alloc::{AllocError, Global};

/// Returns the text of an interned name, or `None` if the context has no such name.
pub fn name_text(ctx: &Context, name: NameId) -> Option<&[u8]>
    ensures { option_map (λ t. t.now) result ≡ name_text name ctx.now }
{
    if !ctx.has_name(name) {
        return None;
    }
    Some(ctx.name_bytes(name))
}

/// Returns the text of an interned type as a printed module has it, or `None` if the context has no such type.
///
/// Errors: memory runs out.
pub fn type_text(alloc: Global, ctx: &Context, ty: TypeId) -> Result<Option<Vec<u8>>, AllocError>
    ensures { IfOk result (λ t. option_map (λ v. v.items) t ≡ type_text ty ctx.now) }
{
    if !ctx.has_type(ty) {
        return Ok(None);
    }
    let mut text = Vec::new(alloc);
    match print_type(ctx, &mut text, ty) {
        Ok(()) => Ok(Some(text)),
        Err(e) => Err(e),
    }
}

/// Returns the text of an interned attribute as a printed module has it, or `None` if the context has no such
/// attribute.
///
/// Errors: memory runs out.
pub fn attribute_text(
    alloc: Global,
    ctx: &Context,
    attr: AttrId,
) -> Result<Option<Vec<u8>>, AllocError>
    ensures { IfOk result (λ t. option_map (λ v. v.items) t ≡ attribute_text attr ctx.now) }
{
    if !ctx.has_attr(attr) {
        return Ok(None);
    }
    let mut text = Vec::new(alloc);
    match print_attr(ctx, &mut text, attr) {
        Ok(()) => Ok(Some(text)),
        Err(e) => Err(e),
    }
}

/// Returns the value of an integer attribute as 128 bits, with the type, or `None` if the context has no such attribute or
/// it is no integer. The value is the one below 2^w of a type of width w.
fn integer_of(ctx: &Context, attr: AttrId) -> Option<(TypeId, u128)>
    ensures { result ≡ integer_of attr ctx.now }
{
    if !ctx.has_attr(attr) {
        return None;
    }
    match ctx.attr_node(attr) {
        AttrNode::Int { ty, value } => Some((*ty, *value)),
        _ => None,
    }
}

/// Returns an integer attribute as a C struct, or `None` if the context has no such integer.
pub fn read_integer(ctx: &Context, attr: AttrId) -> Option<IntegerNumbers>
    ensures { result ≡ integer_read attr ctx.now }
{
    let Some((ty, value)) = integer_of(ctx, attr) else {
        return None;
    };
    Some(IntegerNumbers {
        low: (value % WORD) as u64,
        high: (value / WORD) as u64,
        ty: ty.number(),
        width: width_of(ctx, ty),
    })
}

/// Returns the width of an integer type, or 0 if the type is none or the context doesn't have it.
fn width_of(ctx: &Context, ty: TypeId) -> u32
    ensures { result ≡ type_width ty ctx.now }
{
    let is_known = ctx.has_type(ty);
    if !is_known {
        return 0;
    }
    match ctx.type_node(ty) {
        TypeNode::Int { width, .. } => *width,
        _ => 0,
    }
}

/// Returns the number of the name with this text, or `None` if the context has no such name. Takes time proportional to the names.
pub fn find_name(ctx: &Context, text: &[u8]) -> Option<u32>
    ensures { result ≡ name_number text.now ctx.now }
{
    ctx.sound();
    let mut number = 0;
    'names: while ctx.has_name(NameId::new(number)) {
        if text == ctx.name_bytes(NameId::new(number)) {
            return Some(number);
        }
        number += 1;
    }
    None
}

/// Writes a text, as many bytes as there is space for, and returns its length.
pub fn write_text(text: &[u8], into: &mut [u8]) -> usize
    ensures written { into.new ≡ over text.now into.old }
    ensures count { result ≡ length text.now }
{
    let count = text.len().min(into.len());
    into[..count].copy_from_slice(&text[..count]);
    text.len()
}
