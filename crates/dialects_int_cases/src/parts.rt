//! Parses the parts of a line: operands, types and properties.
use ir_types::bits::{Bits, BitsKind};
use ir_types::context::Context;
use ir_types::ids::{AttrId, NameId, TypeId};
use ir_types::node::{AttrNode, Sign, TypeNode};
use ir_types::refusal::Refusal;
use std::alloc::{AllocError, Global};

/// Returns the first word of a text, and the rest of the text after it.
pub fn first_word(text: &str) -> (&str, &str) {
    text.split_once(' ').unwrap_or((text, ""))
}

/// Parses a number. Returns 0 if the word isn't a number.
fn number(word: &str) -> u32 {
    word.parse::<u32>().unwrap_or(0)
}

fn wide(word: &str) -> u128 {
    word.parse::<u128>().unwrap_or(0)
}

fn kind(word: &str) -> BitsKind {
    match word.strip_prefix('i') {
        Some("ndex") => BitsKind::Index,
        Some(width) => BitsKind::Int(number(width)),
        None => BitsKind::Int(0),
    }
}

/// Parses an operand: `i8:5`, or `?` for an operand that isn't constant.
fn operand(word: &str) -> Option<Bits> {
    let (ty, value) = word.split_once(':')?;
    Bits::new(kind(ty), wide(value))
}

/// Parses operands, separated by commas; `-` for none.
pub fn operands(alloc: Global, text: &str) -> Result<Vec<Option<Bits>>, AllocError> {
    let mut items = Vec::new(alloc);
    if text != "-" {
        for word in text.split(',') {
            items.push(operand(word))?;
        }
    }
    Ok(items)
}

fn integer(sign: Sign, width: &str) -> TypeNode {
    TypeNode::Int {
        sign,
        width: number(width),
    }
}

fn type_node(word: &str) -> TypeNode {
    if word == "index" {
        return TypeNode::Index;
    }
    if let Some(width) = word.strip_prefix("si") {
        return integer(Sign::Signed, width);
    }
    if let Some(width) = word.strip_prefix("ui") {
        return integer(Sign::Unsigned, width);
    }
    integer(Sign::Signless, word.strip_prefix('i').unwrap_or(""))
}

fn type_id(context: &mut Context, word: &str) -> Result<TypeId, Refusal> {
    let node = type_node(word);
    match node {
        TypeNode::Int { sign, width } => context.ty(TypeNode::Int { sign, width }),
        _ => context.ty(TypeNode::Index),
    }
}

/// Parses types, separated by commas; `-` for none.
pub fn types(alloc: Global, context: &mut Context, text: &str) -> Result<Vec<TypeId>, Refusal> {
    let mut items = Vec::new(alloc);
    if text != "-" {
        for word in text.split(',') {
            items.push(type_id(context, word)?)?;
        }
    }
    Ok(items)
}

fn integer_attr(context: &mut Context, ty: &str, value: &str) -> Result<AttrId, Refusal> {
    let ty = type_id(context, ty)?;
    if !context.has_type(ty) {
        return Err(Refusal::NoSuchIndex);
    }
    context.attr(AttrNode::Int {
        ty,
        value: wide(value),
    })
}

/// Parses an attribute: `i8:5`, `flags`, or `unit`.
fn attr(context: &mut Context, word: &str) -> Result<AttrId, Refusal> {
    if let Some((ty, value)) = word.split_once(':') {
        return integer_attr(context, ty, value);
    }
    if word == "flags" {
        return context.attr(AttrNode::Overflow {
            nsw: true,
            nuw: false,
        });
    }
    context.attr(AttrNode::Unit)
}

/// Parses a property: `value=i8:5`.
fn property(context: &mut Context, word: &str) -> Result<(NameId, AttrId), Refusal> {
    let (key, value) = word.split_once('=').unwrap_or((word, ""));
    let name = context.name(key.as_bytes())?;
    let attr = attr(context, value)?;
    Ok((name, attr))
}

/// Parses properties, separated by commas; `-` for none.
pub fn properties(
    alloc: Global,
    context: &mut Context,
    text: &str,
) -> Result<Vec<(NameId, AttrId)>, Refusal> {
    let mut items = Vec::new(alloc);
    if text != "-" {
        for word in text.split(',') {
            items.push(property(context, word)?)?;
        }
    }
    Ok(items)
}
