//! Computes the answer to a line.
ghost use Rattle.ir_tree.specs.Meaning.{IsSoundIn};

use crate::lexemes::{bytes_of, first_word};
use crate::near::near_of;
use crate::shown::{refused, shown, shown_op};
use crate::tokens::preceding;
use ir_text::printer::print;
use ir_text::reader::{parse_attr, read_op};
use ir_tree::sound::sound;
use ir_tree::tree::TreeOp;
use ir_types::context::Context;
use ir_types::ids::{AttrId, OpId};
use ir_types::refusal::Refusal;
use std::alloc::{AllocError, Global};

/// Returns an operation with this attribute.
fn holder(alloc: Global, ctx: &mut Context, attr: AttrId) -> Result<TreeOp, Refusal> {
    let name = ctx.name(b"a")?;
    Ok(TreeOp {
        id: OpId::new(0),
        name,
        operands: Vec::new(alloc),
        results: Vec::new(alloc),
        props: Vec::new(alloc),
        attrs: vec![in alloc; (name, attr)]?,
        regions: Vec::new(alloc),
    })
}

fn holder_text(alloc: Global, ctx: &Context, op: &TreeOp) -> Result<String, Refusal> {
    if sound(ctx, op) {
        text_of(alloc, ctx, op)
    } else {
        Err(Refusal::NoSuchIndex)
    }
}

fn attribute_text(alloc: Global, ctx: &mut Context, attr: AttrId) -> Result<String, Refusal> {
    let op = holder(alloc, ctx, attr)?;
    holder_text(alloc, ctx, &op)
}

/// Returns the answer for an attribute: an operation that has the attribute, or why the text is refused.
fn attribute(alloc: Global, ctx: &mut Context, bytes: &[u8]) -> Result<String, Refusal> {
    match parse_attr(alloc, ctx, bytes) {
        Ok(attr) => attribute_text(alloc, ctx, attr),
        Err(error) => refused(alloc, error),
    }
}

fn text_of(alloc: Global, ctx: &Context, tree: &TreeOp) -> Result<String, Refusal>
    requires { IsSoundIn ctx.now tree.now }
{
    let text = print(alloc, ctx, tree)?;
    Ok(shown(alloc, text.as_slice())?)
}

fn operation_text(alloc: Global, ctx: &Context, op: &TreeOp) -> Result<String, Refusal>
    requires { IsSoundIn ctx.now op.now }
{
    let text = print(alloc, ctx, op)?;
    Ok(shown_op(alloc, op, text.as_slice())?)
}

/// Returns the answer for an operation that is read into the outer module that `words` describes.
fn operation(
    alloc: Global,
    ctx: &mut Context,
    words: &str,
    bytes: &[u8],
) -> Result<String, Refusal> {
    let near = near_of(ctx, words);
    match read_op(alloc, ctx, bytes, &near) {
        Ok(op) => operation_text(alloc, ctx, &op),
        Err(error) => refused(alloc, error),
    }
}

fn number_in(alloc: Global, ctx: &mut Context, bytes: &[u8]) -> Option<AttrId> {
    parse_attr(alloc, ctx, bytes).ok()
}

fn number_of(alloc: Global, ctx: &mut Context, text: &str) -> Result<Option<AttrId>, AllocError> {
    let bytes = bytes_of(alloc, text)?;
    Ok(number_in(alloc, ctx, bytes.as_slice()))
}

/// Returns whether two attributes are equal, or `None` if one of them wasn't read.
fn are_same(one: Option<AttrId>, other: Option<AttrId>) -> Option<bool> {
    Some(one? == other?)
}

/// Returns whether two texts denote the same attribute.
fn same(alloc: Global, ctx: &mut Context, text: &str) -> Result<String, AllocError> {
    let (one, other) = text.split_once(" == ").unwrap_or((text, ""));
    let one = number_of(alloc, ctx, one)?;
    let other = number_of(alloc, ctx, other)?;
    format!(in alloc; "{:?}", are_same(one, other))
}

fn answer_bytes(
    alloc: Global,
    ctx: &mut Context,
    kind: &str,
    bytes: &[u8],
) -> Result<String, Refusal> {
    match kind {
        "attr" => attribute(alloc, ctx, bytes),
        "token" => preceding(alloc, bytes),
        _ => operation(alloc, ctx, kind, bytes),
    }
}

fn answer_in(alloc: Global, ctx: &mut Context, line: &str) -> Result<String, Refusal> {
    let (kind, text) = first_word(line);
    if kind == "same" {
        return Ok(same(alloc, ctx, text)?);
    }
    let bytes = bytes_of(alloc, text)?;
    answer_bytes(alloc, ctx, kind, bytes.as_slice())
}

/// Returns the answer to a line. A line is `attr`, `token` or an outer module such as `9/32/-`, and a text; or `same`
/// and two attributes.
pub fn answer(alloc: Global, line: &str) -> Result<String, Refusal> {
    let mut ctx = Context::new(alloc)?;
    answer_in(alloc, &mut ctx, line)
}
