//! Prints attributes.
ghost use Rattle.std.specs.Prelude.{◌≡◌, ◌<◌, ◌++◌, ℕ, OnOk, true, length, map, codes};
ghost use Rattle.std.specs.List.{All};
ghost use Rattle.ir_types.specs.Things.{IsName, IsType, IsAttr, IsBelow};
ghost use Rattle.ir_types.specs.Readings.{reading_of};
ghost use Rattle.ir_types.specs.Terms.{name_term, type_term, type_terms, some_type_at, attr_term, attr_terms, attrs_at, entries_at};
ghost use Rattle.ir_text.specs.Rows.{parted};
ghost use Rattle.ir_text.specs.AttrText.{is_truth, truth_text, number_text, integer_text, items_text, dense_text, part_text, flags_text, opaque_text, is_flag, entry_text, in_curly, attr_text, attr_texts, entry_texts};

use crate::numbers::{write_reading, write_signed};
use crate::separators::{write_between, write_short};
use crate::types::print_type;
use ir_text_tokens::print::{print_key, print_string};
use ir_types::context::Context;
use ir_types::ids::{AttrId, NameId, TypeId};
use ir_types::node::{AttrNode, Sign, TypeNode};
use ir_types::things::{attr_of, name_of, type_of};
use std::alloc::AllocError;

/// Returns whether a type is `i1`.
fn is_truth(ctx: &Context, id: TypeId) -> bool
    requires { IsType ctx.now id }
    ensures { result ≡ is_truth (type_term ctx.now id) }
{
    match type_of(ctx, id) {
        TypeNode::Int {
            sign: Sign::Signless,
            width,
        } => *width == 1,
        TypeNode::Int {
            sign: Sign::Signed,
            ..
        } => false,
        TypeNode::Int {
            sign: Sign::Unsigned,
            ..
        } => false,
        TypeNode::Index => false,
        TypeNode::Func { .. } => false,
        TypeNode::Memref { .. } => false,
        TypeNode::Opaque(_) => false,
    }
}

/// Appends the word of a truth value.
fn write_truth(out: &mut Vec<u8>, is_zero: bool) -> Result<(), AllocError>
    ensures { OnOk result (out.new.items ≡ out.old.items ++ truth_text is_zero) }
{
    if is_zero {
        write_short(out, b"false")
    } else {
        write_short(out, b"true")
    }
}

/// Appends an integer: the number that its bits denote, and its type.
#[tactic(auto, using(crate::proofs::Readings::zero_read), unfolding(crate::specs::AttrText::number_text))]
fn write_integer(ctx: &Context, out: &mut Vec<u8>, ty: TypeId, bits: u128) -> Result<(), AllocError>
    requires { IsType ctx.now ty }
    ensures { OnOk result (out.new.items ≡ out.old.items ++ integer_text (type_term ctx.now ty) (reading_of (type_term ctx.now ty) bits)) }
{
    let reading = ctx.reading(ty, bits);
    if is_truth(ctx, ty) {
        return write_truth(out, reading.magnitude == 0);
    }
    write_reading(out, &reading)?;
    write_short(out, b" : ")?;
    print_type(ctx, out, ty)
}

/// Appends an item of a dense array.
#[tactic(auto, unfolding(crate::specs::AttrText::number_text))]
fn write_item(out: &mut Vec<u8>, truth: bool, number: i64) -> Result<(), AllocError>
    ensures { OnOk result (out.new.items ≡ out.old.items ++ number_text truth number) }
{
    if truth {
        write_truth(out, number == 0)
    } else {
        write_signed(out, number)
    }
}

fn write_numbers(out: &mut Vec<u8>, truth: bool, numbers: &[i64]) -> Result<(), AllocError>
    ensures { OnOk result (out.new.items ≡ out.old.items ++ parted (codes ", ") true (map (number_text truth) numbers.now)) }
{
    let mut first = true;
    'numbers: for number in numbers {
        write_between(out, first, b", ")?;
        first = false;
        write_item(out, truth, *number)?;
    }
    Ok(())
}

fn write_items(out: &mut Vec<u8>, truth: bool, numbers: &[i64]) -> Result<(), AllocError>
    ensures { OnOk result (out.new.items ≡ out.old.items ++ items_text truth numbers.now) }
{
    match numbers {
        [] => Ok(()),
        [_, ..] => {
            write_short(out, b": ")?;
            write_numbers(out, truth, numbers)
        }
    }
}

fn write_dense(
    ctx: &Context,
    out: &mut Vec<u8>,
    elem: TypeId,
    numbers: &[i64],
) -> Result<(), AllocError>
    requires { IsType ctx.now elem }
    ensures { OnOk result (out.new.items ≡ out.old.items ++ dense_text (type_term ctx.now elem) numbers.now) }
{
    out.extend_from_slice(b"array<")?;
    print_type(ctx, out, elem)?;
    write_items(out, is_truth(ctx, elem), numbers)?;
    write_short(out, b">")
}

/// Appends a part of a symbol reference.
fn write_part(ctx: &Context, out: &mut Vec<u8>, part: NameId) -> Result<(), AllocError>
    requires { IsName ctx.now part }
    ensures { OnOk result (out.new.items ≡ out.old.items ++ part_text (name_term ctx.now part)) }
{
    write_short(out, b"@")?;
    print_key(out, name_of(ctx, part))
}

fn write_symbol(ctx: &Context, out: &mut Vec<u8>, parts: &[NameId]) -> Result<(), AllocError>
    requires { All (λ n. n < length ctx.now.names) parts.now }
    ensures { OnOk result (out.new.items ≡ out.old.items ++ parted (codes "::") true (map part_text (map (name_term ctx.now) parts.now))) }
{
    let mut first = true;
    'parts: for part in parts {
        write_between(out, first, b"::")?;
        first = false;
        write_part(ctx, out, *part)?;
    }
    Ok(())
}

/// Returns the text of the overflow flags of an integer operation.
fn overflow_text(nsw: bool, nuw: bool) -> &'static [u8]
    ensures { result.now ≡ codes "#arith.overflow<" ++ (flags_text nsw nuw ++ codes ">") }
{
    match (nsw, nuw) {
        (false, false) => b"#arith.overflow<none>",
        (true, false) => b"#arith.overflow<nsw>",
        (false, true) => b"#arith.overflow<nuw>",
        (true, true) => b"#arith.overflow<nsw, nuw>",
    }
}

/// Appends the overflow flags of an integer operation.
fn write_flags(out: &mut Vec<u8>, nsw: bool, nuw: bool) -> Result<(), AllocError>
    ensures { OnOk result (out.new.items ≡ out.old.items ++ (codes "#arith.overflow<" ++ (flags_text nsw nuw ++ codes ">"))) }
{
    out.extend_from_slice(overflow_text(nsw, nuw))
}

/// Appends an opaque attribute: its text, and its type if it has one.
fn write_opaque(
    ctx: &Context,
    out: &mut Vec<u8>,
    text: &[u8],
    ty: &Option<TypeId>,
) -> Result<(), AllocError>
    requires { IsBelow (length ctx.now.types) ty.now }
    ensures { OnOk result (out.new.items ≡ out.old.items ++ opaque_text text.now (some_type_at (type_terms ctx.now) ty.now)) }
{
    out.extend_from_slice(text)?;
    match ty {
        None => Ok(()),
        Some(ty) => {
            write_short(out, b" : ")?;
            print_type(ctx, out, *ty)
        }
    }
}

fn is_flag(ctx: &Context, id: AttrId) -> bool
    requires { IsAttr ctx.now id }
    ensures { result ≡ is_flag (attr_term ctx.now id) }
{
    matches!(attr_of(ctx, id), AttrNode::Unit)
}

/// Appends an attribute (Builtin Dialect, "Attributes").
#[cycle(attributes)]
pub fn print_attr(ctx: &Context, out: &mut Vec<u8>, id: AttrId) -> Result<(), AllocError>
    requires { IsAttr ctx.now id }
    ensures { OnOk result (out.new.items ≡ out.old.items ++ attr_text (attr_term ctx.now id)) }
{
    match attr_of(ctx, id) {
        AttrNode::Int { ty, value } => write_integer(ctx, out, *ty, *value),
        AttrNode::Str(name) => print_string(out, name_of(ctx, *name)),
        AttrNode::Ty(ty) => print_type(ctx, out, *ty),
        AttrNode::Unit => write_short(out, b"unit"),
        AttrNode::Array(items) => {
            write_short(out, b"[")?;
            write_attrs(ctx, out, items.as_slice())?;
            write_short(out, b"]")
        }
        AttrNode::Dict(entries) => write_entries(ctx, out, entries.as_slice()),
        AttrNode::Sym(parts) => write_symbol(ctx, out, parts.as_slice()),
        AttrNode::Dense { elem, values } => write_dense(ctx, out, *elem, values.as_slice()),
        AttrNode::Overflow { nsw, nuw } => write_flags(out, *nsw, *nuw),
        AttrNode::Opaque { text, ty } => write_opaque(ctx, out, text.as_slice(), ty),
    }
}

/// Appends attributes, separated by commas.
#[cycle(attributes)]
fn write_attrs(ctx: &Context, out: &mut Vec<u8>, ids: &[AttrId]) -> Result<(), AllocError>
    requires { All (λ a. a < length ctx.now.attrs) ids.now }
    ensures { OnOk result (out.new.items ≡ out.old.items ++ parted (codes ", ") true (attr_texts (attrs_at (attr_terms ctx.now) ids.now))) }
{
    let mut first = true;
    'ids: for id in ids {
        write_between(out, first, b", ")?;
        first = false;
        print_attr(ctx, out, *id)?;
    }
    Ok(())
}

/// Appends an entry of a dictionary. If its attribute is `unit`, only the key is printed.
#[cycle(attributes)]
fn write_entry(
    ctx: &Context,
    out: &mut Vec<u8>,
    key: NameId,
    attr: AttrId,
) -> Result<(), AllocError>
    requires key { IsName ctx.now key }
    requires attr { IsAttr ctx.now attr }
    ensures { OnOk result (out.new.items ≡ out.old.items ++ entry_text (name_term ctx.now key) (is_flag (attr_term ctx.now attr)) (attr_text (attr_term ctx.now attr))) }
{
    print_key(out, name_of(ctx, key))?;
    if is_flag(ctx, attr) {
        return Ok(());
    }
    write_short(out, b" = ")?;
    print_attr(ctx, out, attr)
}

/// Appends a dictionary in braces.
#[cycle(attributes)]
pub(crate) fn write_entries(
    ctx: &Context,
    out: &mut Vec<u8>,
    entries: &[(NameId, AttrId)],
) -> Result<(), AllocError>
    requires keys { All (λ (e : ℕ × ℕ). e.0 < length ctx.now.names) entries.now }
    requires attrs { All (λ (e : ℕ × ℕ). e.1 < length ctx.now.attrs) entries.now }
    ensures { OnOk result (out.new.items ≡ out.old.items ++ in_curly (entry_texts (entries_at ctx.now.names (attr_terms ctx.now) entries.now))) }
{
    write_short(out, b"{")?;
    let mut first = true;
    'entries: for entry in entries {
        write_between(out, first, b", ")?;
        first = false;
        write_entry(ctx, out, entry.0, entry.1)?;
    }
    write_short(out, b"}")
}
