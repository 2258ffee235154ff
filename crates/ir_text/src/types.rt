//! Prints types.
ghost use Rattle.std.specs.Prelude.{◌≡◌, ◌<◌, ◌++◌, OnOk, true, length, flat_map, codes};
ghost use Rattle.std.specs.List.{All};
ghost use Rattle.ir_types.specs.Things.{IsType};
ghost use Rattle.ir_types.specs.Terms.{type_term, type_terms, types_at};
ghost use Rattle.std.specs.Fmt.{decimal};
ghost use Rattle.ir_text.specs.Rows.{parted};
ghost use Rattle.ir_text.specs.TypeText.{sign_text, dimension_text, is_function, is_lone, in_round, outputs_text, type_text, type_texts};

use crate::numbers::write_number;
use crate::separators::{write_between, write_short};
use ir_types::context::Context;
use ir_types::ids::TypeId;
use ir_types::node::{Sign, TypeNode};
use ir_types::things::type_of;
use std::alloc::AllocError;

fn sign_text(sign: Sign) -> &'static [u8]
    ensures { result.now ≡ sign_text sign }
{
    match sign {
        Sign::Signless => b"i",
        Sign::Signed => b"si",
        Sign::Unsigned => b"ui",
    }
}

/// Appends the text of a signless integer type. The usual widths are written without a division.
#[tactic(auto, using(crate::proofs::Digits::digits_1, crate::proofs::Digits::digits_8, crate::proofs::Digits::digits_16, crate::proofs::Digits::digits_32, crate::proofs::Digits::digits_64))]
fn write_signless(out: &mut Vec<u8>, width: u32) -> Result<(), AllocError>
    ensures { OnOk result (out.new.items ≡ out.old.items ++ (codes "i" ++ decimal width)) }
{
    match width {
        1 => write_short(out, b"i1"),
        8 => write_short(out, b"i8"),
        16 => write_short(out, b"i16"),
        32 => write_short(out, b"i32"),
        64 => write_short(out, b"i64"),
        _ => {
            write_short(out, b"i")?;
            write_number(out, u64::from(width))
        }
    }
}

fn write_integer_type(out: &mut Vec<u8>, sign: Sign, width: u32) -> Result<(), AllocError>
    ensures { OnOk result (out.new.items ≡ out.old.items ++ (sign_text sign ++ decimal width)) }
{
    match sign {
        Sign::Signless => write_signless(out, width),
        _ => {
            write_short(out, sign_text(sign))?;
            write_number(out, u64::from(width))
        }
    }
}

fn write_dimension(out: &mut Vec<u8>, dim: Option<u64>) -> Result<(), AllocError>
    ensures { OnOk result (out.new.items ≡ out.old.items ++ dimension_text dim) }
{
    match dim {
        None => write_short(out, b"?x"),
        Some(size) => {
            write_number(out, size)?;
            write_short(out, b"x")
        }
    }
}

fn write_dimensions(out: &mut Vec<u8>, dims: &[Option<u64>]) -> Result<(), AllocError>
    ensures { OnOk result (out.new.items ≡ out.old.items ++ flat_map dimension_text dims.now) }
{
    'dims: for dim in dims {
        write_dimension(out, *dim)?;
    }
    Ok(())
}

fn is_function(ctx: &Context, id: TypeId) -> bool
    requires { IsType ctx.now id }
    ensures { result ≡ is_function (type_term ctx.now id) }
{
    matches!(type_of(ctx, id), TypeNode::Func { .. })
}

/// Returns whether the outputs are printed without parentheses.
fn is_lone(ctx: &Context, outputs: &[TypeId]) -> bool
    requires { All (λ t. t < length ctx.now.types) outputs.now }
    ensures { result ≡ is_lone (types_at (type_terms ctx.now) outputs.now) }
{
    match outputs {
        [] => false,
        [only] => !is_function(ctx, *only),
        [_, _, ..] => false,
    }
}

/// Appends a type (Builtin Dialect, "Types").
#[cycle(types)]
pub fn print_type(ctx: &Context, out: &mut Vec<u8>, id: TypeId) -> Result<(), AllocError>
    requires { IsType ctx.now id }
    ensures { OnOk result (out.new.items ≡ out.old.items ++ type_text (type_term ctx.now id)) }
{
    match type_of(ctx, id) {
        TypeNode::Int { sign, width } => write_integer_type(out, *sign, *width),
        TypeNode::Index => write_short(out, b"index"),
        TypeNode::Func { inputs, outputs } => {
            write_short(out, b"(")?;
            write_types(ctx, out, inputs.as_slice())?;
            write_short(out, b") -> ")?;
            write_outputs(ctx, out, outputs.as_slice())
        }
        TypeNode::Memref { dims, elem } => {
            out.extend_from_slice(b"memref<")?;
            write_dimensions(out, dims.as_slice())?;
            print_type(ctx, out, *elem)?;
            write_short(out, b">")
        }
        TypeNode::Opaque(text) => out.extend_from_slice(text.as_slice()),
    }
}

/// Appends types, separated by commas.
#[cycle(types)]
fn write_types(ctx: &Context, out: &mut Vec<u8>, ids: &[TypeId]) -> Result<(), AllocError>
    requires { All (λ t. t < length ctx.now.types) ids.now }
    ensures { OnOk result (out.new.items ≡ out.old.items ++ parted (codes ", ") true (type_texts (types_at (type_terms ctx.now) ids.now))) }
{
    let mut first = true;
    'ids: for id in ids {
        write_between(out, first, b", ")?;
        first = false;
        print_type(ctx, out, *id)?;
    }
    Ok(())
}

/// Appends the outputs of a function type. A single type that is no function type is printed without parentheses.
#[cycle(types)]
pub(crate) fn write_outputs(
    ctx: &Context,
    out: &mut Vec<u8>,
    ids: &[TypeId],
) -> Result<(), AllocError>
    requires { All (λ t. t < length ctx.now.types) ids.now }
    ensures { OnOk result (out.new.items ≡ out.old.items ++ outputs_text (is_lone (types_at (type_terms ctx.now) ids.now)) (type_texts (types_at (type_terms ctx.now) ids.now))) }
{
    if is_lone(ctx, ids) {
        return write_types(ctx, out, ids);
    }
    write_short(out, b"(")?;
    write_types(ctx, out, ids)?;
    write_short(out, b")")
}
