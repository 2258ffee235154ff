//! Prints operations.
ghost use Rattle.std.specs.Prelude.{◌≡◌, ◌++◌, ◌+◌, ◌==◌, OnOk, IfOk, IsTrue, map, length};
ghost use Rattle.std.specs.List.{list_all};
ghost use Rattle.ir_types.specs.Things.{ContextModel, IsType};
ghost use Rattle.ir_types.specs.Terms.{name_term, type_term, attr_term, Function};
ghost use Rattle.ir_tree.specs.Tree.{head, regions_of, ops_of};
ghost use Rattle.ir_tree.specs.Limits.{region_every};
ghost use Rattle.ir_tree.specs.View.{region_view};
ghost use Rattle.ir_text.specs.TypeText.{type_text, type_texts, is_lone, outputs_text};
ghost use Rattle.ir_tree.specs.Maps.{map_entry, map_head, map_region, map_regions, map_ops};
ghost use Rattle.ir_tree.specs.Limits.{arguments_pass};
ghost use Rattle.ir_tree.specs.Passing.{entry_passes, head_passes, op_passes};
ghost use Rattle.ir_tree.specs.Meaning.{meaning, is_name, is_type, is_attr, is_known};
ghost use Rattle.ir_text.specs.Naming.{value_type};
ghost use Rattle.ir_text_types.specs.TypeGrammar.{types_of};
ghost use Rattle.ir_text.specs.Printing.{append_text, print_results, results_text, print_operands, dictionary_text, properties_text, attributes_text, print_name, print_head, print_type_of, print_tail, comma_at, argument_text, print_argument, print_arguments, deeper, print_bare_label, print_label, opening, closing_text, printed_op, print_region};
ghost use Rattle.ir_text.specs.View.{named_in, printed_in, head_in, region_in, regions_in, ops_in, types_in, entries_in};

use crate::attributes::write_entries;
use crate::naming::{NamedValue, Printer, Source};
use crate::numbers::write_number;
use crate::separators::write_short;
use crate::types::{print_type, write_outputs};
use crate::values::{name_argument, name_results, write_operand_types, write_operands};
use indexmap::IndexMap;
use ir_text_tokens::print::print_string;
use ir_tree::tree::{TreeOp, TreeRegion};
use ir_tree::value::Value;
use ir_types::context::Context;
use ir_types::ids::{AttrId, NameId, OpId, TypeId};
use ir_types::things::name_of;
use std::alloc::{AllocError, Global};

fn write(out: &mut Printer, bytes: &[u8]) -> Result<(), AllocError>
    ensures { (c : ContextModel) → OnOk result (printed_in c out.new ≡ append_text bytes.now (printed_in c out.old)) }
{
    out.text.extend_from_slice(bytes)
}

/// Appends the names of an operation's results and the equal sign.
fn write_pack(out: &mut Vec<u8>, number: u32, count: usize) -> Result<(), AllocError>
    ensures { OnOk result (out.new.items ≡ out.old.items ++ results_text number count) }
{
    write_short(out, b"%")?;
    write_number(out, u64::from(number))?;
    if count != 1 {
        write_short(out, b":")?;
        write_number(out, count as u64)?;
    }
    write_short(out, b" = ")
}

/// Returns `number + 1`. No tree has so many values that the result exceeds a u32.
fn number_after(number: u32) -> Result<u32, AllocError>
    ensures { IfOk result (λ n. n ≡ number + 1) }
{
    match number.checked_add(1) {
        Some(next) => Ok(next),
        None => Err(AllocError),
    }
}

/// Appends the results of an operation, and names them.
fn write_results(
    ctx: &Context,
    out: &mut Printer,
    op: OpId,
    results: &[TypeId],
) -> Result<(), AllocError>
    ensures { OnOk result (printed_in ctx.now out.new ≡ print_results op (types_in ctx.now results.now) (printed_in ctx.now out.old)) }
{
    match results {
        [] => Ok(()),
        [_, ..] => {
            write_pack(&mut out.text, out.results, results.len())?;
            name_results(&mut out.named, op, out.results, results)?;
            out.results = number_after(out.results)?;
            Ok(())
        }
    }
}

/// Appends a dictionary in braces.
fn write_dictionary(
    ctx: &Context,
    out: &mut Vec<u8>,
    entries: &[(NameId, AttrId)],
) -> Result<(), AllocError>
    requires { IsTrue (list_all (entry_passes (is_name ctx.now) (is_attr ctx.now)) entries.now) }
    ensures { OnOk result (out.new.items ≡ out.old.items ++ dictionary_text (entries_in ctx.now entries.now)) }
{
    write_entries(ctx, out, entries)
}

fn write_properties(
    ctx: &Context,
    out: &mut Vec<u8>,
    entries: &[(NameId, AttrId)],
) -> Result<(), AllocError>
    requires { IsTrue (list_all (entry_passes (is_name ctx.now) (is_attr ctx.now)) entries.now) }
    ensures { OnOk result (out.new.items ≡ out.old.items ++ properties_text (entries_in ctx.now entries.now)) }
{
    match entries {
        [] => Ok(()),
        [_, ..] => {
            write_short(out, b" <")?;
            write_dictionary(ctx, out, entries)?;
            write_short(out, b">")
        }
    }
}

fn write_attributes(
    ctx: &Context,
    out: &mut Vec<u8>,
    entries: &[(NameId, AttrId)],
) -> Result<(), AllocError>
    requires { IsTrue (list_all (entry_passes (is_name ctx.now) (is_attr ctx.now)) entries.now) }
    ensures { OnOk result (out.new.items ≡ out.old.items ++ attributes_text (entries_in ctx.now entries.now)) }
{
    match entries {
        [] => Ok(()),
        [_, ..] => {
            write_short(out, b" ")?;
            write_dictionary(ctx, out, entries)
        }
    }
}

/// Appends the outputs of an operation's function type.
fn write_result_types(ctx: &Context, out: &mut Vec<u8>, ids: &[TypeId]) -> Result<(), AllocError>
    requires { IsTrue (list_all (is_type ctx.now) ids.now) }
    ensures { OnOk result (out.new.items ≡ out.old.items ++ outputs_text (is_lone (types_of (types_in ctx.now ids.now))) (type_texts (types_of (types_in ctx.now ids.now)))) }
{
    write_outputs(ctx, out, ids)
}

/// Appends the function type of an operation: the types of its operands and of its results.
fn write_function_type(
    ctx: &Context,
    out: &mut Vec<u8>,
    named: &IndexMap<Source, NamedValue>,
    operands: &[Value],
    results: &[TypeId],
) -> Result<(), AllocError>
    requires { IsTrue (list_all (is_type ctx.now) results.now) }
    ensures { OnOk result (out.new.items ≡ out.old.items ++ type_text (Function (types_of (map (value_type (named_in ctx.now named.now.entries)) operands.now)) (types_of (types_in ctx.now results.now)))) }
{
    write_short(out, b"(")?;
    write_operand_types(ctx, out, named, operands)?;
    write_short(out, b") -> ")?;
    write_result_types(ctx, out, results)
}

/// Appends the name, the operands and the properties of an operation.
fn write_name(ctx: &Context, out: &mut Printer, op: &TreeOp) -> Result<(), AllocError>
    requires { IsTrue (head_passes (is_name ctx.now) (is_type ctx.now) (is_attr ctx.now) (head op.now)) }
    ensures { OnOk result (printed_in ctx.now out.new ≡ print_name (head_in ctx.now (head op.now)) (printed_in ctx.now out.old)) }
{
    print_string(&mut out.text, name_of(ctx, op.name))?;
    write_operands(&mut out.text, &out.named, &op.operands)?;
    write_properties(ctx, &mut out.text, &op.props)?;
    Ok(())
}

/// Appends an operation up to its regions.
fn write_head(
    ctx: &Context,
    out: &mut Printer,
    margin: &[u8],
    op: &TreeOp,
) -> Result<(), AllocError>
    requires { IsTrue (head_passes (is_name ctx.now) (is_type ctx.now) (is_attr ctx.now) (head op.now)) }
    ensures { OnOk result (printed_in ctx.now out.new ≡ print_head margin.now (head_in ctx.now (head op.now)) (printed_in ctx.now out.old)) }
{
    write_short(&mut out.text, margin)?;
    write_results(ctx, out, op.id, &op.results)?;
    write_name(ctx, out, op)
}

/// Appends an operation after its regions.
fn write_tail(ctx: &Context, out: &mut Printer, op: &TreeOp) -> Result<(), AllocError>
    requires { IsTrue (head_passes (is_name ctx.now) (is_type ctx.now) (is_attr ctx.now) (head op.now)) }
    ensures { OnOk result (printed_in ctx.now out.new ≡ print_tail (head_in ctx.now (head op.now)) (printed_in ctx.now out.old)) }
{
    write_attributes(ctx, &mut out.text, &op.attrs)?;
    write_short(&mut out.text, b" : ")?;
    write_function_type(ctx, &mut out.text, &out.named, &op.operands, &op.results)?;
    write_short(&mut out.text, b"\n")
}

/// Appends a comma before the item at index `place`, unless the index is 0.
fn write_comma(out: &mut Printer, place: usize) -> Result<(), AllocError>
    ensures { (c : ContextModel) → OnOk result (printed_in c out.new ≡ append_text (comma_at place) (printed_in c out.old)) }
{
    if place > 0 {
        write_short(&mut out.text, b", ")?;
    }
    Ok(())
}

/// Appends an argument of a block with its type.
fn write_argument_text(
    ctx: &Context,
    out: &mut Vec<u8>,
    number: u32,
    ty: TypeId,
) -> Result<(), AllocError>
    requires { IsType ctx.now ty }
    ensures { OnOk result (out.new.items ≡ out.old.items ++ argument_text number (type_term ctx.now ty)) }
{
    write_short(out, b"%arg")?;
    write_number(out, u64::from(number))?;
    write_short(out, b": ")?;
    print_type(ctx, out, ty)
}

/// Appends an argument of a block, and names it.
fn write_argument(
    ctx: &Context,
    out: &mut Printer,
    op: OpId,
    region: usize,
    place: usize,
    ty: TypeId,
) -> Result<(), AllocError>
    requires { IsType ctx.now ty }
    ensures { OnOk result (printed_in ctx.now out.new ≡ print_argument op region place (type_term ctx.now ty) (printed_in ctx.now out.old)) }
{
    write_argument_text(ctx, &mut out.text, out.arguments, ty)?;
    name_argument(&mut out.named, op, region, place, out.arguments, ty)?;
    out.arguments = number_after(out.arguments)?;
    Ok(())
}

/// Appends the arguments of a block, separated by commas, and names them.
fn write_arguments(
    ctx: &Context,
    out: &mut Printer,
    op: OpId,
    region: usize,
    args: &[TypeId],
) -> Result<(), AllocError>
    requires { IsTrue (list_all (is_type ctx.now) args.now) }
    ensures { OnOk result (printed_in ctx.now out.new ≡ print_arguments op region 0 (types_in ctx.now args.now) (printed_in ctx.now out.old)) }
{
    for (place, ty) in args.iter().enumerate() {
        write_comma(out, place)?;
        write_argument(ctx, out, op, region, place, *ty)?;
    }
    Ok(())
}

/// Appends the label of a block without arguments and without operations. A block with operations gets no label.
fn write_bare_label(out: &mut Printer, margin: &[u8], ops: &[TreeOp]) -> Result<(), AllocError>
    ensures { (c : ContextModel) → OnOk result (printed_in c out.new ≡ print_bare_label margin.now (ops_in c ops.now) (printed_in c out.old)) }
{
    match ops {
        [] => {
            write(out, margin)?;
            write(out, b"^bb0:\n")
        }
        [_, ..] => Ok(()),
    }
}

/// Appends the label of a block if the block has arguments or no operations (Language Reference, "Blocks").
fn write_label(
    ctx: &Context,
    out: &mut Printer,
    margin: &[u8],
    op: OpId,
    region: usize,
    args: &[TypeId],
    ops: &[TreeOp],
) -> Result<(), AllocError>
    requires { IsTrue (list_all (is_type ctx.now) args.now) }
    ensures { OnOk result (printed_in ctx.now out.new ≡ print_label margin.now op region (types_in ctx.now args.now) (ops_in ctx.now ops.now) (printed_in ctx.now out.old)) }
{
    match args {
        [] => write_bare_label(out, margin, ops),
        [_, ..] => {
            write(out, margin)?;
            write(out, b"^bb0(")?;
            write_arguments(ctx, out, op, region, args)?;
            write(out, b"):\n")
        }
    }
}

/// Appends the opening parenthesis of an operation's regions, if it has any.
fn write_opening(out: &mut Printer, regions: &[TreeRegion]) -> Result<(), AllocError>
    ensures { (c : ContextModel) → OnOk result (printed_in c out.new ≡ append_text (opening (regions_in c regions.now)) (printed_in c out.old)) }
{
    match regions {
        [] => Ok(()),
        [_, ..] => write(out, b" ("),
    }
}

/// Appends the closing parenthesis of an operation's regions, if it has any.
fn write_closing(out: &mut Printer, regions: &[TreeRegion]) -> Result<(), AllocError>
    ensures { (c : ContextModel) → OnOk result (printed_in c out.new ≡ append_text (closing_text (regions_in c regions.now)) (printed_in c out.old)) }
{
    match regions {
        [] => Ok(()),
        [_, ..] => write(out, b")"),
    }
}

/// Returns the margin of the next level of nesting.
fn deeper(margin: &[u8], alloc: Global) -> Result<Vec<u8>, AllocError>
    ensures { IfOk result (λ v. v.items ≡ deeper margin.now) }
{
    let mut blanks = Vec::from_slice(alloc, margin)?;
    blanks.extend_from_slice(b"  ")?;
    Ok(blanks)
}

/// Appends an operation with its regions.
#[cycle(operations)]
pub(crate) fn print_op(
    ctx: &Context,
    out: &mut Printer,
    margin: &[u8],
    op: &TreeOp,
) -> Result<(), AllocError>
    requires { IsTrue (is_known ctx.now op.now) }
    ensures { OnOk result (printed_in ctx.now out.new ≡ printed_op margin.now (meaning ctx.now op.now) (printed_in ctx.now out.old)) }
{
    write_head(ctx, out, margin, op)?;
    write_opening(out, &op.regions)?;
    'regions: for (place, region) in op.regions.iter().enumerate() {
        write_comma(out, place)?;
        write_region(ctx, out, margin, op.id, place, region)?;
    }
    write_closing(out, &op.regions)?;
    write_tail(ctx, out, op)?;
    Ok(())
}

/// Appends a region (Language Reference, "Regions").
#[cycle(operations)]
fn write_region(
    ctx: &Context,
    out: &mut Printer,
    margin: &[u8],
    op: OpId,
    place: usize,
    region: &TreeRegion,
) -> Result<(), AllocError>
    requires arguments { IsTrue (arguments_pass (list_all (is_type ctx.now)) (region_view region.now)) }
    requires inside { IsTrue (region_every (op_passes (is_name ctx.now) (is_type ctx.now) (is_attr ctx.now)) (region_view region.now)) }
    ensures { OnOk result (printed_in ctx.now out.new ≡ print_region margin.now op place (region_in ctx.now (region_view region.now)) (printed_in ctx.now out.old)) }
{
    match region {
        TreeRegion::Empty => write(out, b"{}"),
        TreeRegion::Block { args, ops } => {
            write(out, b"{\n")?;
            write_label(ctx, out, margin, op, place, args, ops)?;
            let blanks = deeper(margin, *ops.allocator())?;
            'ops: for op in ops {
                print_op(ctx, out, &blanks, op)?;
            }
            write(out, margin)?;
            write(out, b"}")?;
            Ok(())
        }
    }
}
