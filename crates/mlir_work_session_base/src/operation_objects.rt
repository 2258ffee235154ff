//! Writes operations as JSON objects, one a line.
ghost use Rattle.std.specs.Prelude.{◌≡◌, ◌++◌, ◌∷◌, ℕ, List, [], false, true, codes, map, IsTrue, OnOk};
ghost use Rattle.std.specs.Fmt.{decimal};
ghost use Rattle.std.specs.List.{list_all};
ghost use Rattle.ir_event.specs.trees.Limits.{all_arguments_pass};
ghost use Rattle.ir_event.specs.trees.Meaning.{is_attr, is_name, is_type, meaning};
ghost use Rattle.ir_event.specs.trees.Passing.{entry_passes, head_passes, op_passes};
ghost use Rattle.ir_event.specs.trees.Tree.{head, regions, regions_of};
ghost use Rattle.ir_event.specs.trees.View.{region_view};
ghost use Rattle.ir_event.specs.types.Terms.{attr_term, name_term, type_term};
ghost use Rattle.ir_event.specs.types.Things.{IsAttr, IsName, IsType};
ghost use Rattle.ir_text.specs.AttrText.{attr_text};
ghost use Rattle.ir_text.specs.TypeText.{type_text};
ghost use Rattle.ir_text.specs.View.{entries_in, regions_in, types_in};
ghost use Rattle.ir_text_tokens.specs.Printing.{raw_text};
ghost use Rattle.json.specs.Print.{quoted};
ghost use Rattle.mlir_work_script_base.specs.Values.{op_text, value_text};
ghost use Rattle.mlir_work_session_base.specs.OperationObjects.{argument_types, entry_members, first_members, index_data, last_members};
ghost use Rattle.mlir_work_session_base.specs.OperationObjects.{operation_data, parent_data, region_data, region_items, type_items, value_items};
ghost use Rattle.serde_json.specs.Data.{Members, array, null, object};
ghost use Rattle.serde_json.specs.Written.{compact_text, members_text};

use crate::json_text::{write_comma, write_key, write_quoted};
use crate::place::Place;
use ir_event::trees::tree::{TreeOp, TreeRegion};
use ir_event::trees::value::Value;
use ir_event::types::context::Context;
use ir_event::types::ids::{AttrId, NameId, OpId, TypeId};
use ir_event::types::things::name_of;
use ir_text::attributes::print_attr;
use ir_text::types::print_type;
use ir_text_tokens::print::print_string;
use itoa::Buffer;
use mlir_work_script_base::cells;
use std::alloc::AllocError;

// A `text` that functions take is scratch space: they overwrite it.

/// Appends a type as a JSON string.
fn write_type(
    ctx: &Context,
    out: &mut Vec<u8>,
    text: &mut Vec<u8>,
    id: TypeId,
) -> Result<(), AllocError>
    requires { IsType ctx.now id }
    ensures { OnOk result (out.new.items ≡ out.old.items ++ quoted (type_text (type_term ctx.now id))) }
{
    text.clear();
    print_type(ctx, text, id)?;
    write_quoted(out, text)
}

/// Appends an attribute as a JSON string.
fn write_attr(
    ctx: &Context,
    out: &mut Vec<u8>,
    text: &mut Vec<u8>,
    id: AttrId,
) -> Result<(), AllocError>
    requires { IsAttr ctx.now id }
    ensures { OnOk result (out.new.items ≡ out.old.items ++ quoted (attr_text (attr_term ctx.now id))) }
{
    text.clear();
    print_attr(ctx, text, id)?;
    write_quoted(out, text)
}

/// Returns a text without the bytes at its two ends.
fn inside(text: &[u8]) -> &[u8]
    ensures { (raw : List ℕ) → text.now ≡ 34 ∷ (raw ++ 34 ∷ []) → result.now ≡ raw }
{
    match text {
        [_, raw @ .., _] => raw,
        _ => text,
    }
}

/// Appends the printed form of a name as a JSON string.
fn write_name(
    ctx: &Context,
    out: &mut Vec<u8>,
    text: &mut Vec<u8>,
    id: NameId,
) -> Result<(), AllocError>
    requires { IsName ctx.now id }
    ensures { OnOk result (out.new.items ≡ out.old.items ++ quoted (raw_text (name_term ctx.now id))) }
{
    text.clear();
    print_string(text, name_of(ctx, id))?;
    write_quoted(out, inside(text))?;
    Ok(())
}

/// Appends an operation id as a JSON string.
fn write_op(out: &mut Vec<u8>, text: &mut Vec<u8>, op: OpId) -> Result<(), AllocError>
    ensures { OnOk result (out.new.items ≡ out.old.items ++ quoted (op_text op)) }
{
    text.clear();
    cells::write_op_id(text, op).map_err(|_| AllocError)?;
    write_quoted(out, text)
}

/// Appends a value as a JSON string.
fn write_value(out: &mut Vec<u8>, text: &mut Vec<u8>, value: Value) -> Result<(), AllocError>
    ensures { OnOk result (out.new.items ≡ out.old.items ++ quoted (value_text value)) }
{
    text.clear();
    cells::write_value(text, value).map_err(|_| AllocError)?;
    write_quoted(out, text)
}

/// Appends types as a JSON array.
fn write_types(
    ctx: &Context,
    out: &mut Vec<u8>,
    text: &mut Vec<u8>,
    types: &[TypeId],
) -> Result<(), AllocError>
    requires { IsTrue (list_all (is_type ctx.now) types.now) }
    ensures { OnOk result (out.new.items ≡ out.old.items ++ compact_text (array (type_items (types_in ctx.now types.now)))) }
{
    out.push(b'[')?;
    let mut later = false;
    'types: for id in types {
        write_comma(out, later)?;
        write_type(ctx, out, text, *id)?;
        later = true;
    }
    out.push(b']')?;
    Ok(())
}

/// Appends values as a JSON array.
fn write_values(out: &mut Vec<u8>, text: &mut Vec<u8>, values: &[Value]) -> Result<(), AllocError>
    ensures { OnOk result (out.new.items ≡ out.old.items ++ compact_text (array (value_items values.now))) }
{
    out.push(b'[')?;
    let mut later = false;
    'values: for value in values {
        write_comma(out, later)?;
        write_value(out, text, *value)?;
        later = true;
    }
    out.push(b']')?;
    Ok(())
}

/// Appends an entry of a dictionary as a member.
fn write_entry(
    ctx: &Context,
    out: &mut Vec<u8>,
    text: &mut Vec<u8>,
    entry: &(NameId, AttrId),
) -> Result<(), AllocError>
    requires name { IsName ctx.now entry.now.0 }
    requires attribute { IsAttr ctx.now entry.now.1 }
    ensures { OnOk result (out.new.items ≡ out.old.items ++ (quoted (raw_text (name_term ctx.now entry.now.0)) ++ 58 ∷ quoted (attr_text (attr_term ctx.now entry.now.1)))) }
{
    write_name(ctx, out, text, entry.0)?;
    out.push(b':')?;
    write_attr(ctx, out, text, entry.1)
}

/// Appends a dictionary as a JSON object.
fn write_entries(
    ctx: &Context,
    out: &mut Vec<u8>,
    text: &mut Vec<u8>,
    entries: &[(NameId, AttrId)],
) -> Result<(), AllocError>
    requires { IsTrue (list_all (entry_passes (is_name ctx.now) (is_attr ctx.now)) entries.now) }
    ensures { OnOk result (out.new.items ≡ out.old.items ++ compact_text (object (entry_members (entries_in ctx.now entries.now)))) }
{
    out.push(b'{')?;
    let mut later = false;
    'entries: for entry in entries {
        write_comma(out, later)?;
        write_entry(ctx, out, text, entry)?;
        later = true;
    }
    out.push(b'}')?;
    Ok(())
}

/// Returns the types of the arguments of a region's block.
fn argument_types(region: &TreeRegion) -> &[TypeId]
    ensures { result.now ≡ argument_types (region_view region.now) }
{
    match region {
        TreeRegion::Empty => &[],
        TreeRegion::Block { args, .. } => args,
    }
}

/// Appends for each region the types of its block's arguments, as a JSON array.
fn write_regions(
    ctx: &Context,
    out: &mut Vec<u8>,
    text: &mut Vec<u8>,
    regions: &[TreeRegion],
) -> Result<(), AllocError>
    requires { IsTrue (all_arguments_pass (list_all (is_type ctx.now)) (regions_of (map region_view regions.now))) }
    ensures { OnOk result (out.new.items ≡ out.old.items ++ compact_text (array (region_items (regions_in ctx.now regions.now)))) }
{
    out.push(b'[')?;
    let mut later = false;
    'regions: for region in regions {
        write_comma(out, later)?;
        write_types(ctx, out, text, argument_types(region))?;
        later = true;
    }
    out.push(b']')?;
    Ok(())
}

fn write_null(out: &mut Vec<u8>) -> Result<(), AllocError>
    ensures { OnOk result (out.new.items ≡ out.old.items ++ compact_text null) }
{
    out.extend_from_slice(b"null")
}

fn write_number(out: &mut Vec<u8>, number: usize) -> Result<(), AllocError>
    ensures { OnOk result (out.new.items ≡ out.old.items ++ decimal number) }
{
    let mut buffer = Buffer::new();
    out.extend_from_slice(buffer.format(number).as_bytes())
}

/// Appends the parent of an operation, or `null`.
fn write_parent(
    out: &mut Vec<u8>,
    text: &mut Vec<u8>,
    place: &Option<Place>,
) -> Result<(), AllocError>
    ensures { OnOk result (out.new.items ≡ out.old.items ++ compact_text (parent_data place.now)) }
{
    match place {
        Some(place) => write_op(out, text, place.parent),
        None => write_null(out),
    }
}

/// Appends the number of an operation's region, or `null`.
fn write_region(out: &mut Vec<u8>, place: &Option<Place>) -> Result<(), AllocError>
    ensures { OnOk result (out.new.items ≡ out.old.items ++ compact_text (region_data place.now)) }
{
    match place {
        Some(place) => write_number(out, place.region),
        None => write_null(out),
    }
}

/// Appends the index of an operation in its block, or `null`.
fn write_index(out: &mut Vec<u8>, place: &Option<Place>) -> Result<(), AllocError>
    ensures { OnOk result (out.new.items ≡ out.old.items ++ compact_text (index_data place.now)) }
{
    match place {
        Some(place) => write_number(out, place.index),
        None => write_null(out),
    }
}

/// Appends the members of an operation's object up to `operands`.
fn write_first(
    ctx: &Context,
    out: &mut Vec<u8>,
    text: &mut Vec<u8>,
    tree: &TreeOp,
) -> Result<(), AllocError>
    requires { IsTrue (head_passes (is_name ctx.now) (is_type ctx.now) (is_attr ctx.now) (head tree.now)) }
    ensures { OnOk result ((ms : Members) → out.new.items ++ members_text true ms ≡ out.old.items ++ members_text false (first_members (head (meaning ctx.now tree.now)) ms)) }
{
    write_key(out, false, b"attributes")?;
    write_entries(ctx, out, text, &tree.attrs)?;
    write_key(out, true, b"id")?;
    write_op(out, text, tree.id)?;
    write_key(out, true, b"kind")?;
    write_quoted(out, b"operation")?;
    write_key(out, true, b"name")?;
    write_name(ctx, out, text, tree.name)?;
    write_key(out, true, b"operands")?;
    write_values(out, text, &tree.operands)?;
    Ok(())
}

/// Appends the members of an operation's object after `operands`, and the closing brace.
fn write_last(
    ctx: &Context,
    out: &mut Vec<u8>,
    text: &mut Vec<u8>,
    place: &Option<Place>,
    tree: &TreeOp,
) -> Result<(), AllocError>
    requires { IsTrue (op_passes (is_name ctx.now) (is_type ctx.now) (is_attr ctx.now) tree.now) }
    ensures { OnOk result (out.new.items ≡ out.old.items ++ members_text true (last_members place.now (head (meaning ctx.now tree.now)) (regions (meaning ctx.now tree.now)))) }
{
    write_key(out, true, b"parent")?;
    write_parent(out, text, place)?;
    write_key(out, true, b"place")?;
    write_index(out, place)?;
    write_key(out, true, b"properties")?;
    write_entries(ctx, out, text, &tree.props)?;
    write_key(out, true, b"region")?;
    write_region(out, place)?;
    write_key(out, true, b"regions")?;
    write_regions(ctx, out, text, &tree.regions)?;
    write_key(out, true, b"results")?;
    write_types(ctx, out, text, &tree.results)?;
    out.push(b'}')?;
    Ok(())
}

/// Appends the line of an operation at a place.
pub(crate) fn write_object(
    ctx: &Context,
    out: &mut Vec<u8>,
    text: &mut Vec<u8>,
    place: &Option<Place>,
    tree: &TreeOp,
) -> Result<(), AllocError>
    requires { IsTrue (op_passes (is_name ctx.now) (is_type ctx.now) (is_attr ctx.now) tree.now) }
    ensures { OnOk result (out.new.items ≡ out.old.items ++ (compact_text (operation_data place.now (meaning ctx.now tree.now)) ++ codes "\n")) }
{
    out.push(b'{')?;
    write_first(ctx, out, text, tree)?;
    write_last(ctx, out, text, place, tree)?;
    out.push(b'\n')?;
    Ok(())
}
