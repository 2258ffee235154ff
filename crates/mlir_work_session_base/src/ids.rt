//! Writes the text of a module with the ids of its operations.
ghost use Rattle.std.specs.Prelude.{◌≡◌, ◌++◌, ◌∷◌, [], drop, IfOk, IsTrue, OnOk};
ghost use Rattle.ir_event.specs.trees.Meaning.{is_known, meaning};
ghost use Rattle.ir_event.specs.trees.Tree.{ops_of};
ghost use Rattle.ir_event.specs.trees.View.{region_view};
ghost use Rattle.mlir_work_script_base.specs.Lines.{lines_of};
ghost use Rattle.mlir_work_script_base.specs.Values.{op_text};
ghost use Rattle.mlir_work_session_base.specs.IdsText.{bare_label_ids, ids_text, label_ids, line_end, line_ids, region_line_ids, with_ids};

use ir_event::trees::tree::{TreeOp, TreeRegion};
use ir_event::types::context::Context;
use ir_event::types::ids::{OpId, TypeId};
use ir_text::printer::print;
use mlir_work_script_base::cells;
use mlir_work_script_base::lines::split_line;
use std::alloc::{AllocError, Global};

/// Pushes the id for the label line of a block without arguments. The text has such a line only if the block is
/// empty.
fn push_bare_label(out: &mut Vec<OpId>, around: OpId, ops: &[TreeOp]) -> Result<(), AllocError>
    ensures { OnOk result (out.new.items ≡ out.old.items ++ bare_label_ids around (ops_of ops.now)) }
{
    match ops {
        [] => {
            out.push(around)?;
            Ok(())
        }
        [_, ..] => Ok(()),
    }
}

/// Pushes the id for the label line of a block, if the text has one.
fn push_label(
    out: &mut Vec<OpId>,
    around: OpId,
    args: &[TypeId],
    ops: &[TreeOp],
) -> Result<(), AllocError>
    ensures { OnOk result (out.new.items ≡ out.old.items ++ label_ids around args.now (ops_of ops.now)) }
{
    match args {
        [] => push_bare_label(out, around, ops),
        [_, ..] => {
            out.push(around)?;
            Ok(())
        }
    }
}

/// Pushes an id for each line of an operation's text.
#[cycle(lines)]
fn push_lines(out: &mut Vec<OpId>, tree: &TreeOp) -> Result<(), AllocError>
    ensures { OnOk result (out.new.items ≡ out.old.items ++ line_ids tree.now) }
{
    out.push(tree.id)?;
    for region in &tree.regions {
        push_region_lines(out, tree.id, region)?;
    }
    Ok(())
}

/// Pushes an id for each line of the text of an operation's region.
#[cycle(lines)]
fn push_region_lines(
    out: &mut Vec<OpId>,
    around: OpId,
    region: &TreeRegion,
) -> Result<(), AllocError>
    ensures { OnOk result (out.new.items ≡ out.old.items ++ region_line_ids around (region_view region.now)) }
{
    match region {
        TreeRegion::Empty => Ok(()),
        TreeRegion::Block { args, ops } => {
            push_label(out, around, args, ops)?;
            for op in ops {
                push_lines(out, op)?;
            }
            out.push(around)?;
            Ok(())
        }
    }
}

/// Appends the end of a line, with the first of the remaining ids as a comment.
fn write_line_end(out: &mut Vec<u8>, ids: &[OpId]) -> Result<(), AllocError>
    ensures { OnOk result (out.new.items ≡ out.old.items ++ line_end ids.now) }
{
    let [id, ..] = ids else {
        return out.extend_from_slice(b"\n");
    };
    out.extend_from_slice(b" // ")?;
    write_op(out, *id)?;
    out.extend_from_slice(b"\n")
}

fn write_op(out: &mut Vec<u8>, op: OpId) -> Result<(), AllocError>
    ensures { OnOk result (out.new.items ≡ out.old.items ++ op_text op) }
{
    cells::write_op_id(out, op).map_err(|_| AllocError)
}

/// Appends a line with its end.
fn write_line(out: &mut Vec<u8>, line: &[u8], ids: &[OpId]) -> Result<(), AllocError>
    ensures { OnOk result (out.new.items ≡ out.old.items ++ (line.now ++ line_end ids.now)) }
{
    out.extend_from_slice(line)?;
    write_line_end(out, ids)
}

/// Returns the ids without the first.
fn trailing_first(ids: &[OpId]) -> &[OpId]
    ensures { result.now ≡ drop 1 ids.now }
{
    match ids {
        [] => &[],
        [_, rest @ ..] => rest,
    }
}

/// Appends lines with the ids of their operations.
fn write_lines(out: &mut Vec<u8>, text: &[u8], ids: &[OpId]) -> Result<(), AllocError>
    ensures { OnOk result (out.new.items ≡ out.old.items ++ with_ids (lines_of text.now) ids.now) }
{
    let mut rest = text;
    let mut left = ids;
    while !rest.is_empty() {
        let (line, trailing) = split_line(rest);
        write_line(out, line, left)?;
        rest = trailing;
        left = trailing_first(left);
    }
    Ok(())
}

/// Returns a text with the ids of its operations at the line ends.
fn numbered(alloc: Global, text: &[u8], tree: &TreeOp) -> Result<Vec<u8>, AllocError>
    ensures { IfOk result (λ out. out.items ≡ with_ids (lines_of text.now) (line_ids tree.now)) }
{
    let mut ids = Vec::new(alloc);
    push_lines(&mut ids, tree)?;
    let mut out = Vec::new(alloc);
    write_lines(&mut out, text, &ids)?;
    Ok(out)
}

/// Returns the text of a tree with the ids of its operations.
pub fn text_with_ids(alloc: Global, ctx: &Context, tree: &TreeOp) -> Result<Vec<u8>, AllocError>
    requires { IsTrue (is_known ctx.now tree.now) }
    ensures { IfOk result (λ out. out.items ≡ ids_text (meaning ctx.now tree.now)) }
{
    let text = match print(alloc, ctx, tree) {
        Ok(text) => text,
        Err(_) => return Err(AllocError),
    };
    numbered(alloc, &text, tree)
}
