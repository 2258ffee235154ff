//! Writes the operations of a tree as JSON objects, in pre-order.
ghost use Rattle.std.specs.Prelude.{◌≡◌, [], None, Some, IfOk, IsTrue, OnOk};
ghost use Rattle.ir_event.specs.trees.Limits.{region_every};
ghost use Rattle.ir_event.specs.trees.Meaning.{is_attr, is_known, is_name, is_type, meaning};
ghost use Rattle.ir_event.specs.trees.Passing.{op_passes};
ghost use Rattle.ir_event.specs.trees.View.{region_view};
ghost use Rattle.ir_text.specs.View.{region_in};
ghost use Rattle.mlir_work_session_base.specs.OperationObjects.{all_objects_text, page_text};
ghost use Rattle.mlir_work_session_base.specs.OperationWalk.{all_visited, is_before, is_full, one_less, visited, walk_view};
ghost use Rattle.mlir_work_session_base.specs.PlacedOps.{placed, region_placed};

use crate::operation_objects::write_object;
use crate::place::Place;
use ir_event::trees::tree::{TreeOp, TreeRegion};
use ir_event::types::context::Context;
use ir_event::types::ids::OpId;
use std::alloc::{AllocError, Global};

/// What a walk has written, and what is left of its page.
#[derive(Drop)]
pub struct ObjectWriter {
    /// The lines so far.
    pub out: Vec<u8>,
    /// Scratch space.
    pub text: Vec<u8>,
    /// The operation at which the page begins, until the walk reaches it.
    pub from: Option<OpId>,
    /// How many operations the page may still have, if it has a limit.
    pub left: Option<u32>,
}

/// Returns whether the page begins after operation `op`.
fn is_before(from: &Option<OpId>, op: OpId) -> bool
    ensures { result ≡ is_before from.now op }
{
    match from {
        Some(first) => op != *first,
        None => false,
    }
}

fn is_full(left: &Option<u32>) -> bool
    ensures { result ≡ is_full left.now }
{
    match left {
        Some(count) => *count == 0,
        None => false,
    }
}

fn one_less(left: &Option<u32>) -> Option<u32>
    ensures { result ≡ one_less left.now }
{
    match left {
        Some(count) => Some(count.saturating_sub(1)),
        None => None,
    }
}

/// Writes the line of an operation, unless the page begins later or is full.
fn visit(
    ctx: &Context,
    writer: &mut ObjectWriter,
    place: &Option<Place>,
    tree: &TreeOp,
) -> Result<(), AllocError>
    requires { IsTrue (op_passes (is_name ctx.now) (is_type ctx.now) (is_attr ctx.now) tree.now) }
    ensures { OnOk result (walk_view writer.new ≡ visited (record { place = place.now; operation = meaning ctx.now tree.now }) (walk_view writer.old)) }
{
    if is_before(&writer.from, tree.id) {
        return Ok(());
    }
    writer.from = None;
    if is_full(&writer.left) {
        return Ok(());
    }
    writer.left = one_less(&writer.left);
    write_object(ctx, &mut writer.out, &mut writer.text, place, tree)
}

/// Writes the lines of an operation at a place and of the operations inside it.
#[cycle(walk)]
fn walk_op(
    ctx: &Context,
    writer: &mut ObjectWriter,
    place: &Option<Place>,
    tree: &TreeOp,
) -> Result<(), AllocError>
    requires { IsTrue (is_known ctx.now tree.now) }
    ensures { OnOk result (walk_view writer.new ≡ all_visited (placed place.now (meaning ctx.now tree.now)) (walk_view writer.old)) }
{
    visit(ctx, writer, place, tree)?;
    'regions: for (number, region) in tree.regions.iter().enumerate() {
        walk_region(ctx, writer, tree.id, number, region)?;
    }
    Ok(())
}

/// Writes the lines of the operations in region `number` of `parent`.
#[cycle(walk)]
fn walk_region(
    ctx: &Context,
    writer: &mut ObjectWriter,
    parent: OpId,
    number: usize,
    region: &TreeRegion,
) -> Result<(), AllocError>
    requires { IsTrue (region_every (op_passes (is_name ctx.now) (is_type ctx.now) (is_attr ctx.now)) (region_view region.now)) }
    ensures { OnOk result (walk_view writer.new ≡ all_visited (region_placed parent number (region_in ctx.now (region_view region.now))) (walk_view writer.old)) }
{
    match region {
        TreeRegion::Empty => Ok(()),
        TreeRegion::Block { ops, .. } => {
            'ops: for (index, op) in ops.iter().enumerate() {
                let place = Some(Place {
                    parent,
                    region: number,
                    index,
                });
                walk_op(ctx, writer, &place, op)?;
            }
            Ok(())
        }
    }
}

/// Returns what a walk over a tree writes for a page.
fn walked(
    alloc: Global,
    ctx: &Context,
    tree: &TreeOp,
    from: Option<OpId>,
    left: Option<u32>,
) -> Result<Vec<u8>, AllocError>
    requires { IsTrue (is_known ctx.now tree.now) }
    ensures { IfOk result (λ text. text.items ≡ (all_visited (placed None (meaning ctx.now tree.now)) (record { text = []; from = from; left = left })).text) }
{
    let mut writer = ObjectWriter {
        out: Vec::new(alloc),
        text: Vec::new(alloc),
        from,
        left,
    };
    walk_op(ctx, &mut writer, &None, tree)?;
    let ObjectWriter { out, .. } = writer;
    Ok(out)
}

/// Returns the lines of all operations of a tree, in pre-order.
pub fn text_of_all(alloc: Global, ctx: &Context, tree: &TreeOp) -> Result<Vec<u8>, AllocError>
    requires { IsTrue (is_known ctx.now tree.now) }
    ensures { IfOk result (λ text. text.items ≡ all_objects_text (meaning ctx.now tree.now)) }
{
    walked(alloc, ctx, tree, None, None)
}

/// Returns the lines of at most `count` operations of a tree, in pre-order from operation `op` on.
pub fn text_of_page(
    alloc: Global,
    ctx: &Context,
    tree: &TreeOp,
    op: OpId,
    count: u32,
) -> Result<Vec<u8>, AllocError>
    requires { IsTrue (is_known ctx.now tree.now) }
    ensures { IfOk result (λ text. text.items ≡ page_text op count (meaning ctx.now tree.now)) }
{
    walked(alloc, ctx, tree, Some(op), Some(count))
}
