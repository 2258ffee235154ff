//! Conditions on one operation and its lists of operations: the shape of scopes, and what is in which order.
ghost use Rattle.std.specs.Prelude.{◌≡◌, not, position};
ghost use Rattle.std.specs.List.{list_all};
ghost use Rattle.ir_types.specs.Things.{ContextModel};
ghost use Rattle.ir_tree.specs.Meaning.{meaning};
ghost use Rattle.ir_tree.specs.Tree.{head};
ghost use Rattle.ir_tree_blocks.specs.Form as form;
ghost use Rattle.ir_tree_blocks.specs.Form.{all_lists};
ghost use Rattle.ir_tree_blocks.specs.Scopes as scopes;
ghost use Rattle.ir_tree_blocks.specs.Read.{ops_meaning, region_meaning, regions_meaning};
ghost use Rattle.ir_tree_blocks.specs.Whole as whole;

use crate::readings::{has_bytes, is_scope, order, successors};
use ir_tree::every::OpTest;
use ir_tree::tree::{TreeOp, TreeRegion};
use ir_types::context::Context;

/// The test of the conditions on one operation.
#[derive(Drop)]
pub struct FormTest<'a> {
    pub ctx: &'a Context,
}

impl<'a> OpTest for FormTest<'a> {
    ghost passes = { λ t o. whole.is_formed (meaning t.ctx.now o) };

    /// Returns whether the operation has its shape, and its lists of operations are in order.
    fn test(&self, op: &TreeOp) -> bool {
        is_shaped(self.ctx, op)
            && lists_are_ordered(self.ctx, &op.regions)
            && keeps_single_blocks(self.ctx, op)
    }
}

/// Returns whether an operation is no scope, or has no operands and no results, a label, and one region with a block.
pub fn is_shaped(ctx: &Context, op: &TreeOp) -> bool
    ensures { result ≡ form.is_shaped (meaning ctx.now op.now) }
{
    !is_scope(ctx, op)
        || (op.operands.is_empty()
            && op.results.is_empty()
            && order(ctx, op).is_some()
            && has_one_block(&op.regions))
}

/// Returns whether there is one region, and it has a block.
#[tactic(auto, using(crate::proofs::Tests::no_one_block))]
fn has_one_block(regions: &Vec<TreeRegion>) -> bool
    ensures { (c : ContextModel) → result ≡ form.has_one_block (regions_meaning c regions.now.items) }
{
    match regions.as_slice() {
        [region] => is_block(region),
        _ => false,
    }
}

/// Returns whether a region has a block.
pub fn is_block(region: &TreeRegion) -> bool
    ensures { (c : ContextModel) → result ≡ whole.is_block (region_meaning c region.now) }
{
    match region {
        TreeRegion::Empty => false,
        TreeRegion::Block { .. } => true,
    }
}

/// Returns whether in the block of each region scopes are last, and only the last operation before them has successors.
fn lists_are_ordered(ctx: &Context, regions: &Vec<TreeRegion>) -> bool
    ensures { result ≡ all_lists whole.is_ordered (regions_meaning ctx.now regions.now.items) }
{
    all_are_ordered(ctx, regions)
}

/// Returns whether the block of each region is in order.
fn all_are_ordered(ctx: &Context, regions: &Vec<TreeRegion>) -> bool
    ensures { result ≡ list_all (λ g. whole.list_passes whole.is_ordered (region_meaning ctx.now g)) regions.now.items }
{
    regions.iter().all(|region| region_is_ordered(ctx, region))
}

/// Returns whether the same holds for the block of one region.
fn region_is_ordered(ctx: &Context, region: &TreeRegion) -> bool
    ensures { result ≡ whole.list_passes whole.is_ordered (region_meaning ctx.now region.now) }
{
    match region {
        TreeRegion::Empty => true,
        TreeRegion::Block { ops, .. } => is_ordered(ctx, ops),
    }
}

/// Returns whether scopes are last in a list, and only the last operation before them has successors.
fn is_ordered(ctx: &Context, ops: &Vec<TreeOp>) -> bool
    ensures { result ≡ whole.is_ordered (ops_meaning ctx.now ops.now.items) }
{
    ends_in_scopes(ctx, ops) && only_last_names(ctx, ops)
}

/// Returns whether a list has only scopes.
fn only_scopes(ctx: &Context, ops: &[TreeOp]) -> bool
    ensures { result ≡ form.only_scopes (ops_meaning ctx.now ops.now) }
{
    all_are_scopes(ctx, ops)
}

/// Returns whether each operation of a list is a scope.
fn all_are_scopes(ctx: &Context, ops: &[TreeOp]) -> bool
    ensures { result ≡ list_all (λ o. scopes.is_scope (head (meaning ctx.now o))) ops.now }
{
    ops.iter().all(|op| is_scope(ctx, op))
}

/// Returns whether scopes are after all other operations of a list.
fn ends_in_scopes(ctx: &Context, ops: &[TreeOp]) -> bool
    ensures { result ≡ form.ends_in_scopes (ops_meaning ctx.now ops.now) }
{
    match first_scope(ctx, ops) {
        Some(index) => only_scopes(ctx, &ops[index..]),
        None => true,
    }
}

/// Returns the index of the first scope of a list, if there is one.
fn first_scope(ctx: &Context, ops: &[TreeOp]) -> Option<usize>
    ensures { result ≡ position (λ o. scopes.is_scope (head (meaning ctx.now o))) ops.now }
{
    ops.iter().position(|op| is_scope(ctx, op))
}

/// Returns whether only the last operation that isn't a scope has successors.
fn only_last_names(ctx: &Context, ops: &[TreeOp]) -> bool
    ensures { result ≡ form.only_last_names (ops_meaning ctx.now ops.now) }
{
    match first_naming(ctx, ops) {
        Some(index) => only_scopes(ctx, &ops[index + 1..]),
        None => true,
    }
}

/// Returns the index of the first operation of a list that is no scope and has successors, if there is one.
fn first_naming(ctx: &Context, ops: &[TreeOp]) -> Option<usize>
    ensures { result ≡ position (λ o. whole.names_blocks (head (meaning ctx.now o))) ops.now }
{
    ops.iter().position(|op| names_blocks(ctx, op))
}

/// Returns whether an operation is no scope and has successors.
fn names_blocks(ctx: &Context, op: &TreeOp) -> bool
    ensures { result ≡ whole.names_blocks (head (meaning ctx.now op.now)) }
{
    !is_scope(ctx, op) && !successors(ctx, op).is_empty()
}

/// Returns whether no scope is right in a region of an operation whose regions may have one block only.
fn keeps_single_blocks(ctx: &Context, op: &TreeOp) -> bool
    ensures { result ≡ whole.keeps_single_blocks (meaning ctx.now op.now) }
{
    !has_single_blocks(ctx, op) || have_no_scopes(ctx, &op.regions)
}

/// Returns whether the regions of an operation may have one block only.
#[tactic(auto, unfolding(crate::specs::Whole::has_single_blocks))]
fn has_single_blocks(ctx: &Context, op: &TreeOp) -> bool
    ensures { result ≡ whole.has_single_blocks (head (meaning ctx.now op.now)).name }
{
    has_bytes(ctx, op.name, b"builtin.module")
        || has_bytes(ctx, op.name, b"scf.for")
        || has_bytes(ctx, op.name, b"scf.if")
        || has_bytes(ctx, op.name, b"scf.while")
}

/// Returns whether no scope is right in one of the regions.
fn have_no_scopes(ctx: &Context, regions: &Vec<TreeRegion>) -> bool
    ensures { result ≡ all_lists whole.has_no_scope (regions_meaning ctx.now regions.now.items) }
{
    none_has_scope(ctx, regions)
}

/// Returns whether no region has a scope right in it.
fn none_has_scope(ctx: &Context, regions: &Vec<TreeRegion>) -> bool
    ensures { result ≡ list_all (λ g. whole.list_passes whole.has_no_scope (region_meaning ctx.now g)) regions.now.items }
{
    regions
        .iter()
        .all(|region| region_has_no_scope(ctx, region))
}

/// Returns whether no scope is right in one region.
fn region_has_no_scope(ctx: &Context, region: &TreeRegion) -> bool
    ensures { result ≡ whole.list_passes whole.has_no_scope (region_meaning ctx.now region.now) }
{
    match region {
        TreeRegion::Empty => true,
        TreeRegion::Block { ops, .. } => has_no_scope(ctx, ops),
    }
}

/// Returns whether a list has no scope.
fn has_no_scope(ctx: &Context, ops: &Vec<TreeOp>) -> bool
    ensures { result ≡ whole.has_no_scope (ops_meaning ctx.now ops.now.items) }
{
    none_is_scope(ctx, ops)
}

/// Returns whether no operation of a list is a scope.
fn none_is_scope(ctx: &Context, ops: &Vec<TreeOp>) -> bool
    ensures { result ≡ list_all (λ o. not (scopes.is_scope (head (meaning ctx.now o)))) ops.now.items }
{
    ops.iter().all(|op| !is_scope(ctx, op))
}
