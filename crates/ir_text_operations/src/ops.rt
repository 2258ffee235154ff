//! Operations. Language Reference, "Operations" and "Regions"; Traits, "IsolatedFromAbove".
ghost use Rattle.std.specs.Prelude.{◌≡◌, ◌<◌, [], List, length, map, option_map};
ghost use Rattle.ir_text_tokens.specs.declared.token.Mark.TheVariants.{CloseCurly};
ghost use Rattle.ir_tree.specs.Tree.{Region};
ghost use Rattle.ir_tree.specs.Limits.{most_ops};
ghost use Rattle.ir_tree.specs.View.{region_view};
ghost use Rattle.ir_types.specs.Things.{IsExtendedBy};
ghost use Rattle.ir_text_types.specs.Outcomes.{Returns};
ghost use Rattle.ir_text_names.specs.States.{state_of};
ghost use Rattle.ir_text_operations.specs.Free.{free_bound};
ghost use Rattle.ir_text_operations.specs.Made.{region_of};
ghost use Rattle.ir_text_operations.specs.OpReading.{region_at, regions_at, ops_at, op_with, op_at};

use crate::limits::{MOST_OPS, MOST_REGIONS};
use crate::opening::read_opening;
use crate::outer_names::OuterScope;
use crate::places::{error_at_name, past_ops, region_too_many};
use crate::tail::closing;
use ir_text_names::blocks::region_head;
use ir_text_names::lists::{AfterItem, after_item};
use ir_text_names::scope::Scope;
use ir_text_tokens::refusal::TextRefusal;
use ir_text_tokens::token::Mark;
use ir_text_types::error::ReadError;
use ir_text_types::steps::after;
use ir_tree::outer::Outer;
use ir_tree::tree::{TreeOp, TreeRegion};
use ir_types::context::Context;
use ir_types::ids::TypeId;
use std::alloc::Global;

/// Returns a region. A region without a label and without operations has no block.
fn region_of(alloc: Global, args: Option<Vec<TypeId>>, ops: Vec<TreeOp>) -> TreeRegion
    ensures { region_view result ≡ region_of (option_map (λ v. v.items) args) ops.items }
{
    match args {
        Some(args) => TreeRegion::Block { args, ops },
        None => {
            if ops.is_empty() {
                return TreeRegion::Empty;
            }
            let args = Vec::new(alloc);
            TreeRegion::Block { args, ops }
        }
    }
}

/// Parses a region. Its names go out of scope at its end. In a region of an isolated operation no outer name is
/// visible.
#[cycle(op)]
#[tactic(auto, using(ir_types::proofs::Growth::grows_refl, ir_types::proofs::Growth::grows_trans))]
fn region<'a, O: Outer>(
    alloc: Global,
    scope: &mut Scope<'a>,
    ctx: &mut Context,
    around: &OuterScope<'_, O>,
    id: u32,
    region: u32,
    isolated: bool,
    bytes: &'a [u8],
    depth: u32,
) -> Result<(TreeRegion, &'a [u8]), ReadError>
    ensures reads { (before : List Region) → length before ≡ region → Returns (λ x. (region_view x.0, state_of x.1.now scope.new ctx.new)) result (region_at (ops_at CloseCurly (op_at (free_bound (O.types around.now.outer.now)) around.now.last depth) most_ops []) id isolated before (state_of bytes.now scope.old ctx.old)) }
    ensures grows { IsExtendedBy ctx.old ctx.new }
{
    let (args, rest) = match region_head(alloc, scope, ctx, id, region, isolated, bytes) {
        Ok(found) => found,
        Err(e) => return Err(e),
    };
    let (ops, rest) = match ops(alloc, scope, ctx, around, Mark::CloseCurly, rest, depth) {
        Ok(found) => found,
        Err(e) => return Err(e),
    };
    scope.names.leave();
    Ok((region_of(alloc, args, ops), rest))
}

/// Parses regions in parentheses, at most as many as an operation may have, or none.
#[cycle(op)]
#[tactic(auto, using(ir_types::proofs::Growth::grows_refl, ir_types::proofs::Growth::grows_trans), unfolding(crate::specs::OpReading::regions_at))]
fn regions<'a, O: Outer>(
    alloc: Global,
    scope: &mut Scope<'a>,
    ctx: &mut Context,
    around: &OuterScope<'_, O>,
    id: u32,
    isolated: bool,
    bytes: &'a [u8],
    depth: u32,
) -> Result<(Vec<TreeRegion>, &'a [u8]), ReadError>
    ensures reads { Returns (λ x. (map region_view x.0.items, state_of x.1.now scope.new ctx.new)) result (regions_at (ops_at CloseCurly (op_at (free_bound (O.types around.now.outer.now)) around.now.last depth) most_ops []) id isolated (state_of bytes.now scope.old ctx.old)) }
    ensures grows { IsExtendedBy ctx.old ctx.new }
{
    let mut items = Vec::new(alloc);
    let Some(rest) = after(bytes, Mark::OpenRound) else {
        return Ok((items, bytes));
    };
    let mut rest = rest;
    'items: for count in 0..MOST_REGIONS {
        let (item, tail) = match region(
            alloc, scope, ctx, around, id, count, isolated, rest, depth,
        ) {
            Ok(found) => found,
            Err(e) => return Err(e),
        };
        items.push(item)?;
        match after_item(tail, Mark::CloseRound) {
            Ok(AfterItem::More(more)) => rest = more,
            Ok(AfterItem::End(end)) => {
                items.shrink_to_fit();
                return Ok((items, end));
            }
            Err(e) => return Err(e),
        }
    }
    Err(ReadError::Refused(region_too_many(rest)))
}

/// Parses operations up to a closing mark.
#[cycle(op)]
#[tactic(auto, using(ir_types::proofs::Growth::grows_refl, ir_types::proofs::Growth::grows_trans))]
pub fn ops<'a, O: Outer>(
    alloc: Global,
    scope: &mut Scope<'a>,
    ctx: &mut Context,
    around: &OuterScope<'_, O>,
    close: Mark,
    bytes: &'a [u8],
    depth: u32,
) -> Result<(Vec<TreeOp>, &'a [u8]), ReadError>
    ensures reads { Returns (λ x. (x.0.items, state_of x.1.now scope.new ctx.new)) result (ops_at close (op_at (free_bound (O.types around.now.outer.now)) around.now.last depth) most_ops [] (state_of bytes.now scope.old ctx.old)) }
    ensures grows { IsExtendedBy ctx.old ctx.new }
{
    let mut items = Vec::new(alloc);
    let mut rest = bytes;
    'items: for _ in 0..MOST_OPS {
        if let Some(end) = after(rest, close) {
            items.shrink_to_fit();
            return Ok((items, end));
        }
        let (item, tail) = match op(alloc, scope, ctx, around, rest, depth) {
            Ok(found) => found,
            Err(e) => return Err(e),
        };
        items.push(item)?;
        rest = tail;
    }
    let fault = past_ops(alloc, close, rest)?;
    Err(ReadError::Refused(fault))
}

/// Parses an operation whose nested operations have at most `depth` levels.
#[cycle(op)]
#[tactic(auto, using(ir_types::proofs::Growth::grows_refl, ir_types::proofs::Growth::grows_trans))]
fn op_with<'a, O: Outer>(
    alloc: Global,
    scope: &mut Scope<'a>,
    ctx: &mut Context,
    around: &OuterScope<'_, O>,
    bytes: &'a [u8],
    depth: u32,
) -> Result<(TreeOp, &'a [u8]), ReadError>
    requires { scope.old.next < around.now.last }
    ensures reads { Returns (λ x. (x.0, state_of x.1.now scope.new ctx.new)) result (op_with (free_bound (O.types around.now.outer.now)) (ops_at CloseCurly (op_at (free_bound (O.types around.now.outer.now)) around.now.last depth) most_ops []) (state_of bytes.now scope.old ctx.old)) }
    ensures grows { IsExtendedBy ctx.old ctx.new }
{
    let id = scope.next;
    let spares = scope.spares.taken(alloc);
    let (opening, rest) = match read_opening(
        alloc,
        ctx,
        around.outer,
        &scope.names,
        spares,
        bytes,
    ) {
        Ok(found) => found,
        Err(e) => return Err(e),
    };
    scope.next = id + 1;
    let isolated = opening.isolated;
    let (regions, rest) = match regions(alloc, scope, ctx, around, id, isolated, rest, depth) {
        Ok(found) => found,
        Err(e) => return Err(e),
    };
    closing(alloc, scope, ctx, id, opening, regions, bytes, rest)
}

/// Parses an operation of at most `depth` levels, including its own.
#[cycle(op)]
#[tactic(auto, using(ir_types::proofs::Growth::grows_refl, ir_types::proofs::Growth::grows_trans))]
pub fn op<'a, O: Outer>(
    alloc: Global,
    scope: &mut Scope<'a>,
    ctx: &mut Context,
    around: &OuterScope<'_, O>,
    bytes: &'a [u8],
    depth: u32,
) -> Result<(TreeOp, &'a [u8]), ReadError>
    ensures reads { Returns (λ x. (x.0, state_of x.1.now scope.new ctx.new)) result (op_at (free_bound (O.types around.now.outer.now)) around.now.last depth (state_of bytes.now scope.old ctx.old)) }
    ensures grows { IsExtendedBy ctx.old ctx.new }
{
    if depth == 0 {
        return Err(error_at_name(alloc, TextRefusal::TooDeep, bytes));
    }
    if scope.next >= around.last {
        return Err(error_at_name(alloc, TextRefusal::TooMany, bytes));
    }
    op_with(alloc, scope, ctx, around, bytes, depth - 1)
}
