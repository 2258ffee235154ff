//! Worlds and benches of the modules that texts spell, and the texts of worlds.
ghost use Rattle.std.specs.Prelude.{◌≡◌, ◌<◌, [], IsTrue, IfOk, OnOk};
ghost use Rattle.std.specs.List.{All};
ghost use Rattle.ir_event.specs.trees.Ids.{HasDistinctIds, ids};
ghost use Rattle.ir_event.specs.trees.Meaning.{IsSoundIn};

use dialects_int::tables::registry;
use ir_event::analysis::Analysis;
use ir_event::trees::count::op_count;
use ir_event::trees::find::list_ids;
use ir_event::trees::numbered::distinct;
use ir_event::trees::tree::TreeOp;
use ir_event::types::context::Context;
use ir_event::types::refusal::Refusal;
use ir_event::world::World;
use ir_text::printer::print;
use ir_text::reader::read_new;
use rewriter::Bench;
use std::alloc::{AllocError, Global};

/// Whether the ids of a tree are below a number.
fn are_below(alloc: Global, tree: &TreeOp, next: u32) -> Result<bool, AllocError>
    ensures { IfOk result (λ b. IsTrue b → All (λ x. x < next) (ids tree.now)) }
{
    let ids = list_ids(alloc, tree)?;
    Ok(ids.iter().all(|id| id.number() < next))
}

/// Whether no two operations of a tree have one id, and their ids are below a number.
fn is_numbered(alloc: Global, tree: &TreeOp, next: u32) -> Result<bool, Refusal>
    ensures distinct { IfOk result (λ b. IsTrue b → HasDistinctIds tree.now) }
    ensures below { IfOk result (λ b. IsTrue b → All (λ x. x < next) (ids tree.now)) }
{
    if !distinct(alloc, tree)? {
        return Ok(false);
    }
    let below = are_below(alloc, tree, next)?;
    Ok(below)
}

/// The next free id of a tree that was read.
fn next_of(tree: &TreeOp) -> u32 {
    u32::try_from(op_count(tree)).unwrap_or(u32::MAX)
}

/// Returns the next free id of a tree that was read, or a greater one. Refuses with `BadToken` if the ids aren't
/// distinct and below it.
fn checked_next(alloc: Global, tree: &TreeOp, least: u32) -> Result<u32, Refusal>
    ensures distinct { OnOk result (HasDistinctIds tree.now) }
    ensures below { IfOk result (λ n. All (λ x. x < n) (ids tree.now)) }
{
    let next = next_of(tree).max(least);
    if !is_numbered(alloc, tree, next)? {
        return Err(Refusal::BadToken);
    }
    Ok(next)
}

/// Returns a rewriter over a tree.
fn rewriter_over<L: Analysis>(
    alloc: Global,
    ctx: Context,
    tree: &TreeOp,
    next: u32,
) -> Result<Bench<L>, Refusal>
    requires sound { IsSoundIn ctx tree.now }
    requires distinct { HasDistinctIds tree.now }
    requires below { All (λ x. x < next) (ids tree.now) }
    ensures { IfOk result (λ b. b.listeners ≡ []) }
{
    let registry = registry(&ctx)?;
    Bench::new(alloc, ctx, registry, tree, next)
}

/// Returns a rewriter over the module that a text spells, whose next free id is at least a number. Refuses with
/// `BadToken` if the text spells none.
pub fn rewriter_from<L: Analysis>(
    alloc: Global,
    text: &[u8],
    least: u32,
) -> Result<Bench<L>, Refusal>
    ensures { IfOk result (λ b. b.listeners ≡ []) }
{
    let Ok((ctx, tree)) = read_new(alloc, 7, false, text) else {
        return Err(Refusal::BadToken);
    };
    let next = checked_next(alloc, &tree, least)?;
    rewriter_over(alloc, ctx, &tree, next)
}

/// The text of a world's module.
pub fn text_of(alloc: Global, world: &World) -> Result<Vec<u8>, Refusal> {
    let Ok(tree) = world.store.tree() else {
        return Err(Refusal::Memory);
    };
    print(alloc, &world.ctx, &tree)
}
