//! The rewrite plan of a pattern at an operation, with its insertion point.
ghost use Rattle.std.specs.Prelude.{◌≡◌, IfOk, is_none, is_some, option_map};
ghost use Rattle.std.specs.Result.{result_err, result_ok};
ghost use Rattle.ir_event.specs.types.Things.{ContextModel};
ghost use Rattle.ir_event.specs.Modules.{module_in};
ghost use Rattle.patterns_matchers.specs.Reads.{header_of_node};
ghost use Rattle.user_patterns_data.specs.Shapes.{pattern_model};
ghost use Rattle.user_patterns_apply.specs.Built.{BuiltIsOf};
ghost use Rattle.user_patterns_apply.specs.Mismatches.{user_pattern_mismatch, point_of, point_tests};
ghost use Rattle.user_patterns_apply.specs.Own.{is_one, user_pattern_edits};
ghost use Rattle.user_patterns_apply.specs.Planned.{planned_edits};

use crate::mismatch::Mismatch;
use crate::plan::plan;
use crate::rewrite_plan::BuildPlan;
use ir_event::store::node::Node;
use ir_event::trees::place::Place;
use ir_event::types::ids::OpId;
use ir_event::world::World;
use patterns_matchers::nodes::{insertion_point_before, op_node};
use std::alloc::{AllocError, Global};
use user_patterns_data::pattern::Pattern;

/// A rewrite plan, and the insertion point just before its operation.
#[derive(Drop)]
pub struct PlacedBuild {
    pub point: Place,
    pub built: BuildPlan,
}

/// Returns whether the operation has exactly one result.
fn is_single(node: &Node<'_>) -> bool
    ensures { (c : ContextModel) → result ≡ is_one (header_of_node c node.now).results }
{
    matches!(node.results(), [_])
}

/// Returns the insertion point just before `op`, if the operation has one result and isn't the root, or the test that
/// fails.
fn find_point(world: &World, op: OpId) -> Result<Place, Mismatch>
    ensures point { result_ok result ≡ point_of op (module_in world.now).tree }
    ensures tests { result_err result ≡ point_tests op (module_in world.now).tree }
{
    let Some(node) = op_node(world, op) else {
        return Err(Mismatch::Results);
    };
    if !is_single(&node) {
        return Err(Mismatch::Results);
    }
    match insertion_point_before(world, op) {
        Some(point) => Ok(point),
        None => Err(Mismatch::IsRoot),
    }
}

/// Returns the rewrite plan of the pattern at operation `op`, or the first test of the pattern that fails.
pub(crate) fn find_plan(
    alloc: Global,
    world: &World,
    pattern: &Pattern,
    op: OpId,
) -> Result<Result<PlacedBuild, Mismatch>, AllocError>
    ensures edits { IfOk result (λ p. option_map (planned_edits world.now.ctx (module_in world.now).next op) (result_ok p)
        ≡ user_pattern_edits (pattern_model pattern.now) (module_in world.now) op) }
    ensures tests { IfOk result (λ p. result_err p ≡ user_pattern_mismatch (pattern_model pattern.now) (module_in world.now) op) }
    ensures of { IfOk result (λ p. IfOk p (λ p. BuiltIsOf world.now.ctx p.built)) }
{
    let built = match plan(alloc, world, pattern, op)? {
        Ok(built) => built,
        Err(mismatch) => return Ok(Err(mismatch)),
    };
    match find_point(world, op) {
        Ok(point) => Ok(Ok(PlacedBuild { point, built })),
        Err(mismatch) => Ok(Err(mismatch)),
    }
}

/// Returns the first test of the pattern that fails at operation `op`, or `None` if the pattern applies there.
///
/// Errors: memory runs out.
pub fn find_mismatch(
    alloc: Global,
    world: &World,
    pattern: &Pattern,
    op: OpId,
) -> Result<Option<Mismatch>, AllocError>
    ensures tests { IfOk result (λ m. m ≡ user_pattern_mismatch (pattern_model pattern.now) (module_in world.now) op) }
    ensures applies { IfOk result (λ m. is_none m ≡ is_some (user_pattern_edits (pattern_model pattern.now) (module_in world.now) op)) }
{
    match find_plan(alloc, world, pattern, op)? {
        Ok(_) => Ok(None),
        Err(mismatch) => Ok(Some(mismatch)),
    }
}
