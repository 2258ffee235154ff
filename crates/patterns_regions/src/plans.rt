//! Plans of the rules on branches with a known condition, and on loops that run once or never.
ghost use Rattle.std.specs.Prelude.{◌≡◌, ◌∷◌, ◌++◌, [], IfOk, IfSome, is_some, option_map};
ghost use Rattle.std.specs.Result.{result_ok};
ghost use Rattle.patterns_plans.specs.reads.rules.Edits.{Erase};
ghost use Rattle.patterns_plans.specs.reads.Makes.{replacing, results_from};
ghost use Rattle.ir_event.specs.types.Things.{ContextModel};
ghost use Rattle.ir_event.specs.Modules.{module_in};
ghost use Rattle.patterns_plans.specs.reads.Lists.{AllFit, edits_meaning};
ghost use Rattle.patterns_plans.specs.reads.Plans.{PlanIsOf, plan_meaning};
ghost use Rattle.patterns_plans.specs.reads.Rule.TheVariants.{OpenBranch, OpenLoop, StopLoop};
ghost use Rattle.patterns_regions.specs.Answers.{HasReasonAt, several_reason};
ghost use Rattle.patterns_regions.specs.Blocks.{body_at};
ghost use Rattle.patterns_regions.specs.RegionRules.{chosen_at, opened_at, open_branch_at, open_loop_at, stop_loop_at};

use crate::block::{body_of, has_block, has_body, node_at};
use crate::inlined::opened;
use crate::trip_count::{TripCount, known_times};
use ir_event::trees::place::Place;
use ir_event::trees::value::Value;
use ir_event::types::ids::OpId;
use ir_event::types::word::Word;
use ir_event::world::World;
use patterns_plans::base::edit::Edit;
use patterns_plans::reads::constants::{constant_value, is_number};
use patterns_plans::reads::plan::RewritePlan;
use patterns_plans::reason::Reason;
use std::alloc::{AllocError, Global};

/// Returns the plan that inlines a block, with values for its arguments, or `None` unless the block's last operation
/// is verified.
fn open_block(
    alloc: Global,
    world: &World,
    point: &Place,
    op: OpId,
    region: u32,
    values: &[Value],
) -> Result<Option<RewritePlan>, AllocError>
    ensures edits { IfOk result (λ p. option_map (plan_meaning world.now.ctx (module_in world.now).next op point.now) p
        ≡ opened_at op region (module_in world.now).tree point.now values.now) }
    ensures of { IfOk result (λ p. IfSome p (PlanIsOf world.now.ctx)) }
{
    let Some(body) = body_of(alloc, world, op, region)? else {
        return Ok(None);
    };
    let edits = opened(alloc, op, point, &body.before, values, body.node.operands())?;
    Ok(Some(RewritePlan::Edits(edits)))
}

/// Returns the plan that inlines the block of a region, or erases the operation if the region has no block.
fn choose(
    alloc: Global,
    world: &World,
    point: &Place,
    op: OpId,
    region: u32,
) -> Result<Option<RewritePlan>, AllocError>
    ensures edits { IfOk result (λ p. option_map (plan_meaning world.now.ctx (module_in world.now).next op point.now) p
        ≡ chosen_at op region (module_in world.now).tree point.now) }
    ensures of { IfOk result (λ p. IfSome p (PlanIsOf world.now.ctx)) }
{
    let Some(node) = node_at(world, op) else {
        return Ok(None);
    };
    let Some(block) = has_block(&node, region) else {
        return Ok(None);
    };
    if block {
        return open_block(alloc, world, point, op, region, &[]);
    }
    let mut edits = Vec::new(alloc);
    edits.push(Edit::Erase { op })?;
    Ok(Some(RewritePlan::Edits(edits)))
}

/// Plans `open-branch`: an `scf.if` with a known condition becomes the chosen block.
pub(crate) fn plan_open_branch(
    alloc: Global,
    world: &World,
    point: &Place,
    op: OpId,
) -> Result<Result<RewritePlan, Reason>, AllocError>
    ensures edits { IfOk result (λ a. option_map (plan_meaning world.now.ctx (module_in world.now).next op point.now)
        (result_ok a) ≡ open_branch_at op (module_in world.now).tree point.now) }
    ensures reason { IfOk result (HasReasonAt OpenBranch world.now op) }
    ensures of { IfOk result (λ a. IfOk a (PlanIsOf world.now.ctx)) }
{
    let Some(node) = node_at(world, op) else {
        return Ok(Err(Reason::WrongOperation));
    };
    if !world.ctx.is_word(node.name(), Word::ScfIf) {
        return Ok(Err(Reason::WrongOperation));
    }
    let [condition] = node.operands() else {
        return Ok(Err(Reason::WrongOperation));
    };
    let Some(bits) = constant_value(alloc, world, condition)? else {
        return Ok(Err(Reason::FirstNotConstant));
    };
    let region = if bits.value == 0 { 1 } else { 0 };
    match choose(alloc, world, point, op, region)? {
        Some(plan) => Ok(Ok(plan)),
        None => Ok(Err(Reason::BlockNotVerified)),
    }
}

/// Returns the plan of a loop that runs once: its block, with the lower bound and the initial values as arguments.
fn go_once(
    alloc: Global,
    world: &World,
    point: &Place,
    op: OpId,
    lower: &Value,
    inits: &[Value],
) -> Result<Option<RewritePlan>, AllocError>
    ensures edits { IfOk result (λ p. option_map (plan_meaning world.now.ctx (module_in world.now).next op point.now) p
        ≡ opened_at op 0 (module_in world.now).tree point.now (lower.now ∷ inits.now)) }
    ensures of { IfOk result (λ p. IfSome p (PlanIsOf world.now.ctx)) }
{
    let mut values = Vec::with_capacity(alloc, inits.len() + 1)?;
    values.push(*lower)?;
    values.extend_from_slice(inits)?;
    open_block(alloc, world, point, op, 0, &values)
}

/// Returns the plan of a loop that never runs: its initial values replace its results.
fn go_never(
    alloc: Global,
    point: &Place,
    op: OpId,
    inits: &[Value],
) -> Result<Vec<Edit>, AllocError>
    ensures edits { IfOk result (λ es. (c : ContextModel)
        → edits_meaning c es.items ≡ replacing (results_from op 0 inits.now) inits.now ++ Erase op ∷ []) }
    ensures fits_in { IfOk result (λ es. (c : ContextModel) → AllFit c es.items) }
{
    opened(alloc, op, point, &[], &[], inits)
}

/// Returns why a loop with known bounds and a known step isn't inlined: its block isn't verified, or it runs more than
/// once.
fn several_reason(alloc: Global, world: &World, op: OpId) -> Result<Reason, AllocError>
    ensures { IfOk result (λ c. c ≡ several_reason (is_some (body_at op 0 (module_in world.now).tree))) }
{
    if has_body(alloc, world, op, 0)? {
        return Ok(Reason::RunsAgain);
    }
    Ok(Reason::BlockNotVerified)
}

/// Plans `open-loop`: a loop that runs once or never, by its known bounds.
pub(crate) fn plan_open_loop(
    alloc: Global,
    world: &World,
    point: &Place,
    op: OpId,
) -> Result<Result<RewritePlan, Reason>, AllocError>
    ensures edits { IfOk result (λ a. option_map (plan_meaning world.now.ctx (module_in world.now).next op point.now)
        (result_ok a) ≡ open_loop_at op (module_in world.now).tree point.now) }
    ensures reason { IfOk result (HasReasonAt OpenLoop world.now op) }
    ensures of { IfOk result (λ a. IfOk a (PlanIsOf world.now.ctx)) }
{
    let Some(node) = node_at(world, op) else {
        return Ok(Err(Reason::WrongOperation));
    };
    if !world.ctx.is_word(node.name(), Word::ScfFor) {
        return Ok(Err(Reason::WrongOperation));
    }
    let [lower, upper, step, inits @ ..] = node.operands() else {
        return Ok(Err(Reason::WrongOperation));
    };
    let Some(times) = known_times(alloc, world, lower, upper, step)? else {
        return Ok(Err(Reason::BoundNotConstant));
    };
    match times {
        TripCount::Zero => Ok(Ok(RewritePlan::Edits(go_never(alloc, point, op, inits)?))),
        TripCount::One => match go_once(alloc, world, point, op, lower, inits)? {
            Some(plan) => Ok(Ok(plan)),
            None => Ok(Err(Reason::BlockNotVerified)),
        },
        TripCount::Several => Ok(Err(several_reason(alloc, world, op)?)),
    }
}

/// Plans `stop-loop`: a while loop whose condition is known to be false becomes its first block. The condition's
/// operands replace the results.
pub(crate) fn plan_stop_loop(
    alloc: Global,
    world: &World,
    point: &Place,
    op: OpId,
) -> Result<Result<RewritePlan, Reason>, AllocError>
    ensures edits { IfOk result (λ a. option_map (plan_meaning world.now.ctx (module_in world.now).next op point.now)
        (result_ok a) ≡ stop_loop_at op (module_in world.now).tree point.now) }
    ensures reason { IfOk result (HasReasonAt StopLoop world.now op) }
    ensures of { IfOk result (λ a. IfOk a (PlanIsOf world.now.ctx)) }
{
    let Some(node) = node_at(world, op) else {
        return Ok(Err(Reason::WrongOperation));
    };
    if !world.ctx.is_word(node.name(), Word::ScfWhile) {
        return Ok(Err(Reason::WrongOperation));
    }
    let Some(body) = body_of(alloc, world, op, 0)? else {
        return Ok(Err(Reason::BlockNotVerified));
    };
    let [condition, handed @ ..] = body.node.operands() else {
        return Ok(Err(Reason::ConditionNotFalse));
    };
    if !is_number(alloc, world, 0, condition)? {
        return Ok(Err(Reason::ConditionNotFalse));
    }
    let edits = opened(alloc, op, point, &body.before, node.operands(), handed)?;
    Ok(Ok(RewritePlan::Edits(edits)))
}
