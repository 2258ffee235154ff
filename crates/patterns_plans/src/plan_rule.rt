//! Plans each rule that reads only what the store shows of its operation.
ghost use Rattle.std.specs.Prelude.{◌≡◌, IfOk, Some, true};
ghost use Rattle.ir_event.specs.Modules.{NodeIsOf, module_in};
ghost use Rattle.patterns_matchers.specs.Reads.{head_at, header_of_node};
ghost use Rattle.patterns_matchers.specs.Plans.{PlanIsOf};
ghost use Rattle.patterns_plans.specs.Planned.{IsAnswerAt, reads_head};

use crate::casts::{plan_cast_back, plan_cut_cast, plan_extend_extension};
use crate::combined::{plan_add_negative, plan_regroup_constants};
use crate::constant::{
    plan_cancel_itself, plan_compare_itself, plan_compare_zero, plan_fold_to_constant,
    plan_zero_remainder,
};
use crate::expanded::{plan_expand_difference, plan_expand_min_max, plan_expand_remainder};
use crate::fold_to_operand::{
    plan_choose_known, plan_choose_same, plan_choose_truth, plan_drop_all_ones, plan_drop_one,
    plan_drop_zero, plan_keep_itself,
};
use crate::in_place::{plan_choose_opposite, plan_mirror_comparison, plan_swap_constant};
use crate::reason::Reason;
use ir_event::store::node::Node;
use ir_event::types::ids::OpId;
use ir_event::world::World;
use patterns_matchers::plan::RewritePlan;
use patterns_matchers::rule::Rule;
use std::alloc::{AllocError, Global};

/// Plans a rule that reads only the head of its operation, or returns the first of the rule's conditions that doesn't
/// hold. `node` is what the store shows of the operation. The caller has checked that the operation is verified and has
/// a place.
///
/// Errors: `AllocError` if memory runs out.
#[inline(always)]
pub fn plan_or_reason(
    alloc: Global,
    world: &World,
    rule: Rule,
    op: OpId,
    node: &Node<'_>,
) -> Result<Result<RewritePlan, Reason>, AllocError>
    requires rule { reads_head rule ≡ true }
    requires shown { Some (header_of_node world.now.ctx node.now) ≡ head_at op (module_in world.now).tree }
    requires of { NodeIsOf world.now.ctx node.now }
    ensures answer { IfOk result (IsAnswerAt rule world.now op node.now) }
    ensures fits_in { IfOk result (λ a. IfOk a (PlanIsOf world.now.ctx)) }
{
    match rule {
        Rule::FoldToConstant => plan_fold_to_constant(alloc, world, node),
        Rule::SwapConstant => plan_swap_constant(alloc, world, op, node),
        Rule::DropZero => plan_drop_zero(alloc, world, op, node),
        Rule::DropOne => plan_drop_one(alloc, world, op, node),
        Rule::DropAllOnes => plan_drop_all_ones(alloc, world, op, node),
        Rule::CancelItself => Ok(plan_cancel_itself(world, node)),
        Rule::KeepItself => Ok(plan_keep_itself(world, op, node)),
        Rule::ZeroRemainder => plan_zero_remainder(alloc, world, node),
        Rule::RegroupConstants => plan_regroup_constants(alloc, world, node),
        Rule::AddNegative => plan_add_negative(alloc, world, node),
        Rule::CompareItself => Ok(plan_compare_itself(world, node)),
        Rule::MirrorComparison => plan_mirror_comparison(alloc, world, node),
        Rule::CompareZero => plan_compare_zero(alloc, world, node),
        Rule::ChooseSame => Ok(plan_choose_same(world, op, node)),
        Rule::ChooseKnown => plan_choose_known(alloc, world, op, node),
        Rule::ChooseTruth => plan_choose_truth(alloc, world, op, node),
        Rule::ChooseOpposite => plan_choose_opposite(alloc, world, op, node),
        Rule::ExtendExtension => plan_extend_extension(alloc, world, node),
        Rule::CutCast => plan_cut_cast(alloc, world, op, node),
        Rule::CastBack => plan_cast_back(alloc, world, op, node),
        Rule::ExpandMinMax => plan_expand_min_max(alloc, world, node),
        Rule::ExpandDifference => plan_expand_difference(alloc, world, node),
        Rule::ExpandRemainder => plan_expand_remainder(alloc, world, node),
        Rule::EraseDead
        | Rule::OpenBranch
        | Rule::OpenLoop
        | Rule::StopLoop
        | Rule::LowerIndex
        | Rule::LowerLoop
        | Rule::LowerChoice => Ok(Err(Reason::WrongOperation)),
    }
}
