//! The eligibility of an operation for rules.
ghost use Rattle.std.specs.Prelude.{◌≡◌, IfOk, Some, option_map};
ghost use Rattle.ir_event.specs.trees.Ids.{find};
ghost use Rattle.ir_event.specs.trees.Meaning.{Operation};
ghost use Rattle.ir_event.specs.store.Nodes.{node_of};
ghost use Rattle.patterns_base.specs.events.Modules.{NodeIsOf, module_in};
ghost use Rattle.patterns_base.specs.Looks.{Header};
ghost use Rattle.patterns_base.specs.Rewrites.{eligible};
ghost use Rattle.patterns_matchers.specs.Reads.{header_of_node};
ghost use Rattle.patterns_matchers.specs.Suited.{IsEligibilityOf, IsVerdictOf};

use crate::trivially_verified::is_trivially_verified_node;
use crate::verified::are_inherent;
use ir_event::store::node::Node;
use ir_event::types::ids::OpId;
use ir_event::types::refusal::Refusal;
use patterns_base::events::world::World;
use patterns_base::rule::Rule;
use patterns_base::verdict::{Verdict, verify_op};
use std::alloc::{AllocError, Global};

/// The rules for which an operation is eligible.
#[derive(Clone, Copy)]
pub enum Eligibility {
    /// The operation is verified, so it is eligible for every rule.
    Verified,
    /// The operation is in order but not verified, so it is eligible only for the rule that erases it.
    Erasable,
    /// The operation isn't even in order, so it is eligible for no rule.
    Ineligible,
}

impl Eligibility {
    /// Returns whether an operation with this eligibility is eligible for `rule`.
    pub fn allows(self, rule: Rule) -> bool
        ensures { (t : Operation) (h : Header) → IsEligibilityOf t h self → result ≡ eligible rule t h }
    {
        match self {
            Eligibility::Verified => true,
            Eligibility::Erasable => rule.is_erasing(),
            Eligibility::Ineligible => false,
        }
    }
}

/// Returns the verifier's verdict on an operation of the module. `node` is what the store shows of it. The verifier
/// runs only if the form of the operation doesn't already show that it breaks no rule.
fn verify_shown(
    alloc: Global,
    world: &World,
    op: OpId,
    node: &Node<'_>,
) -> Result<Verdict, AllocError>
    requires stored { Some node.now ≡ option_map node_of (find op world.now.store.module_of.tree) }
    requires of { NodeIsOf world.now.ctx node.now }
    ensures { IfOk result (IsVerdictOf op (module_in world.now).tree) }
{
    if is_trivially_verified_node(world, op, node) {
        return Ok(Verdict::Valid);
    }
    match verify_op(alloc, world, op) {
        Ok(verdict) => Ok(verdict),
        Err(_) => Err(AllocError),
    }
}

/// Returns the eligibility of an operation of the module. `node` is what the store shows of it.
#[tactic(auto, unfolding(crate::specs::Reads::header_of_node))]
pub fn eligibility_of(
    alloc: Global,
    world: &World,
    op: OpId,
    node: &Node<'_>,
) -> Result<Eligibility, AllocError>
    requires stored { Some node.now ≡ option_map node_of (find op world.now.store.module_of.tree) }
    requires of { NodeIsOf world.now.ctx node.now }
    ensures { IfOk result (IsEligibilityOf (module_in world.now).tree
        (record (header_of_node world.now.ctx node.now) { id = op })) }
{
    let verdict = verify_shown(alloc, world, op, node)?;
    if !are_inherent(&world.ctx, node.name(), node.properties()) {
        return Ok(Eligibility::Ineligible);
    }
    match verdict {
        Verdict::Valid => Ok(Eligibility::Verified),
        Verdict::Unlisted => Ok(Eligibility::Erasable),
        Verdict::Invalid => Ok(Eligibility::Ineligible),
    }
}
