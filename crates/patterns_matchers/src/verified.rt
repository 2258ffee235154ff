//! Checks whether an operation breaks no rule of the verifier, and whether each of its properties is inherent to its
//! name.
ghost use Rattle.std.specs.Prelude.{◌≡◌, IfOk, Some, map, option_map};
ghost use Rattle.std.specs.List.{list_all};
ghost use Rattle.ir_event.specs.types.Words.{is_inherent};
ghost use Rattle.ir_event.specs.types.Terms.{AttrTerm, name_term, attr_term};
ghost use Rattle.ir_event.specs.trees.Ids.{find};
ghost use Rattle.ir_event.specs.store.Nodes.{node_of};
ghost use Rattle.patterns_base.specs.events.Modules.{NodeIsOf, module_in};
ghost use Rattle.dialects_int.specs.Folds.{entries_of};
ghost use Rattle.patterns_base.specs.Looks.{is_verified, breaks_none};
ghost use Rattle.patterns_base.specs.Diagnostics.{broken_at};
ghost use Rattle.patterns_matchers.specs.Reads.{header_of_node};
ghost use Rattle.std.specs.Prelude.{List, ℕ};

use crate::trivially_verified::{is_trivially_verified, is_trivially_verified_node};
use ir_event::store::node::Node;
use ir_event::types::context::Context;
use ir_event::types::ids::{AttrId, NameId, OpId};
use ir_event::types::refusal::Refusal;
use patterns_base::check::check_op;
use patterns_base::events::world::World;
use std::alloc::{AllocError, Global};

/// Returns whether the key of each entry is inherent to an operation name.
pub(crate) fn are_inherent(ctx: &Context, name: NameId, entries: &[(NameId, AttrId)]) -> bool
    ensures { result ≡ list_all (λ (e : List ℕ × AttrTerm). is_inherent (name_term ctx.now name) e.0)
        (entries_of ctx.now entries.now) }
{
    let mut rest = entries;
    'entries: while let [(key, _), tail @ ..] = rest {
        if !ctx.inherent(name, *key) {
            return false;
        }
        rest = tail;
    }
    true
}

/// Returns whether an operation of the module breaks no rule. It always runs the verifier.
fn obeys_all(alloc: Global, world: &World, op: OpId) -> Result<bool, AllocError>
    ensures { IfOk result (λ b. b ≡ breaks_none (broken_at op (module_in world.now).tree)) }
{
    match check_op(alloc, world, op) {
        Ok(rules) => Ok(rules.is_empty()),
        Err(_) => Err(AllocError),
    }
}

/// Returns whether an operation of the module breaks no rule.
fn breaks_no_rule(alloc: Global, world: &World, op: OpId) -> Result<bool, AllocError>
    ensures { IfOk result (λ b. b ≡ breaks_none (broken_at op (module_in world.now).tree)) }
{
    if is_trivially_verified(world, op) {
        return Ok(true);
    }
    obeys_all(alloc, world, op)
}

/// Returns the same as `breaks_no_rule`. `node` is what the store shows of the operation.
fn breaks_none_shown(
    alloc: Global,
    world: &World,
    op: OpId,
    node: &Node<'_>,
) -> Result<bool, AllocError>
    requires stored { Some node.now ≡ option_map node_of (find op world.now.store.module_of.tree) }
    requires of { NodeIsOf world.now.ctx node.now }
    ensures { IfOk result (λ b. b ≡ breaks_none (broken_at op (module_in world.now).tree)) }
{
    if is_trivially_verified_node(world, op, node) {
        return Ok(true);
    }
    obeys_all(alloc, world, op)
}

/// Returns whether an operation of the module is verified. `node` is what the store shows of it.
#[tactic(auto, unfolding(crate::specs::Reads::header_of_node))]
pub fn is_verified(
    alloc: Global,
    world: &World,
    op: OpId,
    node: &Node<'_>,
) -> Result<bool, AllocError>
    ensures { IfOk result (λ b. b ≡ is_verified (module_in world.now).tree
        (record (header_of_node world.now.ctx node.now) { id = op })) }
{
    if !breaks_no_rule(alloc, world, op)? {
        return Ok(false);
    }
    Ok(are_inherent(&world.ctx, node.name(), node.properties()))
}

/// Returns the same as `is_verified`. The caller knows that the store shows `node`, so it needn't be looked up.
#[tactic(auto, unfolding(crate::specs::Reads::header_of_node))]
pub fn is_verified_node(
    alloc: Global,
    world: &World,
    op: OpId,
    node: &Node<'_>,
) -> Result<bool, AllocError>
    requires stored { Some node.now ≡ option_map node_of (find op world.now.store.module_of.tree) }
    requires of { NodeIsOf world.now.ctx node.now }
    ensures { IfOk result (λ b. b ≡ is_verified (module_in world.now).tree
        (record (header_of_node world.now.ctx node.now) { id = op })) }
{
    if !breaks_none_shown(alloc, world, op, node)? {
        return Ok(false);
    }
    Ok(are_inherent(&world.ctx, node.name(), node.properties()))
}
