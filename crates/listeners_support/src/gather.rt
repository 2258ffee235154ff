//! Gathers the context of an operation from a view.
ghost use Rattle.std.specs.Prelude.{◌≡◌, ◌≤◌, ◌<◌, ◌+◌, ◌*◌, ◌^◌, true, Some, None, IfOk, OnErr, IfSome, length, map};
ghost use Rattle.std.specs.Prelude.{option_map, option_and_then};
ghost use Rattle.std.specs.List.{All};
ghost use Rattle.ir_event.specs.types.Things.{IsType};
ghost use Rattle.ir_event.specs.trees.Ids.{find, has_id};
ghost use Rattle.ir_event.specs.store.Nodes.{node_of};
ghost use Rattle.ir_event.specs.store.Stored.{known};
ghost use Rattle.ir_event.specs.tree_laws.Values.{type_of_value, has_value};
ghost use Rattle.ir_event.specs.Modules.{NodeIsOf};
ghost use Rattle.listeners_support.specs.Surroundings.{surroundings};
ghost use Rattle.listeners_support.specs.Gathered.{AroundIsOf, gathered, outer_in, tree_in, last_name_at, from_on};
ghost use Rattle.listeners_support.specs.Gathered.{outer_at, gather_looks};
ghost use Rattle.listeners_support.specs.declared.op_context.ParentContext.{ParentContext as GatheredOuter};

use crate::op_context::{OpContext, ParentContext};
use ir_event::store::node::Node;
use ir_event::trees::value::Value;
use ir_event::types::ids::{NameId, OpId, TypeId};
use ir_event::view::View;
use std::alloc::{AllocError, Global};

/// Returns the context of an operation of the view's module, or `None` if the operation isn't there. Memory is needed
/// only if it is.
pub fn gather<'a>(
    alloc: Global,
    view: &mut View<'a>,
    op: OpId,
) -> Result<Option<OpContext<'a>>, AllocError>
    ensures around { IfOk result (λ r. option_map gathered r ≡ surroundings op (tree_in view.old.world.now)) }
    ensures known { IfOk result (λ r. IfSome r (λ a. AroundIsOf view.old.world.now.ctx a)) }
    ensures refused { OnErr result (has_id op (tree_in view.old.world.now) ≡ true) }
    ensures looks { view.new.looks ≤ view.old.looks + gather_looks (find op (tree_in view.old.world.now)) }
    ensures world { view.new.world.now ≡ view.old.world.now }
{
    let Some(node) = shown(view, op) else {
        return Ok(None);
    };
    let around = around_of(alloc, view, op, node)?;
    Ok(Some(around))
}

/// Returns an operation of the view's module, or `None` if it isn't there.
pub(crate) fn shown<'a>(view: &mut View<'a>, op: OpId) -> Option<Node<'a>>
    ensures there { IfSome result (λ _. has_id op (tree_in view.old.world.now) ≡ true) }
    ensures shown { IfSome result (λ n. option_map node_of (known op view.old.world.now.store) ≡ Some n) }
    ensures none { result ≡ None → find op (tree_in view.old.world.now) ≡ None }
    ensures looks { view.new.looks ≤ view.old.looks + 2 }
    ensures absent { result ≡ None → view.new.looks ≤ view.old.looks + 1 }
    ensures world { view.new.world.now ≡ view.old.world.now }
{
    if !view.in_tree(op) {
        return None;
    }
    let Some(node) = view.node(op) else {
        return None;
    };
    Some(node)
}

/// Returns the context of an operation that the view shows.
pub(crate) fn around_of<'a>(
    alloc: Global,
    view: &mut View<'a>,
    op: OpId,
    node: Node<'a>,
) -> Result<OpContext<'a>, AllocError>
    requires there { has_id op (tree_in view.old.world.now) ≡ true }
    requires shown { option_map node_of (known op view.old.world.now.store) ≡ Some node }
    ensures around { IfOk result (λ a. Some (gathered a) ≡ surroundings op (tree_in view.old.world.now)) }
    ensures known { IfOk result (λ a. AroundIsOf view.old.world.now.ctx a) }
    ensures looks { view.new.looks + 2 ≤ view.old.looks + gather_looks (find op (tree_in view.old.world.now)) }
    ensures world { view.new.world.now ≡ view.old.world.now }
{
    let types = types_of(alloc, view, node.operands())?;
    let lasts = lasts_of(alloc, view, op, node.region_count())?;
    let outer = outer_of(view, op);
    Ok(OpContext {
        node,
        types,
        lasts,
        outer,
    })
}

/// Returns the types of an operation's operands.
fn types_of(alloc: Global, view: &mut View<'_>, values: &[Value]) -> Result<Vec<TypeId>, AllocError>
    requires { All (λ v. has_value v (tree_in view.old.world.now) ≡ true) values.now }
    ensures types { IfOk result
        (λ v. map Some v.items ≡ map (λ x. type_of_value x (tree_in view.old.world.now)) values.now) }
    ensures known { IfOk result (λ v. All (λ t. IsType view.old.world.now.ctx t) v.items) }
    ensures looks { view.new.looks ≤ view.old.looks + length values.now }
    ensures world { view.new.world.now ≡ view.old.world.now }
{
    let mut types = Vec::with_capacity(alloc, values.len())?;
    for value in values {
        types.push(type_of(view, value))?;
    }
    Ok(types)
}

/// Returns the type of a value of the module.
fn type_of(view: &mut View<'_>, value: &Value) -> TypeId
    requires { has_value value.now (tree_in view.old.world.now) ≡ true }
    ensures ty { type_of_value value.now (tree_in view.old.world.now) ≡ Some result }
    ensures known { IsType view.old.world.now.ctx result }
    ensures looks { view.new.looks ≤ view.old.looks + 1 }
    ensures world { view.new.world.now ≡ view.old.world.now }
{
    match view.value_type(*value) {
        Some(ty) => ty,
        None => unreachable!(),
    }
}

/// Returns, for each region of an operation, the name of the last operation in its block.
fn lasts_of(
    alloc: Global,
    view: &mut View<'_>,
    op: OpId,
    regions: usize,
) -> Result<Vec<Option<NameId>>, AllocError>
    requires { regions < 2 ^ 32 }
    ensures lasts { IfOk result (λ v. v.items ≡ from_on (last_name_at op (tree_in view.old.world.now)) 0 regions) }
    ensures looks { view.new.looks ≤ view.old.looks + 2 * regions }
    ensures world { view.new.world.now ≡ view.old.world.now }
{
    let mut lasts = Vec::with_capacity(alloc, regions)?;
    for region in 0..regions {
        let name = last_name(view, op, region as u32);
        lasts.push(name)?;
    }
    Ok(lasts)
}

/// Returns the name of the last operation in the block of a region.
fn last_name(view: &mut View<'_>, op: OpId, region: u32) -> Option<NameId>
    ensures name { result ≡ last_name_at op (tree_in view.old.world.now) region }
    ensures looks { view.new.looks ≤ view.old.looks + 2 }
    ensures world { view.new.world.now ≡ view.old.world.now }
{
    let last = view.last(op, region)?;
    let node = view.node(last)?;
    Some(node.name())
}

/// Returns the part of an operation's context that is about its parent.
fn outer_of<'a>(view: &mut View<'a>, op: OpId) -> Option<ParentContext<'a>>
    ensures outer { option_map outer_in result ≡ outer_at op (tree_in view.old.world.now) }
    ensures known { IfSome (option_and_then (λ (o : GatheredOuter). o.ended) result) (NodeIsOf view.old.world.now.ctx) }
    ensures looks { view.new.looks ≤ view.old.looks + 3 }
    ensures world { view.new.world.now ≡ view.old.world.now }
{
    let parent = view.parent(op)?;
    let node = view.node(parent)?;
    let name = node.name();
    match view.next(op) {
        Some(_) => Some(ParentContext { name, ended: None }),
        None => Some(ParentContext {
            name,
            ended: Some(node),
        }),
    }
}
