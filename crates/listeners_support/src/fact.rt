//! Facts about operations, and the facts that a table keeps.
ghost use Rattle.std.specs.Prelude.{◌≡◌, ◌≤◌, ◌+◌, [], ◌∷◌, List, Option, Bool, ℕ, IfOk, OnOk, OnErr, true, false};
ghost use Rattle.std.specs.Ordering.{nat_cmp};
ghost use Rattle.std.specs.BTreeMap.{get};
ghost use Rattle.ir_event.specs.types.Terms.{TypeTerm, AttrTerm, name_term};
ghost use Rattle.ir_event.specs.trees.Ids.{find, has_id};
ghost use Rattle.ir_event.specs.Modules.{module_in};
ghost use Rattle.ir_event.specs.declared.event.Event.TheVariants.{Put, Take};
ghost use Rattle.listeners_support.specs.Surroundings.{SurroundingsOf};
ghost use Rattle.listeners_support.specs.Near.{near, somes, if_any, lasts_in};
ghost use Rattle.listeners_support.specs.Facts.{is_one_of, fact_of, if_kept, kept_of, Renewed, most_looks};
ghost use Rattle.listeners_support.specs.Gathered.{AroundIsOf, gathered_in, gather_looks, gathers_for, near_looks};
ghost use Rattle.listeners_support.specs.Gathered.{regions_found, tree_in};

use crate::gather::{around_of, gather, shown};
use crate::op_context::OpContext;
use ir_event::event::Event;
use ir_event::registry::registry::Registry;
use ir_event::trees::place::Place;
use ir_event::types::context::Context;
use ir_event::types::ids::{NameId, OpId};
use ir_event::view::View;
use std::alloc::{AllocError, Global};
use std::collections::BTreeMap;

/// A fact about an operation that depends only on its context.
pub trait LocalFact: Drop {
    /// The fact, as a function of the context.
    ghost fact: { SurroundingsOf (List ℕ) TypeTerm AttrTerm → Self };

    /// Whether a table keeps the fact. A fact without information needs no entry.
    ghost kept: { Self → Bool };

    /// Returns the fact about an operation, given its context.
    fn compute(ctx: &Context, registry: &Registry, around: &OpContext<'_>) -> Self
        requires { AroundIsOf ctx.now around.now }
        ensures { result ≡ fact (gathered_in ctx.now around.now) };

    /// Returns whether a table may keep a fact about an operation with that name, whatever its context is.
    fn concerns(ctx: &Context, name: NameId) -> bool
        ensures { result ≡ false → (s : SurroundingsOf (List ℕ) TypeTerm AttrTerm)
            → s.node.head.name ≡ name_term ctx.now name → kept (fact s) ≡ false };

    /// Returns whether a table keeps the fact.
    fn is_kept(&self) -> bool
        ensures { result ≡ kept self.now };
}

/// Returns the fact about an operation of the view's module, or `None` if the operation isn't there. Memory is needed
/// only if it is.
pub fn fact_at<F: LocalFact>(
    alloc: Global,
    view: &mut View<'_>,
    op: OpId,
) -> Result<Option<F>, AllocError>
    ensures fact { IfOk result (λ f. f ≡ fact_of F.fact (module_in view.old.world.now).tree op) }
    ensures refused { OnErr result (has_id op (tree_in view.old.world.now) ≡ true) }
    ensures looks { view.new.looks ≤ view.old.looks + gather_looks (find op (tree_in view.old.world.now)) }
    ensures world { view.new.world.now ≡ view.old.world.now }
{
    match gather(alloc, view, op)? {
        None => Ok(None),
        Some(around) => Ok(Some(F::compute(view.context(), view.registry(), &around))),
    }
}

/// Returns the fact about an operation of the view's module if a table keeps it.
fn kept_at<F: LocalFact>(
    alloc: Global,
    view: &mut View<'_>,
    op: OpId,
) -> Result<Option<F>, AllocError>
    ensures kept { IfOk result (λ f. f ≡ kept_of F.fact F.kept (module_in view.old.world.now).tree op) }
    ensures looks { view.new.looks ≤ view.old.looks + gather_looks (find op (tree_in view.old.world.now)) }
    ensures world { view.new.world.now ≡ view.old.world.now }
{
    let Some(node) = shown(view, op) else {
        return Ok(None);
    };
    if !F::concerns(view.context(), node.name()) {
        return Ok(None);
    }
    let around = around_of(alloc, view, op, node)?;
    Ok(if_kept(F::compute(view.context(), view.registry(), &around)))
}

/// Returns the fact if a table keeps it.
fn if_kept<F: LocalFact>(fact: F) -> Option<F>
    ensures { result ≡ if_kept F.kept fact }
{
    if fact.is_kept() { Some(fact) } else { None }
}

/// Updates the entry of an operation to the fact in the view's module.
pub(crate) fn renew<F: LocalFact>(
    alloc: Global,
    table: &mut BTreeMap<u32, F>,
    view: &mut View<'_>,
    op: OpId,
) -> Result<(), AllocError>
    ensures renewed { OnOk result
        (Renewed (kept_of F.fact F.kept (module_in view.old.world.now).tree) (op ∷ []) (get nat_cmp table.old)
        (get nat_cmp table.new)) }
    ensures looks { view.new.looks ≤ view.old.looks + gather_looks (find op (tree_in view.old.world.now)) }
    ensures world { view.new.world.now ≡ view.old.world.now }
{
    match kept_at::<F>(alloc, view, op)? {
        Some(fact) => {
            table.insert(op.number(), fact)?;
        }
        None => {
            table.remove(&op.number());
        }
    }
    Ok(())
}

/// Updates the entry of an operation, if there is an operation, unless it is in the list of operations that are updated
/// later.
fn renew_first<F: LocalFact>(
    alloc: Global,
    table: &mut BTreeMap<u32, F>,
    view: &mut View<'_>,
    op: &Option<OpId>,
    later: &[Option<OpId>],
) -> Result<(), AllocError>
    ensures renewed { OnOk result
        ((final : ℕ → Option F) → Renewed (kept_of F.fact F.kept (module_in view.old.world.now).tree) (somes later.now)
        (get nat_cmp table.new) final
        → Renewed (kept_of F.fact F.kept (module_in view.old.world.now).tree) (if_any op.now (somes later.now))
        (get nat_cmp table.old) final) }
    ensures looks { view.new.looks + gathers_for (tree_in view.old.world.now) (somes later.now)
        ≤ view.old.looks + gathers_for (tree_in view.old.world.now) (if_any op.now (somes later.now)) }
    ensures world { view.new.world.now ≡ view.old.world.now }
{
    let Some(op) = op else {
        return Ok(());
    };
    if is_one_of(*op, later) {
        return Ok(());
    }
    renew(alloc, table, view, *op)
}

/// Returns whether an operation is in a list.
fn is_one_of(op: OpId, ops: &[Option<OpId>]) -> bool
    ensures { result ≡ is_one_of op (somes ops.now) }
{
    let mut rest = ops;
    while let [one, more @ ..] = rest {
        if is_it(one, op) {
            return true;
        }
        rest = more;
    }
    false
}

fn is_it(one: &Option<OpId>, op: OpId) -> bool
    ensures { result ≡ is_one_of op (if_any one.now []) }
{
    match one {
        None => false,
        Some(one) => *one == op,
    }
}

/// Updates the entries of operations to the facts in the view's module.
fn renew_each<F: LocalFact>(
    alloc: Global,
    table: &mut BTreeMap<u32, F>,
    view: &mut View<'_>,
    ops: &[Option<OpId>],
) -> Result<(), AllocError>
    ensures renewed { OnOk result
        (Renewed (kept_of F.fact F.kept (module_in view.old.world.now).tree) (somes ops.now) (get nat_cmp table.old)
        (get nat_cmp table.new)) }
    ensures looks { view.new.looks ≤ view.old.looks + gathers_for (tree_in view.old.world.now) (somes ops.now) }
    ensures world { view.new.world.now ≡ view.old.world.now }
{
    for place in 0..ops.len() {
        renew_first(alloc, table, view, &ops[place], &ops[place + 1..])?;
    }
    Ok(())
}

/// Returns the number of regions of an operation of the module.
fn region_count(view: &mut View<'_>, op: OpId) -> usize
    ensures count { result ≡ regions_found (find op (tree_in view.old.world.now)) }
    ensures few { result ≤ 16 }
    ensures looks { view.new.looks ≤ view.old.looks + 2 }
    ensures world { view.new.world.now ≡ view.old.world.now }
{
    if !view.in_tree(op) {
        return 0;
    }
    match view.node(op) {
        None => 0,
        Some(node) => node.region_count(),
    }
}

/// Returns an operation and the last operation of each of its blocks.
fn lasts(alloc: Global, view: &mut View<'_>, op: OpId) -> Result<Vec<Option<OpId>>, AllocError>
    ensures ops { IfOk result (λ v. somes v.items ≡ op ∷ lasts_in op (tree_in view.old.world.now)) }
    ensures looks { view.new.looks ≤ view.old.looks + (2 + regions_found (find op (tree_in view.old.world.now))) }
    ensures world { view.new.world.now ≡ view.old.world.now }
{
    let mut ops = Vec::new(alloc);
    ops.push(Some(op))?;
    let count = region_count(view, op);
    for region in 0..count {
        let last = view.last(op, region as u32);
        ops.push(last)?;
    }
    Ok(ops)
}

/// Returns the operations near an event that inserted an operation at a place.
fn near_put(
    alloc: Global,
    view: &mut View<'_>,
    op: OpId,
    place: &Place,
) -> Result<Vec<Option<OpId>>, AllocError>
    ensures ops { IfOk result (λ v. (fresh : Bool)
        → somes v.items ≡ near (Put op place.now fresh) (tree_in view.old.world.now)) }
    ensures looks { view.new.looks ≤ view.old.looks + 1 }
    ensures world { view.new.world.now ≡ view.old.world.now }
{
    match place.before {
        Some(_) => [Some(op)].to_vec(alloc),
        None => {
            let preceding = view.prev(op);
            [Some(op), Some(place.parent), preceding].to_vec(alloc)
        }
    }
}

/// Returns the operations near an event that removed an operation from a place.
fn near_take(
    alloc: Global,
    view: &mut View<'_>,
    op: OpId,
    place: &Place,
) -> Result<Vec<Option<OpId>>, AllocError>
    ensures ops { IfOk result (λ v. (fresh : Bool)
        → somes v.items ≡ near (Take op place.now fresh) (tree_in view.old.world.now)) }
    ensures looks { view.new.looks ≤ view.old.looks + 1 }
    ensures world { view.new.world.now ≡ view.old.world.now }
{
    match place.before {
        Some(_) => [Some(op)].to_vec(alloc),
        None => {
            let last = view.last(place.parent, place.region);
            [Some(op), Some(place.parent), last].to_vec(alloc)
        }
    }
}

/// Returns the operations near an event, given the view of the module after it.
fn near_ops(
    alloc: Global,
    view: &mut View<'_>,
    event: &Event,
) -> Result<Vec<Option<OpId>>, AllocError>
    ensures ops { IfOk result (λ v. somes v.items ≡ near event.now (tree_in view.old.world.now)) }
    ensures looks { view.new.looks ≤ view.old.looks + near_looks event.now (tree_in view.old.world.now) }
    ensures world { view.new.world.now ≡ view.old.world.now }
{
    match event {
        Event::Put { op, place, .. } => near_put(alloc, view, *op, place),
        Event::Take { op, place, .. } => near_take(alloc, view, *op, place),
        Event::SetOperand { op, .. } => lasts(alloc, view, *op),
        Event::SetEntry { op, .. } => lasts(alloc, view, *op),
        Event::Shift { op, old, new } => {
            let last = view.last(old.parent, old.region);
            let preceding = view.prev(*op);
            [
                Some(*op),
                Some(old.parent),
                Some(new.parent),
                last,
                preceding,
            ]
            .to_vec(alloc)
        }
    }
}

/// Updates the entries of all operations near an event to the facts in the view's module, which is the module after the
/// event.
pub fn follow<F: LocalFact>(
    alloc: Global,
    table: &mut BTreeMap<u32, F>,
    view: &mut View<'_>,
    event: &Event,
) -> Result<(), AllocError>
    ensures renewed { OnOk result
        (Renewed (kept_of F.fact F.kept (module_in view.old.world.now).tree)
        (near event.now (module_in view.old.world.now).tree) (get nat_cmp table.old) (get nat_cmp table.new)) }
    ensures looks { view.new.looks ≤ view.old.looks + most_looks event.now (module_in view.old.world.now).tree }
    ensures world { view.new.world.now ≡ view.old.world.now }
{
    let ops = near_ops(alloc, view, event)?;
    renew_each(alloc, table, view, &ops)
}
