//! Erases casts that are unused or that collapse. Each step takes the first such cast in pre-order, until none is
//! left.
ghost use Rattle.std.specs.Prelude.{◌≡◌, ◌++◌, ◌∷◌, [], false, IfErr, IfOk, OnOk, eqb, nat_eq, option_map, slice_get};
ghost use Rattle.std.specs.Prelude.{true};
ghost use Rattle.std.specs.List.{IsDistinct};
ghost use Rattle.std.specs.HashMap.{get};
ghost use Rattle.ir_event.specs.types.declared.refusal.Refusal.TheVariants.{Memory as NoMemory};
ghost use Rattle.ir_event.specs.trees.Ids.{ids};
ghost use Rattle.conversion_base.specs.Conversion.{ended};
ghost use Rattle.conversion_base.specs.Listing.{HaveCasts, casts_among};
ghost use Rattle.conversion_base.specs.Reconciling.{all_collapsed, collapse, collapsed, next_collapse};
ghost use Rattle.conversion.specs.Waiting.{ArePlaces, Freed};
ghost use Rattle.conversion.specs.Walks.{Taken, Walked};
ghost use Rattle.conversion.specs.States.{AnswersAfter, Ends, FreedIf, Leads, Looked, none_of};

use crate::conversion_rewriter::ConversionRewriter;
use crate::fault::Fault;
use crate::places::places_of;
use crate::walk::{Worklist, pop, revisit_defining_ops, start};
use ir_event::types::ids::OpId;
use ir_event::types::refusal::Refusal;
use std::alloc::Global;
use std::collections::HashMap;

/// Returns the operation at index `place` of a list, or `None` if the index is out of range.
fn op_at(ops: &[OpId], place: usize) -> Option<OpId>
    ensures { result ≡ slice_get ops.now place }
{
    ops.get(place).copied()
}

/// Adds the defining operations of an erased cast's operands to the worklist again. Returns true.
fn freed(
    walk: &mut Worklist,
    places: &HashMap<u32, usize>,
    found_defining_ops: &Option<Vec<OpId>>,
) -> Result<bool, Refusal>
    ensures ok { IfOk result
        (λ done. (done ≡ true) × Freed (option_map (λ v. v.items) found_defining_ops.now)
        (get nat_eq places.now) walk.old.passed walk.old.again.keys walk.new.passed walk.new.again.keys) }
    ensures err { IfErr result (λ e. e ≡ NoMemory) }
{
    match revisit_defining_ops(walk, places, found_defining_ops) {
        Ok(()) => Ok(true),
        Err(_) => Err(Refusal::Memory),
    }
}

/// Erases `op` if it is a cast that is unused or that collapses, and puts the defining operations of its operands back
/// on the worklist. Returns whether it erased `op`.
fn collapse_op<B: ConversionRewriter>(
    alloc: Global,
    bench: &mut B,
    places: &HashMap<u32, usize>,
    walk: &mut Worklist,
    op: OpId,
    found_defining_ops: &Option<Vec<OpId>>,
) -> Result<bool, Refusal>
    ensures answers { AnswersAfter (collapse (B.state bench.old).held op) result (B.state bench.old)
        (B.state bench.new) }
    ensures freed { IfOk result
        (λ done. FreedIf done (option_map (λ v. v.items) found_defining_ops.now)
        (get nat_eq places.now) walk.old.passed walk.old.again.keys walk.new.passed walk.new.again.keys) }
    ensures leads { Leads B.state B.transaction B.led bench.old bench.new }
{
    match bench.collapse(alloc, op) {
        Ok(true) => freed(walk, places, found_defining_ops),
        Ok(false) => Ok(false),
        Err(refusal) => Err(refusal),
    }
}

/// Erases the operation at index `place` of a list if it is a cast that is unused or that collapses. Returns whether
/// it erased the operation.
fn collapse_at<B: ConversionRewriter>(
    alloc: Global,
    bench: &mut B,
    ops: &[OpId],
    places: &HashMap<u32, usize>,
    walk: &mut Worklist,
    place: usize,
) -> Result<bool, Refusal>
    requires places { ArePlaces ops.now (get nat_eq places.now) }
    requires listed { HaveCasts ops.now (B.state bench.old).held.tree }
    requires taken { Taken ops.now walk.old.passed walk.old.again.keys place (B.state bench.old).held }
    ensures looked { Looked (next_collapse (B.state bench.old).held) result (B.state bench.old) (B.state bench.new) }
    ensures walked { OnOk result (Walked ops.now walk.new.passed walk.new.again.keys (B.state bench.new).held) }
    ensures kept { IfOk result
        (λ done. done ≡ false → (walk.new.passed ≡ walk.old.passed) × (walk.new.again.keys ≡ walk.old.again.keys)) }
    ensures leads { Leads B.state B.transaction B.led bench.old bench.new }
{
    bench.is_whole();
    let Some(op) = op_at(ops, place) else {
        return Ok(false);
    };
    match bench.defining_ops(alloc, op) {
        Ok(found_defining_ops) => collapse_op(alloc, bench, places, walk, op, &found_defining_ops),
        Err(_) => Err(Refusal::Memory),
    }
}

/// Erases the first cast that is unused or that collapses. The list must hold all casts of the module, in pre-order,
/// and it still does after the call. Returns whether there was such a cast.
fn collapse_next<B: ConversionRewriter>(
    alloc: Global,
    bench: &mut B,
    ops: &[OpId],
    places: &HashMap<u32, usize>,
    walk: &mut Worklist,
) -> Result<bool, Refusal>
    requires places { ArePlaces ops.now (get nat_eq places.now) }
    requires listed { HaveCasts ops.now (B.state bench.old).held.tree }
    requires walked { Walked ops.now walk.old.passed walk.old.again.keys (B.state bench.old).held }
    ensures answers { AnswersAfter (next_collapse (B.state bench.old).held) result (B.state bench.old)
        (B.state bench.new) }
    ensures listed { OnOk result (HaveCasts ops.now (B.state bench.new).held.tree) }
    ensures walked { OnOk result (Walked ops.now walk.new.passed walk.new.again.keys (B.state bench.new).held) }
    ensures leads { Leads B.state B.transaction B.led bench.old bench.new }
{
    bench.is_whole();
    'places: while let Some(place) = pop(walk, ops.len()) {
        match collapse_at(alloc, bench, ops, places, walk, place) {
            Ok(true) => return Ok(true),
            Ok(false) => {}
            Err(refusal) => return Err(refusal),
        }
    }
    Ok(false)
}

/// Erases casts of a list until none is unused or collapses, and at most a number of them.
fn collapse_up_to<B: ConversionRewriter>(
    alloc: Global,
    bench: &mut B,
    ops: &[OpId],
    places: &HashMap<u32, usize>,
    walk: &mut Worklist,
    most: usize,
) -> Result<(), Fault>
    requires places { ArePlaces ops.now (get nat_eq places.now) }
    requires listed { HaveCasts ops.now (B.state bench.old).held.tree }
    requires walked { Walked ops.now walk.old.passed walk.old.again.keys (B.state bench.old).held }
    ensures ends { Ends (ended (collapsed most (B.state bench.old).held) (B.state bench.old).held) (none_of result)
        (B.state bench.new) }
    ensures leads { Leads B.state B.transaction B.led bench.old bench.new }
{
    let mut left = most;
    'casts: while left > 0 {
        match collapse_next(alloc, bench, ops, places, walk) {
            Ok(true) => {}
            Ok(false) => return Ok(()),
            Err(refusal) => return Err(Fault::without_op(refusal)),
        }
        left -= 1;
    }
    Ok(())
}

/// Erases casts of a list, in one walk over it, until none is unused or collapses, and at most a number of them.
fn collapse_casts<B: ConversionRewriter>(
    alloc: Global,
    bench: &mut B,
    casts: &[OpId],
    most: usize,
) -> Result<(), Fault>
    requires distinct { IsDistinct eqb casts.now }
    requires listed { HaveCasts casts.now (B.state bench.old).held.tree }
    ensures ends { Ends (ended (collapsed most (B.state bench.old).held) (B.state bench.old).held) (none_of result)
        (B.state bench.new) }
    ensures leads { Leads B.state B.transaction B.led bench.old bench.new }
{
    let Ok(places) = places_of(alloc, casts) else {
        return Err(Fault::without_op(Refusal::Memory));
    };
    let mut walk = start(alloc);
    collapse_up_to(alloc, bench, casts, &places, &mut walk, most)
}

/// Appends `op` to the list if it is a cast.
fn add_cast<B: ConversionRewriter>(
    bench: &B,
    casts: &mut Vec<OpId>,
    op: OpId,
) -> Result<(), Refusal>
    ensures { OnOk result (casts.new.items ≡ casts.old.items ++ casts_among (op ∷ []) (B.state bench.now).held.tree) }
{
    if !bench.is_cast(op) {
        return Ok(());
    }
    match casts.push(op) {
        Ok(()) => Ok(()),
        Err(_) => Err(Refusal::Memory),
    }
}

/// Returns the operations of a list that are casts.
fn casts_of<B: ConversionRewriter>(
    alloc: Global,
    bench: &B,
    ops: &[OpId],
) -> Result<Vec<OpId>, Refusal>
    ensures { IfOk result (λ v. v.items ≡ casts_among ops.now (B.state bench.now).held.tree) }
{
    let mut casts = Vec::new(alloc);
    let mut rest = ops;
    'ops: while let [op, tail @ ..] = rest {
        match add_cast(bench, &mut casts, *op) {
            Ok(()) => {}
            Err(refusal) => return Err(refusal),
        }
        rest = tail;
    }
    Ok(casts)
}

/// Erases casts until none is unused or collapses. The list must hold all operations in pre-order.
fn collapse_listed<B: ConversionRewriter>(
    alloc: Global,
    bench: &mut B,
    ops: &[OpId],
) -> Result<(), Fault>
    requires ops { ops.now ≡ ids (B.state bench.old).held.tree }
    ensures ends { Ends (ended (all_collapsed (B.state bench.old).held) (B.state bench.old).held) (none_of result)
        (B.state bench.new) }
    ensures leads { Leads B.state B.transaction B.led bench.old bench.new }
{
    bench.is_whole();
    match casts_of(alloc, bench, ops) {
        Ok(casts) => collapse_casts(alloc, bench, &casts, ops.len()),
        Err(_) => Err(Fault::without_op(Refusal::Memory)),
    }
}

/// Erases casts until none is unused or collapses.
pub(crate) fn fold_casts<B: ConversionRewriter>(alloc: Global, bench: &mut B) -> Result<(), Fault>
    ensures ends { Ends (ended (all_collapsed (B.state bench.old).held) (B.state bench.old).held) (none_of result)
        (B.state bench.new) }
    ensures leads { Leads B.state B.transaction B.led bench.old bench.new }
{
    match bench.operations() {
        Ok(ops) => collapse_listed(alloc, bench, &ops),
        Err(_) => Err(Fault::without_op(Refusal::Memory)),
    }
}
