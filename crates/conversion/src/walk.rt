//! A walk over the indices of a list that can return to earlier indices.
ghost use Rattle.std.specs.Prelude.{◌≡◌, ◌≤◌, ◌<◌, ◌+◌, ◌-◌, OnOk, MatchOption, nat_eq, [], ◌∷◌, length, option_map};
ghost use Rattle.std.specs.HashMap.{get};
ghost use Rattle.conversion.specs.Waiting.{Again, Freed, Took, Waits};

use crate::places::place_of;
use ir_event::types::ids::OpId;
use std::alloc::{AllocError, Global};
use std::collections::{BTreeSet, HashMap};

/// The progress of a walk. Each index from `passed` on waits, and so does each index of `again`.
#[derive(Drop)]
pub(crate) struct Worklist {
    /// The number of indices that the walk has passed.
    pub(crate) passed: usize,
    /// The passed indices that the walk visits again.
    pub(crate) again: BTreeSet<usize>,
}

/// Returns a walk at its start.
pub(crate) fn start(alloc: Global) -> Worklist
    ensures passed { result.passed ≡ 0 }
    ensures again { result.again.keys ≡ [] }
{
    Worklist {
        passed: 0,
        again: BTreeSet::new(alloc),
    }
}

/// Removes the first waiting index and returns it. The list has `count` entries.
pub(crate) fn pop(walk: &mut Worklist, count: usize) -> Option<usize>
    ensures taken { MatchOption result ((walk.old.again.keys ≡ []) × (count ≤ walk.old.passed))
        (λ p. Took walk.old.passed walk.old.again.keys walk.new.passed walk.new.again.keys p) }
    ensures fewer { MatchOption result (walk.new ≡ walk.old)
        (λ p. length walk.new.again.keys + (count - walk.new.passed)
        < length walk.old.again.keys + (count - walk.old.passed)) }
{
    if let Some(place) = walk.again.pop_first() {
        return Some(place);
    }
    if walk.passed >= count {
        return None;
    }
    let place = walk.passed;
    walk.passed = place + 1;
    Some(place)
}

/// Puts a passed index back on the worklist. An index that wasn't passed still waits.
fn add(walk: &mut Worklist, place: usize) -> Result<(), AllocError>
    ensures { OnOk result (Waits place walk.old.passed walk.old.again.keys walk.new.passed walk.new.again.keys) }
{
    if place >= walk.passed {
        return Ok(());
    }
    match walk.again.insert(place) {
        Ok(_) => Ok(()),
        Err(_) => Err(AllocError),
    }
}

/// Puts the index of `op` back on the worklist, if it was passed.
fn add_op(walk: &mut Worklist, places: &HashMap<u32, usize>, op: OpId) -> Result<(), AllocError>
    ensures { OnOk result (Again (op ∷ [])
        (get nat_eq places.now) walk.old.passed walk.old.again.keys walk.new.passed walk.new.again.keys) }
{
    match place_of(places, op) {
        Some(place) => add(walk, place),
        None => Ok(()),
    }
}

/// Puts the indices of some operations back on the worklist, if they were passed.
fn look_again(
    walk: &mut Worklist,
    places: &HashMap<u32, usize>,
    ops: &[OpId],
) -> Result<(), AllocError>
    ensures { OnOk result (Again ops.now
        (get nat_eq places.now) walk.old.passed walk.old.again.keys walk.new.passed walk.new.again.keys) }
{
    let mut rest = ops;
    'ops: while let [op, tail @ ..] = rest {
        add_op(walk, places, *op)?;
        rest = tail;
    }
    Ok(())
}

/// After an operation was erased, puts the defining operations of its operands back on the worklist. If those aren't
/// known, the walk starts again.
pub(crate) fn revisit_defining_ops(
    walk: &mut Worklist,
    places: &HashMap<u32, usize>,
    found_defining_ops: &Option<Vec<OpId>>,
) -> Result<(), AllocError>
    ensures { OnOk result (Freed (option_map (λ v. v.items) found_defining_ops.now)
        (get nat_eq places.now) walk.old.passed walk.old.again.keys walk.new.passed walk.new.again.keys) }
{
    match found_defining_ops {
        Some(ops) => look_again(walk, places, ops),
        None => {
            walk.passed = 0;
            walk.again.clear();
            Ok(())
        }
    }
}
