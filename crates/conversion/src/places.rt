//! The indices of operations in a list.
ghost use Rattle.std.specs.Prelude.{◌≡◌, OnOk, IfOk, nat_eq, eqb, ℕ, Some};
ghost use Rattle.std.specs.List.{IsDistinct};
ghost use Rattle.std.specs.HashMap.{get};
ghost use Rattle.std.specs.Map.{update};
ghost use Rattle.conversion.specs.Waiting.{ArePlaces};

use ir_event::types::ids::OpId;
use std::alloc::{AllocError, Global};
use std::collections::HashMap;

/// Records the index of an operation.
fn note(places: &mut HashMap<u32, usize>, op: OpId, place: usize) -> Result<(), AllocError>
    ensures { OnOk result ((q : ℕ) → get nat_eq places.new q ≡ update eqb (get nat_eq places.old) op (Some place) q) }
{
    match places.insert(op.number(), place) {
        Ok(_) => Ok(()),
        Err(_) => Err(AllocError),
    }
}

/// Returns the index of each operation of a list, keyed by the operation's number.
pub(crate) fn places_of(alloc: Global, ops: &[OpId]) -> Result<HashMap<u32, usize>, AllocError>
    requires distinct { IsDistinct eqb ops.now }
    ensures { IfOk result (λ m. ArePlaces ops.now (get nat_eq m)) }
{
    let mut places = HashMap::new(alloc);
    let mut place = 0;
    let mut rest = ops;
    'ops: while let [op, tail @ ..] = rest {
        note(&mut places, *op, place)?;
        place += 1;
        rest = tail;
    }
    Ok(places)
}

/// Returns the index of `op`, or `None` if it isn't in the list.
pub(crate) fn place_of(places: &HashMap<u32, usize>, op: OpId) -> Option<usize>
    ensures { result ≡ get nat_eq places.now op }
{
    places.get(&op.number()).copied()
}
