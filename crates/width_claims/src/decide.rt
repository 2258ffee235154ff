//! The search for a state that isn't accepted.
ghost use Rattle.std.specs.Prelude.{◌≡◌, [], Some, IfOk, OnOk, slice_get};
ghost use Rattle.width_claims.specs.Runs.{IsVerdict};
ghost use Rattle.width_claims.specs.Walks.{AreFrom, Found, Visited, Walked, WentThrough};

use crate::machine::Machine;
use crate::origin::Origin;
use crate::transition::Transition;
use crate::verdict::Verdict;
use crate::visit::Visit;
use crate::word::word_to;
use indexmap::IndexSet;
use std::alloc::{AllocError, Global};

/// Appends a state, if it wasn't found before.
fn find(
    states: &mut IndexSet<u128>,
    origins: &mut Vec<Origin>,
    state: u128,
    origin: Origin,
) -> Result<(), AllocError>
    ensures { OnOk result (Found state origin states.old.keys origins.old.items states.new.keys origins.new.items) }
{
    let added = states.insert(state)?;
    if added {
        origins.push(origin)?;
    }
    Ok(())
}

/// Visits the targets of the transitions from the state at a place. Returns the first letter that leads to a state which
/// isn't accepted, if there is one.
fn go_through<M: Machine>(
    alloc: Global,
    machine: &M,
    transitions: &[Transition],
    place: usize,
    states: &mut IndexSet<u128>,
    origins: &mut Vec<Origin>,
) -> Result<Option<u32>, AllocError>
    requires walked { Walked (M.after machine.now) (M.accepts machine.now) (M.letters machine.now) (slice_get states.old.keys 0) states.old.keys origins.old.items place }
    requires from { AreFrom (M.after machine.now) (M.letters machine.now) states.old.keys place transitions.now }
    ensures { IfOk result (WentThrough (M.after machine.now) (M.accepts machine.now) (M.letters machine.now) (slice_get states.old.keys 0) states.new.keys origins.new.items place) }
{
    let mut at = 0usize;
    'transitions: while at < transitions.len() {
        let transition = transitions[at];
        let accepted = machine.accepts(alloc, transition.target)?;
        if !accepted {
            return Ok(Some(transition.letter));
        }
        let origin = Origin {
            from: place,
            letter: transition.letter,
        };
        find(states, origins, transition.target, origin)?;
        at += 1;
    }
    Ok(None)
}

/// Visits the state at a place, if it has no more than `most` transitions.
fn visit<M: Machine>(
    alloc: Global,
    machine: &M,
    most: usize,
    place: usize,
    states: &mut IndexSet<u128>,
    origins: &mut Vec<Origin>,
) -> Result<Visit, AllocError>
    requires { Walked (M.after machine.now) (M.accepts machine.now) (M.letters machine.now) (slice_get states.old.keys 0) states.old.keys origins.old.items place }
    ensures { IfOk result (Visited (M.after machine.now) (M.accepts machine.now) (M.letters machine.now) (slice_get states.old.keys 0) states.new.keys origins.new.items place) }
{
    let Some(state) = states.get_index(place) else {
        return Ok(Visit::Missing);
    };
    let mut transitions = Vec::new(alloc);
    let complete = machine.transitions(alloc, *state, most, &mut transitions)?;
    if !complete {
        return Ok(Visit::TooMany);
    }
    let left = most.saturating_sub(transitions.len());
    let failing = go_through(alloc, machine, &transitions, place, states, origins)?;
    let Some(letter) = failing else {
        return Ok(Visit::Passes(left));
    };
    Ok(Visit::Fails(letter))
}

/// Visits the states that letters lead to from `start`, in the order in which they are found. They are added to the empty
/// lists. Looks at no more than `most` transitions.
fn search<M: Machine>(
    alloc: Global,
    machine: &M,
    start: u128,
    most: usize,
    states: &mut IndexSet<u128>,
    origins: &mut Vec<Origin>,
) -> Result<Verdict, AllocError>
    requires states { states.old.keys ≡ [] }
    requires origins { origins.old.items ≡ [] }
    ensures { IfOk result (IsVerdict (M.after machine.now) (M.accepts machine.now) (M.letters machine.now) start) }
{
    let first = Origin { from: 0, letter: 0 };
    find(states, origins, start, first)?;
    let mut left = most;
    let mut place = 0usize;
    'places: while place < most {
        let visit = visit(alloc, machine, left, place, states, origins)?;
        match visit {
            Visit::Passes(rest) => left = rest,
            Visit::Fails(letter) => {
                let word = word_to(alloc, origins.as_slice(), place, letter)?;
                return Ok(Verdict::Fails(word));
            }
            Visit::Missing => return Ok(Verdict::Always),
            Visit::TooMany => return Ok(Verdict::TooMany),
        }
        place += 1;
    }
    Ok(Verdict::TooMany)
}

/// Returns whether a machine accepts every state that one or more letters lead to from `start`. Looks at no more than
/// `most` transitions.
pub fn decide<M: Machine>(
    alloc: Global,
    machine: &M,
    start: u128,
    most: usize,
) -> Result<Verdict, AllocError>
    ensures { IfOk result (IsVerdict (M.after machine.now) (M.accepts machine.now) (M.letters machine.now) start) }
{
    let mut states = IndexSet::new(alloc);
    let mut origins = Vec::new(alloc);
    search(alloc, machine, start, most, &mut states, &mut origins)
}
