//! The letters that lead to a state.
ghost use Rattle.std.specs.Prelude.{◌<◌, length, IfOk};
ghost use Rattle.width_claims.specs.Walks.{AreBefore, LeadsTo};

use crate::origin::Origin;
use std::alloc::{AllocError, Global};

/// Returns the letters that lead from the first state to the one at a place, and one more letter.
pub fn word_to(
    alloc: Global,
    origins: &[Origin],
    place: usize,
    letter: u32,
) -> Result<Vec<u32>, AllocError>
    requires within { place < length origins.now }
    requires before { AreBefore origins.now }
    ensures { IfOk result (λ word. LeadsTo origins.now place letter word.items) }
{
    let mut word = Vec::new(alloc);
    word.push(letter)?;
    let mut at = place;
    'places: while at > 0 {
        let origin = origins[at];
        word.push(origin.letter)?;
        at = origin.from;
    }
    word.reverse();
    Ok(word)
}
