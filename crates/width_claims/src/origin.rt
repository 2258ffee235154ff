//! The origins of states.

/// The origin of a state: the place of the state before it, and the letter.
#[derive(Clone, Copy)]
pub struct Origin {
    /// The place of the state before it.
    pub from: usize,
    /// The letter that leads to the state.
    pub letter: u32,
}
