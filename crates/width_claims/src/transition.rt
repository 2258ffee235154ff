//! The transitions of a machine.

/// A letter, and the state that it leads to.
#[derive(Clone, Copy)]
pub struct Transition {
    pub letter: u32,
    pub target: u128,
}
