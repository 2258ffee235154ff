//! What is decided of a pattern.

/// What is decided of a pattern.
#[derive(Clone, Copy)]
pub enum Aim {
    /// The new side refines the old side.
    Refines,
    /// The old side is never a number.
    IsEmpty,
}
