//! The memory effects of an operation itself.

/// Kinds of memory effects (Rationale, "Side Effects & Speculation").
#[derive(Clone, Copy, PartialEq, Eq)]
pub struct EffectSet {
    pub allocate: bool,
    pub free: bool,
    pub read: bool,
    pub write: bool,
}

/// The effects of an operation itself, by its name.
#[derive(Clone, Copy, PartialEq, Eq)]
pub enum Own {
    /// No effect (Traits, "Pure").
    Pure,
    /// These effects.
    Only(EffectSet),
    /// The effects of the operations directly inside it (Traits, "RecursiveMemoryEffects").
    Recursive,
    /// Unknown effects.
    Unknown,
}
