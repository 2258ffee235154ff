//! What came of a visit to a state.

/// What came of a visit to the state at a place.
#[derive(Clone, Copy)]
pub enum Visit {
    /// All targets are accepted, and so many more transitions may be looked at.
    Passes(usize),
    /// This letter leads to a state which isn't accepted.
    Fails(u32),
    /// There is no state at this place.
    Missing,
    /// The state has more transitions than may be looked at.
    TooMany,
}
