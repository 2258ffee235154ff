//! The decision about a pattern.

/// Whether a pattern holds at all widths, for all outcomes of its variables.
#[derive(Drop)]
pub enum Decision {
    /// The pattern holds.
    Always,
    /// The claim for this set of poison variables fails after this word of letters.
    Fails(usize, Vec<u32>),
    /// Claims can't express the pattern, or there are too many states.
    Undecided,
}
