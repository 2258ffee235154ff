//! The verdict on a machine.

/// Whether a machine accepts every state that letters lead to.
#[derive(Drop)]
pub enum Verdict {
    /// It accepts all of them.
    Always,
    /// It doesn't accept the state after these letters.
    Fails(Vec<u32>),
    /// There are more transitions than were looked at.
    TooMany,
}
