//! The options of a session.

/// The options of a session.
#[derive(Clone, Copy)]
pub struct SessionOptions {
    /// Whether to leave out the listing (module and report rows) after each command.
    pub brief: bool,
    /// The length in bytes of the whole input. The script is a part of the input.
    pub bytes: usize,
    /// The rewrite limit for a `canon` command without a limit.
    pub limit: u32,
    /// Whether to write an empty line after each answer: after the listener error lines for the module, and after the
    /// answer to each command.
    pub ends: bool,
    /// Whether to accept unregistered types and attributes as opaque ones.
    pub opaque: bool,
    /// Whether to write a note after each refusal.
    pub explain: bool,
    /// Whether a command fails if it rewrites by a user pattern that no check has proved.
    pub strict: bool,
}
