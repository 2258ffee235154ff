//! The form of the lines that a rewriting command shows below its reply.

/// The form of the lines.
#[derive(Clone, Copy)]
pub enum TraceForm {
    /// No lines.
    Off,
    /// A line for each rewrite.
    EachRewrite,
    /// A count of the rules and patterns that fired in the last hundred rewrites, if the limit is reached.
    Counts,
}
