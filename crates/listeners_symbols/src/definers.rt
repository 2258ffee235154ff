//! The operations that may define symbols.

/// The operations that a report accepts as definers of symbols.
#[derive(Clone, Copy)]
pub enum Definers {
    /// Only functions and modules, which the operation table lists.
    Listed,
    /// Functions and modules, and every other operation with a string as `sym_name`, as in MLIR with more dialects.
    AnyNamed,
}
