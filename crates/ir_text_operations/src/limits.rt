//! The limits of parsing operations, derived from those of a module.
use ir_tree::limits;
use ir_types::limits::MOST_ENTRIES;

/// The maximum number of operations of a module.
pub const MOST_OPS: u32 = limits::MOST_OPS as u32;

/// The maximum depth of an operation: the limit of enclosing operations plus the operation itself.
pub const MOST_LEVELS: u32 = limits::MOST_AROUND as u32 + 1;

/// The maximum number of regions of an operation.
pub(crate) const MOST_REGIONS: u32 = limits::MOST_REGIONS as u32;

/// The maximum number of entries between two braces: those of both dictionaries of an operation plus one, so that the
/// first entry over a limit is refused at its key.
pub(crate) const MOST_WRITTEN: usize = 2 * MOST_ENTRIES + 1;
