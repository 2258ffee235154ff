//! The limits of a context.

/// The limit of names, of types and of attributes of a context.
pub const MOST_THINGS: u32 = 16_777_216;

/// The limit of entries of a dictionary.
pub const MOST_ENTRIES: usize = 256;

/// The depth limit of types and attributes.
pub const MOST_DEPTH: u32 = 32;

/// The greatest width of an integer type, in bits.
pub const MOST_WIDTH: u32 = 128;

/// The width of index, in bits.
pub const INDEX_WIDTH: u32 = 64;

/// The greatest dimension of a memref.
pub const MOST_DIMENSION: u64 = 9_223_372_036_854_775_807;
