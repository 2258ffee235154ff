//! The element types of dense arrays.

/// A signless integer type that a dense array may have as its element type (Builtin Dialect, "DenseArrayAttr").
#[derive(Clone, Copy, PartialEq, Eq)]
pub enum Element {
    /// `i1`, the type of truth values.
    I1,
    /// `i8`.
    I8,
    /// `i16`.
    I16,
    /// `i32`.
    I32,
    /// `i64`.
    I64,
}
