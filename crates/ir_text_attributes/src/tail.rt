//! What follows the text of an opaque attribute.

/// What follows the text of an opaque attribute.
#[derive(Clone, Copy, PartialEq, Eq)]
pub enum Tail {
    /// A type.
    SomeType,
    /// An optional type.
    TypeOrNone,
    /// An optional type, which must be opaque.
    OpaqueOrNone,
    /// Nothing.
    NoType,
}
