//! The tests of a pattern that can fail at an operation.

/// The first test of a pattern that fails at an operation. A number is the place of a value in the pattern, unless it
/// says otherwise.
#[derive(Clone, Copy, PartialEq, Eq)]
pub enum Mismatch {
    /// No operation with the name of the pattern op defines the value as its first result.
    Operation(u128),
    /// The operation has another predicate, or none.
    Predicate(u128),
    /// The operation has an overflow flag.
    Flags(u128),
    /// The operand at this index is missing, or additional, or isn't the value that is bound at its place.
    Operand(u128, usize),
    /// No constant defines the value.
    Constant(usize),
    /// A place of the pattern isn't defined, so that the pattern can't be built.
    Unbuildable,
    /// The operation that defines the value isn't verified.
    NotVerified(u128),
    /// The value's type isn't the type that is bound to the pattern's type.
    Type(u128),
    /// A type is neither a signless integer type nor `index`.
    NotNumeric,
    /// The types don't satisfy a type constraint, or a literal doesn't fit its type.
    Types,
    /// The number of the constant isn't known, since the constant isn't verified.
    Unknown(usize),
    /// The value isn't the constant that the pattern requires.
    Number(u128),
    /// The computed number with this index isn't defined: a condition is false, or a number isn't a power of two.
    Constraint(usize),
    /// The operation doesn't have exactly one result.
    Results,
    /// The operation is the root of the module.
    IsRoot,
}
