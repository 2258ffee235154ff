//! The rewrite plan of a rule. Nothing is interned for it yet.
use ir_event::trees::value::Value;
use ir_event::types::ids::{NameId, TypeId};
use patterns_base::edit::Edit;

/// The plan of a rule that applies at an operation. New operations are inserted before that operation. The plans that
/// most rewrites need are small and take no memory; the large ones are boxed.
#[derive(Drop)]
pub enum RewritePlan {
    /// The operation is erased.
    Erase,
    /// An existing value replaces the result, and the operation is erased.
    Give {
        value: Value,
    },
    /// Edits that need nothing interned.
    Edits(Vec<Edit>),
    /// A new constant with these bits replaces the result.
    Constant {
        ty: TypeId,
        bits: u128,
    },
    /// A new operation with one operand and no properties replaces the result.
    Cast {
        name: NameId,
        ty: TypeId,
        value: Value,
    },
    /// One of the large plans.
    Large(Box<LargePlan>),
}

/// The plans that make more than one operation, or set a predicate.
#[derive(Drop)]
pub enum LargePlan {
    /// A new constant with these bits, followed by a new operation with this name on a value and the constant, which
    /// replaces the result.
    CombinedConstant {
        name: NameId,
        ty: TypeId,
        value: Value,
        bits: u128,
    },
    /// The predicate and the operands of a comparison are set in place.
    SwapComparison {
        predicate: u128,
        first: Value,
        second: Value,
    },
    /// A new comparison of two values, followed by a select between them, which replaces the result.
    CompareAndSelect {
        predicate: u128,
        ty: TypeId,
        first: Value,
        second: Value,
    },
    /// The first value plus the complement of the second, plus 1. The type's bits, all set, are given.
    Difference {
        ty: TypeId,
        first: Value,
        second: Value,
        ones: u128,
    },
    /// The remainder of the first value by the second, computed with a division with this name.
    Remainder {
        division: NameId,
        ty: TypeId,
        first: Value,
        second: Value,
    },
}
