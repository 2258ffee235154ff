//! Rewrite plans, before their types and attributes are interned.
use crate::types::BoundType;
use ir_event::trees::value::Value;
use ir_event::types::word::Word;

/// An operand: an existing value, or the result of the new operation with this number.
#[derive(Clone, Copy)]
pub enum Operand {
    Existing(Value),
    New(usize),
}

/// The properties of a new operation.
#[derive(Clone, Copy)]
pub enum Property {
    /// Overflow flags, none of them set, if operations of that name have flags. No property otherwise.
    Flags,
    /// The number of a comparison's predicate.
    Predicate(u128),
    /// The number of a constant, as the bits of its type.
    Bits(u128),
}

/// A new operation with one result.
#[derive(Drop)]
pub struct NewOp {
    pub word: Word,
    pub operands: Vec<Operand>,
    pub ty: BoundType,
    pub property: Property,
}

/// The new operations of a pattern in order, and the value that replaces the result of the root.
#[derive(Drop)]
pub struct BuildPlan {
    pub made: Vec<NewOp>,
    pub result: Operand,
}
