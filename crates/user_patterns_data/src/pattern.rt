//! The representation of a pattern.
use dialects_int::operations::{Arithmetic, Cast, Predicate};
use ir_types::bits::BitsKind;

/// A type of a pattern: a concrete type, or a type variable by its number.
#[derive(Clone, Copy)]
pub enum PatternType {
    Concrete(BitsKind),
    Variable(usize),
}

/// The operation of a pattern op, and the places of its operands.
#[derive(Clone, Copy)]
pub enum Expression {
    /// `arith.addi` and other binary operations.
    Binary(Arithmetic, usize, usize),
    /// `arith.cmpi`.
    Compare(Predicate, usize, usize),
    /// `arith.select`.
    Select(usize, usize, usize),
    /// `arith.extsi`, `arith.extui`, `arith.trunci`.
    IntegerCast(Cast, usize),
    /// `arith.index_cast`, `arith.index_castui`.
    IndexCast(Cast, usize),
}

/// A pattern op: the operation, whether it must have no flags, and the number of its result's type.
#[derive(Clone, Copy)]
pub struct PatternOp {
    pub form: Expression,
    pub bare: bool,
    pub ty: usize,
}

/// A literal: its sign, its magnitude and the number of its type.
#[derive(Clone, Copy)]
pub struct Literal {
    pub negative: bool,
    pub magnitude: u128,
    pub ty: usize,
}

/// An extra constant on the left: a literal, or a second use of the constant at a place.
#[derive(Clone, Copy)]
pub enum ExtraConstant {
    Literal(Literal),
    SameAs(usize),
}

/// A number computed from constants, or a condition on them.
#[derive(Clone, Copy)]
pub enum ConstantExpression {
    /// A literal.
    Literal(Literal),
    /// The width of a type, in bits.
    Width(usize),
    /// Arithmetic on the numbers at two places.
    Binary(Arithmetic, usize, usize),
    Compare(Predicate, usize, usize),
    /// The logarithm of a power of two. The pattern doesn't apply if the number isn't a power of two.
    Log2(usize),
    /// A condition: the truth value at this place must be true.
    Require(usize),
}

/// A new value: a new operation, or a constant with the number at a place and the number of its type.
#[derive(Clone, Copy)]
pub enum NewValue {
    Operation(PatternOp),
    Constant(usize, usize),
}

/// A constraint on widths: the first type is narrower than the second, or the type is an integer type.
#[derive(Clone, Copy)]
pub enum TypeConstraint {
    Narrower(usize, usize),
    Integer(usize),
}

/// A pattern. Its values have places, in this order: the variables, the extra constants on the left, the numbers
/// computed from constants, the results of the matched operations (operands first), the results of the new operations.
#[derive(Drop)]
pub struct Pattern {
    /// The number of type variables, and the types of the pattern.
    pub types: usize,
    pub value_types: Vec<PatternType>,
    /// The number of each variable's type, and the places of the variables that are constants.
    pub values: Vec<usize>,
    pub constants: Vec<usize>,
    pub extra: Vec<ExtraConstant>,
    pub type_constraints: Vec<TypeConstraint>,
    pub given: Vec<ConstantExpression>,
    /// The pattern ops on the left, the root last, and the place of the root's result.
    pub old: Vec<PatternOp>,
    pub root: usize,
    /// The new values, and the place that replaces the root's result.
    pub new: Vec<NewValue>,
    pub result: usize,
}
