//! The steps of a pattern.
use dialects_int::operations::{Arithmetic, Cast, Predicate};
use ir_types::bits::BitsKind;

/// A step, which computes one more value from the values before it. Operands are named by their places.
#[derive(Clone, Copy)]
pub enum Step {
    /// A number with its kind.
    Constant(BitsKind, u128),
    /// `arith.addi` and other binary operations.
    Binary(Arithmetic, usize, usize),
    /// `arith.cmpi`.
    Compare(Predicate, usize, usize),
    /// `arith.select`.
    Select(usize, usize, usize),
    /// `arith.extsi`, `arith.extui`, `arith.trunci`, and the index casts.
    IntegerCast(Cast, BitsKind, usize),
    /// The logarithm of a power of two.
    Log2(usize),
    /// A condition, which must be true.
    Require(usize),
}
