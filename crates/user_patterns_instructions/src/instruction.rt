//! The instructions of a pattern, before its types have widths.
use dialects_int::operations::{Arithmetic, Cast, Predicate};
use user_patterns_data::pattern::Literal;

/// The instruction that computes the value at a place, and the places of its operands.
#[derive(Clone, Copy)]
pub enum Instruction {
    /// A literal.
    Number(Literal),
    /// The value at another place.
    Copy(usize),
    /// `arith.addi` and other binary operations.
    Pair(Arithmetic, usize, usize),
    /// `arith.divsi` of the old side, which may be undefined there.
    Divide(usize, usize),
    /// `arith.cmpi`.
    Compare(Predicate, usize, usize),
    /// `arith.select`.
    Select(usize, usize, usize),
    /// A cast to the type with this number.
    Resize(Cast, usize, usize),
    /// A condition, which must be true.
    Require(usize),
    /// The width of a type, in bits.
    Width(usize),
    /// The logarithm of a power of two.
    Log(usize),
}
