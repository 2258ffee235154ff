//! The steps of a term.

/// A step, which computes one number or one truth. Operands are named by their places. Numbers and truths are numbered
/// separately, in the order of the steps.
#[derive(Clone, Copy)]
pub enum Step {
    /// The number of a variable.
    Variable(usize),
    /// A literal.
    Literal(u128),
    /// The number whose lowest bits are ones, this many of them.
    Ones(u32),
    /// The quotient of a number by a divisor, which is this number plus 1.
    Quotient(usize, u32),
    /// The bitwise conjunction of two numbers.
    And(usize, usize),
    /// The bitwise disjunction of two numbers.
    Or(usize, usize),
    /// The bitwise exclusive disjunction of two numbers.
    ExclusiveOr(usize, usize),
    /// The sum of two numbers.
    Add(usize, usize),
    /// The difference of two numbers.
    Subtract(usize, usize),
    /// The one of two numbers that a truth selects.
    Select(usize, usize, usize),
    /// Whether two numbers are equal.
    Equal(usize, usize),
    /// Whether the first number is less than the second.
    Less(usize, usize),
    /// The assumption that two numbers are equal, as a truth.
    Suppose(usize, usize),
    /// Whether a truth is false.
    Not(usize),
    /// Whether two truths hold.
    Both(usize, usize),
    /// Whether exactly one of two truths holds.
    Differ(usize, usize),
}
