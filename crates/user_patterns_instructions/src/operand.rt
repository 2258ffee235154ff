//! The translation of the value at a place of a pattern.
use user_patterns_data::pattern::Literal;

/// The condition under which a value is poison.
#[derive(Clone, Copy)]
pub enum Poison {
    Never,
    Always,
    /// The value is poison if the expression at this place is 1.
    When(usize),
}

/// The value at a place of a pattern: the place of its expression, when it is poison, the number of its type, and its
/// literal if it is one. A logarithm isn't known: no expression computes it.
#[derive(Clone, Copy)]
pub struct Operand {
    pub value: usize,
    pub poison: Poison,
    pub ty: usize,
    pub written: Option<Literal>,
    pub known: bool,
}
