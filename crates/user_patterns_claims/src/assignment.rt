//! Outcomes of a pattern's variables, and counterexamples.
use ir_types::bits::{Bits, BitsKind};

/// The widths of a pattern's type variables, the kinds of its variables, and the outcome of each variable: a number, or
/// `None` for poison.
#[derive(Drop)]
pub struct Assignment {
    pub widths: Vec<u32>,
    pub value_types: Vec<BitsKind>,
    pub outcomes: Vec<Option<Bits>>,
}

/// An assignment at which the new side of a pattern doesn't refine the old side, and the results of both sides: a
/// number, poison, or `None` if the side is undefined.
#[derive(Drop)]
pub struct Refutation {
    pub assignment: Assignment,
    pub old: Option<Option<Bits>>,
    pub new: Option<Option<Bits>>,
}
