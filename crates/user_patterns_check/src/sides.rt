//! A pattern at given widths.
use crate::step::Step;
use ir_types::bits::BitsKind;

/// A pattern at given widths: whether it may be applied at these widths, the kinds of its variables, the steps of the
/// conditions and computed numbers, the steps of both sides, and the places of both results.
#[derive(Drop)]
pub struct Instance {
    pub applies: bool,
    pub value_types: Vec<BitsKind>,
    pub given: Vec<Step>,
    pub old: Vec<Step>,
    pub old_result: usize,
    pub new: Vec<Step>,
    pub new_result: usize,
}
