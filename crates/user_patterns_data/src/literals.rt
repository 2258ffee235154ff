//! Literals, and the kinds of a pattern's types.
ghost use Rattle.std.specs.Prelude.{◌≡◌, true};
ghost use Rattle.ir_types.specs.Bits.{type_of, width_of};
ghost use Rattle.ir_types.specs.Readings as readings;
ghost use Rattle.ir_types.specs.Reasons as reasons;
ghost use Rattle.user_patterns_data.specs.Fitting as fitting;

use crate::pattern::{Literal, PatternType};
use ir_types::bits::{BitsKind, width};
use ir_types::limits::MOST_WIDTH;
use ir_types::node::{Sign, TypeNode};
use ir_types::readings::literal_bits;

/// Returns the kind of a type whose variables have these widths.
pub(crate) fn kind_with(widths: &[u32], kind: PatternType) -> BitsKind
    ensures { result ≡ fitting.kind_with widths.now kind }
{
    match kind {
        PatternType::Concrete(kind) => kind,
        PatternType::Variable(place) => {
            if place < widths.len() {
                BitsKind::Int(widths[place])
            } else {
                BitsKind::Int(0)
            }
        }
    }
}

/// Returns the kind at index `place`, or a kind without values if the index is out of bounds.
pub fn kind_at(value_types: &[BitsKind], place: usize) -> BitsKind
    ensures { result ≡ fitting.kind_at value_types.now place }
{
    if place < value_types.len() {
        value_types[place]
    } else {
        BitsKind::Int(0)
    }
}

/// Returns whether the kind has values.
fn is_width(kind: BitsKind) -> bool
    ensures { result ≡ reasons.is_width (width_of kind) }
{
    let width = width(kind);
    1 <= width && width <= MOST_WIDTH
}

/// Returns the bits of a literal of that kind, or `None` if the literal is out of range.
fn bits_of_kind(kind: BitsKind, negative: bool, magnitude: u128) -> Option<u128>
    requires { reasons.is_width (width_of kind) ≡ true }
    ensures { result ≡ readings.literal_bits (type_of kind) negative magnitude }
{
    match kind {
        BitsKind::Int(width) => {
            let node = TypeNode::Int {
                sign: Sign::Signless,
                width,
            };
            literal_bits(&node, negative, magnitude)
        }
        BitsKind::Index => literal_bits(&TypeNode::Index, negative, magnitude),
    }
}

/// Returns the bits of a literal at its type, or `None` if the literal is out of range or its type has no values.
pub fn bits_with(value_types: &[BitsKind], literal: &Literal) -> Option<u128>
    ensures { result ≡ fitting.bits_with value_types.now literal.now }
{
    let kind = kind_at(value_types, literal.ty);
    if !is_width(kind) {
        return None;
    }
    bits_of_kind(kind, literal.negative, literal.magnitude)
}
