//! The integers in the range of a type.
ghost use Rattle.std.specs.Prelude.{◌≡◌, ◌^◌, ◌-◌, ◌≤◌, List};
ghost use Rattle.ir_types.specs.Limits.{most_width};
ghost use Rattle.ir_types.specs.Terms.{TypeTerm, Integer, type_from};
ghost use Rattle.ir_types.specs.Ranges.{is_value_number, is_signed, is_unsigned};
ghost use Rattle.ir_types.specs.Ranges as ranges;
ghost use Rattle.ir_types.specs.Readings.{is_bits_of};
ghost use Rattle.ir_types.specs.Bits.{HasWidth};

use crate::limits::INDEX_WIDTH;
use crate::node::{Sign, TypeNode};

/// Returns whether a sign and a magnitude are a literal of a type. An integer of a signless type may be written as
/// signed or as unsigned (Builtin Dialect, "IntegerAttr"). -0 is a literal.
pub fn is_literal(node: &TypeNode, negative: bool, magnitude: u128) -> bool
    requires { HasWidth node.now }
    ensures { (known : List TypeTerm) → result ≡ ranges.is_literal (type_from known node.now) negative magnitude }
{
    match node {
        TypeNode::Int { sign, width } => is_literal_of_width(*sign, *width, negative, magnitude),
        TypeNode::Index => is_signed(INDEX_WIDTH, negative, magnitude),
        TypeNode::Func { .. } => false,
        TypeNode::Memref { .. } => false,
        TypeNode::Opaque(_) => false,
    }
}

/// Returns whether an integer is a value of a type in printed form. Integers of signless types are printed as signed.
pub fn is_value(node: &TypeNode, value: i128) -> bool
    requires { HasWidth node.now }
    ensures { (known : List TypeTerm) → result ≡ is_value_number (type_from known node.now) value }
{
    match node {
        TypeNode::Int { sign, width } => {
            is_value_of_width(*sign, *width, value < 0, value.unsigned_abs())
        }
        TypeNode::Index => is_signed(INDEX_WIDTH, value < 0, value.unsigned_abs()),
        TypeNode::Func { .. } => false,
        TypeNode::Memref { .. } => false,
        TypeNode::Opaque(_) => false,
    }
}

/// Returns whether a number is the bits of an integer of a type: it is below 2^w for a type of w bits.
pub fn is_bits(node: &TypeNode, bits: u128) -> bool
    requires { HasWidth node.now }
    ensures { (known : List TypeTerm) → result ≡ is_bits_of (type_from known node.now) bits }
{
    match node {
        TypeNode::Int { width, .. } => is_unsigned(*width, false, bits),
        TypeNode::Index => is_unsigned(INDEX_WIDTH, false, bits),
        TypeNode::Func { .. } => false,
        TypeNode::Memref { .. } => false,
        TypeNode::Opaque(_) => false,
    }
}

/// Returns whether a sign and a magnitude are a literal of an integer type.
pub(crate) fn is_literal_of_width(sign: Sign, width: u32, negative: bool, magnitude: u128) -> bool
    requires low { 1 ≤ width }
    requires high { width ≤ most_width }
    ensures { result ≡ ranges.is_literal (Integer sign width) negative magnitude }
{
    match sign {
        Sign::Signless => {
            if negative {
                is_signed(width, negative, magnitude)
            } else {
                is_unsigned(width, negative, magnitude)
            }
        }
        Sign::Signed => is_signed(width, negative, magnitude),
        Sign::Unsigned => is_unsigned(width, negative, magnitude),
    }
}

fn is_value_of_width(sign: Sign, width: u32, negative: bool, magnitude: u128) -> bool
    requires low { 1 ≤ width }
    requires high { width ≤ most_width }
    ensures { result ≡ ranges.is_value (Integer sign width) negative magnitude }
{
    match sign {
        Sign::Signless => is_signed(width, negative, magnitude),
        Sign::Signed => is_signed(width, negative, magnitude),
        Sign::Unsigned => is_unsigned(width, negative, magnitude),
    }
}

/// Returns whether a sign and a magnitude are a signed integer of `width` bits.
fn is_signed(width: u32, negative: bool, magnitude: u128) -> bool
    requires low { 1 ≤ width }
    requires high { width ≤ most_width }
    ensures { result ≡ ranges.is_signed width negative magnitude }
{
    if negative {
        magnitude <= half(width)
    } else {
        magnitude < half(width)
    }
}

/// Returns whether a sign and a magnitude are an unsigned integer of `width` bits.
fn is_unsigned(width: u32, negative: bool, magnitude: u128) -> bool
    requires low { 1 ≤ width }
    requires high { width ≤ most_width }
    ensures { result ≡ ranges.is_unsigned width negative magnitude }
{
    if negative {
        magnitude == 0
    } else {
        magnitude < half(width) || magnitude - half(width) < half(width)
    }
}

/// Returns half the number of values of a width.
pub fn half(width: u32) -> u128
    requires low { 1 ≤ width }
    requires high { width ≤ most_width }
    ensures { result ≡ 2 ^ (width - 1) }
{
    1 << (width - 1)
}
