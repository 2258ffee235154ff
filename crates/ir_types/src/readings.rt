//! Converts literals to the bits of integers, and bits to the numbers that they represent.
ghost use Rattle.std.specs.Prelude.{◌≡◌, ◌^◌, ◌-◌, ◌<◌, ◌≤◌, List, pos, int_lt, unsigned_abs};
ghost use Rattle.ir_types.specs.Limits.{most_width};
ghost use Rattle.ir_types.specs.Terms.{TypeTerm, Integer, type_from};
ghost use Rattle.ir_types.specs.Readings as readings;
ghost use Rattle.ir_types.specs.Readings.{signed_of, wrapped, reading_of, literal_number};
ghost use Rattle.ir_types.specs.Bits.{HasWidth};

use crate::limits::INDEX_WIDTH;
use crate::node::{Sign, TypeNode};
use crate::range::{half, is_literal_of_width};

/// An integer, by its sign and magnitude. 0 has no minus.
#[derive(Clone, Copy)]
pub struct Reading {
    pub negative: bool,
    pub magnitude: u128,
}

/// Returns the bits of a literal, which are the number modulo 2^w, or `None` if the literal isn't in the range of the
/// type.
pub fn literal_bits(node: &TypeNode, negative: bool, magnitude: u128) -> Option<u128>
    requires { HasWidth node.now }
    ensures { (known : List TypeTerm) → result ≡ readings.literal_bits (type_from known node.now) negative magnitude }
{
    match node {
        TypeNode::Int { sign, width } => bits_of_width(*sign, *width, negative, magnitude),
        TypeNode::Index => bits_of_width(Sign::Signed, INDEX_WIDTH, negative, magnitude),
        TypeNode::Func { .. } => None,
        TypeNode::Memref { .. } => None,
        TypeNode::Opaque(_) => None,
    }
}

/// Returns the number that bits represent: an unsigned number for an unsigned type, two's complement for a signless or
/// signed type and for index.
pub fn read_bits(node: &TypeNode, bits: u128) -> Reading
    requires { HasWidth node.now }
    ensures negative { (known : List TypeTerm) → result.negative ≡ int_lt (reading_of (type_from known node.now) bits) (pos 0) }
    ensures magnitude { (known : List TypeTerm) → result.magnitude ≡ unsigned_abs (reading_of (type_from known node.now) bits) }
{
    match node {
        TypeNode::Int { sign, width } => match sign {
            Sign::Unsigned => unsigned_reading(bits),
            Sign::Signless => signed_reading(*width, bits),
            Sign::Signed => signed_reading(*width, bits),
        },
        TypeNode::Index => signed_reading(INDEX_WIDTH, bits),
        TypeNode::Func { .. } => unsigned_reading(bits),
        TypeNode::Memref { .. } => unsigned_reading(bits),
        TypeNode::Opaque(_) => unsigned_reading(bits),
    }
}

/// Returns the greatest number of `width` bits.
pub fn mask(width: u32) -> u128
    requires low { 1 ≤ width }
    requires high { width ≤ most_width }
    ensures { result ≡ 2 ^ width - 1 }
{
    u128::MAX >> (128 - width)
}

/// Returns an integer modulo 2^w.
pub fn wrapped(width: u32, number: i128) -> u128
    requires low { 1 ≤ width }
    requires high { width ≤ most_width }
    ensures value { result ≡ wrapped width number }
    ensures below { result < 2 ^ width }
{
    let mask = mask(width);
    if number >= 0 {
        number as u128 & mask
    } else {
        let below = (-1 - number) as u128;
        mask - (below & mask)
    }
}

/// Returns the two's complement number of w bits.
pub fn signed_number(width: u32, bits: u128) -> i128
    requires low { 1 ≤ width }
    requires high { width ≤ most_width }
    requires bits { bits < 2 ^ width }
    ensures { result ≡ signed_of width bits }
{
    let mask = mask(width);
    if bits <= mask >> 1 {
        bits as i128
    } else {
        -1 - (mask - bits) as i128
    }
}

/// Returns the bits of a literal of an integer type, or `None` if it is out of range.
fn bits_of_width(sign: Sign, width: u32, negative: bool, magnitude: u128) -> Option<u128>
    requires low { 1 ≤ width }
    requires high { width ≤ most_width }
    ensures { result ≡ readings.literal_bits (Integer sign width) negative magnitude }
{
    if is_literal_of_width(sign, width, negative, magnitude) {
        Some(complement(width, negative, magnitude))
    } else {
        None
    }
}

/// Returns the bits of a number given by its sign and magnitude.
fn complement(width: u32, negative: bool, magnitude: u128) -> u128
    requires low { 1 ≤ width }
    requires high { width ≤ most_width }
    requires small { magnitude < 2 ^ width }
    ensures { result ≡ wrapped width (literal_number negative magnitude) }
{
    if negative && magnitude > 0 {
        mask(width) - (magnitude - 1)
    } else {
        magnitude
    }
}

fn unsigned_reading(bits: u128) -> Reading
    ensures negative { result.negative ≡ int_lt (pos bits) (pos 0) }
    ensures magnitude { result.magnitude ≡ unsigned_abs (pos bits) }
{
    Reading {
        negative: false,
        magnitude: bits,
    }
}

/// Returns the two's complement number of bits, by its sign and magnitude.
fn signed_reading(width: u32, bits: u128) -> Reading
    requires low { 1 ≤ width }
    requires high { width ≤ most_width }
    ensures negative { result.negative ≡ int_lt (signed_of width bits) (pos 0) }
    ensures magnitude { result.magnitude ≡ unsigned_abs (signed_of width bits) }
{
    let half = half(width);
    if bits < half {
        return unsigned_reading(bits);
    }
    let above = bits - half;
    if above < half {
        Reading {
            negative: true,
            magnitude: half - above,
        }
    } else {
        unsigned_reading(above - half)
    }
}
