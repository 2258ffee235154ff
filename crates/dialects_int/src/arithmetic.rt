//! Arithmetic on values of 1 to 128 bits.
ghost use Rattle.std.specs.Prelude.{◌≡◌, ◌-◌, ◌^◌, ◌<◌, ◌≤◌, IfSome, Some, None, bit_and, bit_or, bit_xor};
ghost use Rattle.ir_types.specs.Limits.{most_width};
ghost use Rattle.dialects_int.specs.Arithmetic.{sum_of, difference_of, product_of, divides_signed, signed_quotient_of, signed_remainder_of, quotient_of, remainder_of, left_shift_of, right_shift_of, signed_right_shift_of, comparison_of, signed_maximum_of, maximum_of, signed_minimum_of, minimum_of, value_of, sign_extended, zero_extended, truncated, cast_of};

use crate::operations::{Arithmetic, Cast, Predicate};
use ir_types::readings::{mask, signed_number, wrapped};

/// Returns the result of an operation on two values of a width (`arith` Dialect), or `None` if it has none.
pub fn compute(operation: Arithmetic, width: u32, a: u128, b: u128) -> Option<u128>
    requires low { 1 ≤ width }
    requires high { width ≤ most_width }
    requires left { a < 2 ^ width }
    requires right { b < 2 ^ width }
    ensures value { result ≡ value_of operation width a b }
    ensures below { IfSome result (λ v. v < 2 ^ width) }
{
    match operation {
        Arithmetic::Add => Some(add(width, a, b)),
        Arithmetic::Subtract => Some(subtract(width, a, b)),
        Arithmetic::Multiply => Some(multiply(width, a, b)),
        Arithmetic::ShiftLeft => shift_left(width, a, b),
        Arithmetic::DivideSigned => divide_signed(width, a, b),
        Arithmetic::DivideUnsigned => divide(width, a, b),
        Arithmetic::RemainderSigned => remainder_signed(width, a, b),
        Arithmetic::RemainderUnsigned => remainder(width, a, b),
        Arithmetic::And => Some(and(width, a, b)),
        Arithmetic::Or => Some(or(width, a, b)),
        Arithmetic::ExclusiveOr => Some(exclusive_or(width, a, b)),
        Arithmetic::ShiftRightSigned => shift_right_signed(width, a, b),
        Arithmetic::ShiftRightUnsigned => shift_right(width, a, b),
        Arithmetic::MaximumSigned => Some(maximum_signed(width, a, b)),
        Arithmetic::MaximumUnsigned => Some(maximum(width, a, b)),
        Arithmetic::MinimumSigned => Some(minimum_signed(width, a, b)),
        Arithmetic::MinimumUnsigned => Some(minimum(width, a, b)),
    }
}

/// Returns the sum modulo 2^width (`arith` Dialect, "arith.addi").
fn add(width: u32, a: u128, b: u128) -> u128
    requires low { 1 ≤ width }
    requires high { width ≤ most_width }
    ensures value { result ≡ sum_of width a b }
    ensures below { result < 2 ^ width }
{
    a.wrapping_add(b) & mask(width)
}

/// Returns the difference modulo 2^width (`arith` Dialect, "arith.subi").
fn subtract(width: u32, a: u128, b: u128) -> u128
    requires low { 1 ≤ width }
    requires high { width ≤ most_width }
    requires right { b < 2 ^ width }
    ensures value { result ≡ difference_of width a b }
    ensures below { result < 2 ^ width }
{
    a.wrapping_sub(b) & mask(width)
}

/// Returns the product modulo 2^width (`arith` Dialect, "arith.muli").
fn multiply(width: u32, a: u128, b: u128) -> u128
    requires low { 1 ≤ width }
    requires high { width ≤ most_width }
    ensures value { result ≡ product_of width a b }
    ensures below { result < 2 ^ width }
{
    a.wrapping_mul(b) & mask(width)
}

/// Returns the quotient of the signed values, rounded towards zero, or `None` if it isn't a value of the width.
#[tactic(auto, unfolding(crate::specs::Arithmetic::signed_quotient_of))]
fn divide_signed(width: u32, a: u128, b: u128) -> Option<u128>
    requires low { 1 ≤ width }
    requires high { width ≤ most_width }
    requires left { a < 2 ^ width }
    requires right { b < 2 ^ width }
    ensures value { result ≡ signed_quotient_of width a b }
    ensures below { IfSome result (λ v. v < 2 ^ width) }
{
    if !divides(width, a, b) {
        return None;
    }
    let dividend = signed_number(width, a);
    let divisor = signed_number(width, b);
    Some(wrapped(width, dividend / divisor))
}

/// Returns the remainder of the signed values, with the sign of the dividend, or `None` if their quotient isn't a value
/// of the width.
#[tactic(auto, unfolding(crate::specs::Arithmetic::signed_remainder_of))]
fn remainder_signed(width: u32, a: u128, b: u128) -> Option<u128>
    requires low { 1 ≤ width }
    requires high { width ≤ most_width }
    requires left { a < 2 ^ width }
    requires right { b < 2 ^ width }
    ensures value { result ≡ signed_remainder_of width a b }
    ensures below { IfSome result (λ v. v < 2 ^ width) }
{
    if !divides(width, a, b) {
        return None;
    }
    let dividend = signed_number(width, a);
    let divisor = signed_number(width, b);
    Some(wrapped(width, dividend % divisor))
}

/// Returns whether the quotient of the signed values is a value of the width.
fn divides(width: u32, a: u128, b: u128) -> bool
    requires low { 1 ≤ width }
    requires high { width ≤ most_width }
    ensures { result ≡ divides_signed width a b }
{
    let mask = mask(width);
    b != 0 && !(a == mask / 2 + 1 && b == mask)
}

/// Returns the quotient of the unsigned values, rounded down, or `None` for the divisor 0.
#[tactic(auto, unfolding(crate::specs::Arithmetic::quotient_of))]
fn divide(width: u32, a: u128, b: u128) -> Option<u128>
    requires left { a < 2 ^ width }
    ensures value { result ≡ quotient_of a b }
    ensures below { IfSome result (λ v. v < 2 ^ width) }
{
    if b == 0 { None } else { Some(a / b) }
}

/// Returns the remainder of the unsigned values, or `None` for the divisor 0.
#[tactic(auto, unfolding(crate::specs::Arithmetic::remainder_of))]
fn remainder(width: u32, a: u128, b: u128) -> Option<u128>
    requires left { a < 2 ^ width }
    ensures value { result ≡ remainder_of a b }
    ensures below { IfSome result (λ v. v < 2 ^ width) }
{
    if b == 0 { None } else { Some(a % b) }
}

/// Returns the value shifted left modulo 2^width, filled with zeros, or `None` if the shift amount isn't below the
/// width.
#[tactic(auto, unfolding(crate::specs::Arithmetic::left_shift_of))]
fn shift_left(width: u32, a: u128, b: u128) -> Option<u128>
    requires low { 1 ≤ width }
    requires high { width ≤ most_width }
    ensures value { result ≡ left_shift_of width a b }
    ensures below { IfSome result (λ v. v < 2 ^ width) }
{
    if b < width as u128 {
        Some((a << (b as u32)) & mask(width))
    } else {
        None
    }
}

/// Returns the value shifted right, filled with zeros, or `None` if the shift amount isn't below the width.
#[tactic(auto, unfolding(crate::specs::Arithmetic::right_shift_of))]
fn shift_right(width: u32, a: u128, b: u128) -> Option<u128>
    requires high { width ≤ most_width }
    requires left { a < 2 ^ width }
    ensures value { result ≡ right_shift_of width a b }
    ensures below { IfSome result (λ v. v < 2 ^ width) }
{
    if b < width as u128 {
        Some(a >> (b as u32))
    } else {
        None
    }
}

/// Returns the value shifted right, filled with the sign bit, or `None` if the shift amount isn't below the width.
#[tactic(auto, unfolding(crate::specs::Arithmetic::signed_right_shift_of))]
fn shift_right_signed(width: u32, a: u128, b: u128) -> Option<u128>
    requires low { 1 ≤ width }
    requires high { width ≤ most_width }
    requires left { a < 2 ^ width }
    ensures value { result ≡ signed_right_shift_of width a b }
    ensures below { IfSome result (λ v. v < 2 ^ width) }
{
    if b < width as u128 {
        Some(wrapped(width, signed_number(width, a) >> (b as u32)))
    } else {
        None
    }
}

/// Returns the bitwise conjunction.
fn and(width: u32, a: u128, b: u128) -> u128
    requires left { a < 2 ^ width }
    ensures value { result ≡ bit_and a b }
    ensures below { result < 2 ^ width }
{
    a & b
}

/// Returns the bitwise disjunction.
fn or(width: u32, a: u128, b: u128) -> u128
    requires left { a < 2 ^ width }
    requires right { b < 2 ^ width }
    ensures value { result ≡ bit_or a b }
    ensures below { result < 2 ^ width }
{
    a | b
}

/// Returns the bitwise exclusive disjunction.
fn exclusive_or(width: u32, a: u128, b: u128) -> u128
    requires left { a < 2 ^ width }
    requires right { b < 2 ^ width }
    ensures value { result ≡ bit_xor a b }
    ensures below { result < 2 ^ width }
{
    a ^ b
}

/// Returns the greater value by the signed order.
#[tactic(auto, unfolding(crate::specs::Arithmetic::signed_maximum_of))]
fn maximum_signed(width: u32, a: u128, b: u128) -> u128
    requires low { 1 ≤ width }
    requires high { width ≤ most_width }
    requires left { a < 2 ^ width }
    requires right { b < 2 ^ width }
    ensures value { result ≡ signed_maximum_of width a b }
    ensures below { result < 2 ^ width }
{
    if signed_number(width, a) < signed_number(width, b) {
        b
    } else {
        a
    }
}

/// Returns the greater value by the unsigned order.
#[tactic(auto, unfolding(crate::specs::Arithmetic::maximum_of))]
fn maximum(width: u32, a: u128, b: u128) -> u128
    requires left { a < 2 ^ width }
    requires right { b < 2 ^ width }
    ensures value { result ≡ maximum_of a b }
    ensures below { result < 2 ^ width }
{
    if a < b { b } else { a }
}

/// Returns the smaller value by the signed order.
#[tactic(auto, unfolding(crate::specs::Arithmetic::signed_minimum_of))]
fn minimum_signed(width: u32, a: u128, b: u128) -> u128
    requires low { 1 ≤ width }
    requires high { width ≤ most_width }
    requires left { a < 2 ^ width }
    requires right { b < 2 ^ width }
    ensures value { result ≡ signed_minimum_of width a b }
    ensures below { result < 2 ^ width }
{
    if signed_number(width, b) < signed_number(width, a) {
        b
    } else {
        a
    }
}

/// Returns the smaller value by the unsigned order.
#[tactic(auto, unfolding(crate::specs::Arithmetic::minimum_of))]
fn minimum(width: u32, a: u128, b: u128) -> u128
    requires left { a < 2 ^ width }
    requires right { b < 2 ^ width }
    ensures value { result ≡ minimum_of a b }
    ensures below { result < 2 ^ width }
{
    if b < a { b } else { a }
}

/// Returns whether two values satisfy a predicate (`arith` Dialect, "arith.cmpi").
#[tactic(auto, unfolding(crate::specs::Arithmetic::comparison_of))]
pub fn compare(predicate: Predicate, width: u32, a: u128, b: u128) -> bool
    requires low { 1 ≤ width }
    requires high { width ≤ most_width }
    requires left { a < 2 ^ width }
    requires right { b < 2 ^ width }
    ensures { result ≡ comparison_of width predicate a b }
{
    match predicate {
        Predicate::Equal => a == b,
        Predicate::NotEqual => a != b,
        Predicate::SignedLess => signed_number(width, a) < signed_number(width, b),
        Predicate::SignedLessOrEqual => signed_number(width, a) <= signed_number(width, b),
        Predicate::SignedGreater => signed_number(width, a) > signed_number(width, b),
        Predicate::SignedGreaterOrEqual => signed_number(width, a) >= signed_number(width, b),
        Predicate::UnsignedLess => a < b,
        Predicate::UnsignedLessOrEqual => a <= b,
        Predicate::UnsignedGreater => a > b,
        Predicate::UnsignedGreaterOrEqual => a >= b,
    }
}

/// Returns a value converted to another width, or `None` if the cast has no result.
pub fn resize(cast: Cast, from: u32, to: u32, a: u128) -> Option<u128>
    requires from_low { 1 ≤ from }
    requires from_high { from ≤ most_width }
    requires low { 1 ≤ to }
    requires high { to ≤ most_width }
    requires value { a < 2 ^ from }
    ensures value { result ≡ cast_of cast from to a }
    ensures below { IfSome result (λ v. v < 2 ^ to) }
{
    match cast {
        Cast::ExtendSigned => Some(extend_signed(from, to, a)),
        Cast::ExtendUnsigned => Some(extend(to, a)),
        Cast::Truncate => truncate(from, to, a),
    }
}

/// Returns the signed value modulo 2^to.
#[tactic(auto, unfolding(crate::specs::Arithmetic::sign_extended))]
fn extend_signed(from: u32, to: u32, a: u128) -> u128
    requires from_low { 1 ≤ from }
    requires from_high { from ≤ most_width }
    requires low { 1 ≤ to }
    requires high { to ≤ most_width }
    requires value { a < 2 ^ from }
    ensures value { result ≡ sign_extended from to a }
    ensures below { result < 2 ^ to }
{
    wrapped(to, signed_number(from, a))
}

/// Returns the unsigned value modulo 2^to.
fn extend(to: u32, a: u128) -> u128
    requires low { 1 ≤ to }
    requires high { to ≤ most_width }
    ensures value { result ≡ zero_extended to a }
    ensures below { result < 2 ^ to }
{
    a & mask(to)
}

/// Returns the low `to` bits of a value, or `None` if that isn't a smaller width.
#[tactic(auto, unfolding(crate::specs::Arithmetic::truncated, crate::specs::Arithmetic::zero_extended))]
fn truncate(from: u32, to: u32, a: u128) -> Option<u128>
    requires low { 1 ≤ to }
    requires high { to ≤ most_width }
    ensures value { result ≡ truncated from to a }
    ensures below { IfSome result (λ v. v < 2 ^ to) }
{
    if to < from { Some(extend(to, a)) } else { None }
}
