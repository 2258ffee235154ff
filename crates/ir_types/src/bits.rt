//! Constants of signless integer types and of index.
ghost use Rattle.std.specs.Prelude.{◌≡◌, ◌<◌, ◌≤◌, ◌^◌, IsTrue, true};
ghost use Rattle.std.specs.Option.{option_map};
ghost use Rattle.ir_types.specs.Limits.{most_width};
ghost use Rattle.ir_types.specs.Ranges.{is_value_number};
ghost use Rattle.ir_types.specs.Readings.{signed_of, wrapped};
ghost use Rattle.ir_types.specs.Reasons.{is_width};
ghost use Rattle.ir_types.specs.Bits.{width_of, type_of, bits_of};

use crate::limits::{INDEX_WIDTH, MOST_WIDTH};
use crate::readings::{mask, signed_number, wrapped};

/// A signless integer type by its width (Builtin Dialect, "IntegerType"), or index.
#[derive(Clone, Copy, Debug, PartialEq, Eq)]
pub enum BitsKind {
    /// `iN`.
    Int(u32),
    /// `index`, which has 64 bits here (Builtin Dialect, "IndexType").
    Index,
}

/// A constant, given by its bits: a number below 2^w if its kind has w bits.
#[derive(Clone, Copy, Debug, PartialEq, Eq)]
pub struct Bits {
    pub kind: BitsKind,
    pub value: u128,
    pub ghost some: { 1 ≤ width_of kind },
    pub ghost narrow: { width_of kind ≤ most_width },
    pub ghost in_range: { value < 2 ^ width_of kind },
}

/// Returns the width of a kind, in bits.
pub fn width(kind: BitsKind) -> u32
    ensures { result ≡ width_of kind }
{
    match kind {
        BitsKind::Int(width) => width,
        BitsKind::Index => INDEX_WIDTH,
    }
}

impl Bits {
    /// Returns the constant with these bits, or `None` if they are out of range.
    pub fn new(kind: BitsKind, value: u128) -> Option<Bits>
        ensures { option_map (λ bits. (bits.kind, bits.value)) result ≡ bits_of kind value }
    {
        let width = width(kind);
        if width == 0 || width > MOST_WIDTH {
            return None;
        }
        if value > mask(width) {
            return None;
        }
        Some(Bits { kind, value })
    }

    /// Returns the constant whose bits are `number` modulo 2^w. If `number` is in the printed range of the kind,
    /// `Bits::number` returns it again.
    #[tactic(auto, using(crate::proofs::KindLaws::value_is_number))]
    pub fn from_number(kind: BitsKind, number: i128) -> Bits
        requires { IsTrue (is_width (width_of kind)) }
        ensures kind { result.kind ≡ kind }
        ensures value { result.value ≡ wrapped (width_of kind) number }
        ensures number { is_value_number (type_of kind) number ≡ true → signed_of (width_of kind) result.value ≡ number }
    {
        let value = wrapped(width(kind), number);
        Bits { kind, value }
    }

    /// Returns the constant as it is printed, as a signed number.
    #[tactic(auto, using(crate::proofs::KindLaws::number_is_value, crate::proofs::ReadingLaws::bits_back))]
    pub fn number(self) -> i128
        ensures number { result ≡ signed_of (width_of self.kind) self.value }
        ensures value { is_value_number (type_of self.kind) result ≡ true }
        ensures bits { wrapped (width_of self.kind) result ≡ self.value }
    {
        signed_number(width(self.kind), self.value)
    }
}
