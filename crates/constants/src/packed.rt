//! Known values in fewer bytes.
ghost use Rattle.std.specs.Prelude.{◌≡◌, ◌+◌, ◌*◌, ◌^◌, ◌<◌, ◌≤◌};
ghost use Rattle.ir_event.specs.types.Limits.{most_width};
ghost use Rattle.ir_event.specs.types.Bits.{width_of};
ghost use Rattle.constants.specs.Packed.{kind_of};

use ir_event::types::bits::{Bits, BitsKind};
use std::marker::Model;

/// The number of values of a half of a value.
const HALF: u128 = 18446744073709551616;

/// The number of values of a half of a word.
const HALF_WORD: u64 = 4294967296;

/// A number below 2^64, aligned to 4 bytes. A contract describes it as the number.
#[derive(Drop)]
struct Word {
    high: u32,
    low: u32,
}

impl Model for Word {
    ghost use Rattle.std.specs.Prelude.{ℕ, ◌+◌, ◌*◌};

    ghost Value = { ℕ };

    ghost view = { λ w. w.high * 4294967296 + w.low };
}

impl Word {
    /// Returns a number in two halves.
    fn new(number: u64) -> Word
        ensures { result ≡ number }
    {
        Word {
            high: (number / HALF_WORD) as u32,
            low: (number % HALF_WORD) as u32,
        }
    }

    /// Returns the number.
    fn number(&self) -> u64
        ensures { result ≡ self.now }
    {
        self.high as u64 * HALF_WORD + self.low as u64
    }
}

/// A kind of constants in one byte. A contract describes it as the kind.
#[derive(Drop)]
struct PackedKind {
    /// The width of an integer type, or 0 for index.
    width: u8,
}

impl Model for PackedKind {
    ghost use Rattle.ir_event.specs.types.declared.bits.BitsKind.{BitsKind as Kind};
    ghost use Rattle.constants.specs.Packed.{kind_of};

    ghost Value = { Kind };

    ghost view = { λ k. kind_of k.width };
}

impl PackedKind {
    /// Returns a kind in one byte.
    fn new(kind: BitsKind) -> PackedKind
        requires some { 1 ≤ width_of kind }
        requires narrow { width_of kind ≤ most_width }
        ensures { result ≡ kind }
    {
        match kind {
            BitsKind::Int(width) => PackedKind { width: width as u8 },
            BitsKind::Index => PackedKind { width: 0 },
        }
    }

    /// Returns the kind.
    fn kind(&self) -> BitsKind
        ensures { result ≡ self.now }
    {
        if self.width == 0 {
            BitsKind::Index
        } else {
            BitsKind::Int(self.width as u32)
        }
    }
}

/// A known value in 20 bytes. A contract describes it as the value.
///
/// A table has one for each id. A number of 128 bits is aligned to 16 bytes, so an optional `Bits` takes 48 bytes, and
/// an optional `PackedBits` takes 24.
#[derive(Drop)]
pub(crate) struct PackedBits {
    kind: PackedKind,
    high: Word,
    low: Word,
    ghost some: { 1 ≤ width_of kind },
    ghost narrow: { width_of kind ≤ most_width },
    ghost in_range: { high * 18446744073709551616 + low < 2 ^ width_of kind },
}

impl Model for PackedBits {
    ghost use Rattle.std.specs.Prelude.{◌+◌, ◌*◌};
    ghost use Rattle.ir_event.specs.types.declared.bits.Bits.{Bits as Known};

    ghost Value = { Known };

    ghost view = { λ p. record { kind = p.kind; value = p.high * 18446744073709551616 + p.low; some = p.some; narrow = p.narrow; in_range = p.in_range } };
}

impl PackedBits {
    /// Returns a known value in two halves.
    pub(crate) fn new(bits: &Bits) -> PackedBits
        ensures { result ≡ bits.now }
    {
        PackedBits {
            kind: PackedKind::new(bits.kind),
            high: Word::new((bits.value / HALF) as u64),
            low: Word::new((bits.value % HALF) as u64),
        }
    }

    /// Returns the known value.
    pub(crate) fn bits(&self) -> Bits
        ensures { result ≡ self.now }
    {
        Bits {
            kind: self.kind.kind(),
            value: self.high.number() as u128 * HALF + self.low.number() as u128,
        }
    }
}
