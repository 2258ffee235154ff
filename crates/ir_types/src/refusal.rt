//! The reasons for which calls are refused.
ghost use Rattle.std.specs.Prelude.{◌≡◌};
ghost use Rattle.ir_types.specs.Refusals.{number_of, word_of};

use ir_types_interner::intern::InternFault;
use std::alloc::{AllocError, AllocFailed};
use std::fmt;
use thiserror::Error;

/// The reason for which a call is refused. Every refusal has a number and a word.
#[derive(Clone, Copy, PartialEq, Eq, Error)]
pub enum Refusal {
    /// No token starts at this offset.
    BadToken = 1,
    /// A token that isn't allowed here.
    Unexpected = 2,
    /// A name that is not bound, or an operand that is not visible.
    UnknownValue = 3,
    /// A name that is bound already.
    Redefined = 4,
    /// The number or the types of operands or results differ from what is written.
    TypeMismatch = 5,
    /// A width outside the integer types.
    BadWidth = 6,
    /// A value outside the range of its type.
    BadValue = 7,
    /// A second block in a region.
    MultipleBlocks = 8,
    /// An operation with successors.
    Successors = 9,
    /// A nesting deeper than its limit.
    TooDeep = 10,
    /// A count past its limit.
    TooMany = 11,
    /// A key twice in one dictionary.
    DuplicateKey = 12,
    /// A construct of MLIR that isn't supported.
    LeftOut = 13,
    /// A text that is not UTF-8.
    NotUtf8 = 14,
    /// No such operation in the module.
    NoSuchOp = 20,
    /// No such value in the module.
    NoSuchValue = 21,
    /// A result or argument that is still used.
    HasUses = 22,
    /// An operand would not be visible.
    NotVisible = 23,
    /// The types of two values differ.
    TypeDiffers = 24,
    /// No such operand, region or block, or no such place in it.
    NoSuchIndex = 25,
    /// No entry with the key.
    NoSuchKey = 26,
    /// An operation would be inside itself.
    IntoItself = 27,
    /// An operation would leave its symbol table.
    OtherTable = 28,
    /// The root can be neither moved nor removed.
    IsRoot = 29,
    /// A block still holds operations.
    NotEmpty = 30,
    /// A count of the module would exceed its limit.
    Full = 31,
    /// No operation id is left.
    IdsExhausted = 32,
    /// An operation would exceed the depth limit.
    TooDeepHere = 33,
    /// Too many marks are open.
    TooManyMarks = 34,
    /// No mark is open.
    NoMark = 35,
    /// Memory was refused.
    Memory = 36,
    /// The analysis is stale.
    Stale = 40,
    /// No analysis of the kind is attached.
    NoSuchKind = 41,
    /// An analysis of the kind is attached already.
    KindTaken = 42,
    /// A limit outside its range.
    BadLimit = 50,
    /// An operation that no rule makes legal.
    NotLegalised = 51,
    /// A chain of rules beyond the depth limit.
    ChainTooDeep = 52,
    /// A remaining cast that can't be lowered.
    Unreconciled = 53,
    /// A conversion target that contradicts itself.
    BadTarget = 54,
    /// A line that isn't a command.
    BadCommand = 60,
    /// A list of `rewrite .. proved` with a pattern that isn't proved for the module.
    NotProved = 61,
}

impl Refusal {
    /// Returns the number of the refusal.
    pub fn number(self) -> u32
        ensures { result ≡ number_of self }
    {
        self as u32
    }

    /// Returns the word of the refusal.
    pub fn word(self) -> &'static str
        ensures { result.now ≡ word_of self }
    {
        match self {
            Refusal::BadToken => "BadToken",
            Refusal::Unexpected => "Unexpected",
            Refusal::UnknownValue => "UnknownValue",
            Refusal::Redefined => "Redefined",
            Refusal::TypeMismatch => "TypeMismatch",
            Refusal::BadWidth => "BadWidth",
            Refusal::BadValue => "BadValue",
            Refusal::MultipleBlocks => "MultipleBlocks",
            Refusal::Successors => "Successors",
            Refusal::TooDeep => "TooDeep",
            Refusal::TooMany => "TooMany",
            Refusal::DuplicateKey => "DuplicateKey",
            Refusal::LeftOut => "LeftOut",
            Refusal::NotUtf8 => "NotUtf8",
            Refusal::NoSuchOp => "NoSuchOp",
            Refusal::NoSuchValue => "NoSuchValue",
            Refusal::HasUses => "HasUses",
            Refusal::NotVisible => "NotVisible",
            Refusal::TypeDiffers => "TypeDiffers",
            Refusal::NoSuchIndex => "NoSuchIndex",
            Refusal::NoSuchKey => "NoSuchKey",
            Refusal::IntoItself => "IntoItself",
            Refusal::OtherTable => "OtherTable",
            Refusal::IsRoot => "IsRoot",
            Refusal::NotEmpty => "NotEmpty",
            Refusal::Full => "Full",
            Refusal::IdsExhausted => "IdsExhausted",
            Refusal::TooDeepHere => "TooDeepHere",
            Refusal::TooManyMarks => "TooManyMarks",
            Refusal::NoMark => "NoMark",
            Refusal::Memory => "Memory",
            Refusal::Stale => "Stale",
            Refusal::NoSuchKind => "NoSuchKind",
            Refusal::KindTaken => "KindTaken",
            Refusal::BadLimit => "BadLimit",
            Refusal::NotLegalised => "NotLegalised",
            Refusal::ChainTooDeep => "ChainTooDeep",
            Refusal::Unreconciled => "Unreconciled",
            Refusal::BadTarget => "BadTarget",
            Refusal::BadCommand => "BadCommand",
            Refusal::NotProved => "NotProved",
        }
    }
}

impl fmt::Debug for Refusal {
    fn fmt<W: fmt::Write>(&self, f: &mut fmt::Formatter<W>) -> fmt::Result {
        f.write_str(self.word())
    }
}

impl fmt::Display for Refusal {
    ghost use Rattle.std.specs.Prelude.{Some};
    ghost use Rattle.ir_types.specs.Refusals.{text_of};

    ghost output = { λ refusal. Some (text_of refusal) };

    fn fmt<W: fmt::Write>(&self, f: &mut fmt::Formatter<W>) -> fmt::Result {
        let number = self.number();
        let word = self.word();
        write!(f, "{number} {word}")
    }
}

impl From<InternFault> for Refusal {
    ghost use Rattle.std.specs.Prelude.{◌≡◌};
    ghost use Rattle.ir_types.specs.Refusals.{not_interned};

    ghost from_gives = { λ fault refusal. refusal ≡ not_interned fault };

    fn from(fault: InternFault) -> Refusal {
        match fault {
            InternFault::TooMany => Refusal::TooMany,
            InternFault::Memory => Refusal::Memory,
        }
    }
}

impl From<AllocError> for Refusal {
    ghost use Rattle.std.specs.Prelude.{◌≡◌};
    ghost use Rattle.ir_types.specs.declared.refusal.Refusal.TheVariants.{Memory};

    ghost from_gives = { λ _ refusal. refusal ≡ Memory };

    fn from(_error: AllocError) -> Refusal {
        Refusal::Memory
    }
}

impl<T: Drop> From<AllocFailed<T>> for Refusal {
    ghost use Rattle.std.specs.Prelude.{◌≡◌};
    ghost use Rattle.ir_types.specs.declared.refusal.Refusal.TheVariants.{Memory};

    ghost from_gives = { λ _ refusal. refusal ≡ Memory };

    fn from(_error: AllocFailed<T>) -> Refusal {
        Refusal::Memory
    }
}
