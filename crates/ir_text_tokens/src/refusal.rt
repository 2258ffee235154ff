//! The reasons why a text is refused.
ghost use Rattle.std.specs.Prelude.{◌≡◌, ◌≤◌};
ghost use Rattle.ir_types.specs.Refusals.{number_of};
ghost use Rattle.ir_text_tokens.specs.Refusals.{refusal_of, text_refusal};

use ir_types::refusal::Refusal;
use thiserror::Error;

/// The reason why a text is refused at a byte: one of the first fourteen refusals of the workbench.
#[derive(Clone, Copy, Debug, PartialEq, Eq, Error)]
pub enum TextRefusal {
    /// No token begins here.
    #[error("no token begins here")]
    BadToken,
    /// The token isn't allowed here.
    #[error("a token does not fit")]
    Unexpected,
    /// A name isn't bound, or the value isn't visible.
    #[error("a value is not known")]
    UnknownValue,
    /// A name is bound twice.
    #[error("a name is bound already")]
    Redefined,
    /// The number or the types of the operands or results differ from the written type.
    #[error("the types differ")]
    TypeMismatch,
    /// No integer type has this width.
    #[error("no integer type has this width")]
    BadWidth,
    /// A value is outside the range of its type.
    #[error("a value is outside the range of its type")]
    BadValue,
    /// A region has a second block.
    #[error("a region has a second block")]
    MultipleBlocks,
    /// An operation has successors.
    #[error("an operation has successors")]
    Successors,
    /// The nesting is deeper than its limit.
    #[error("the nesting is too deep")]
    TooDeep,
    /// A count is over its limit.
    #[error("a count passes its limit")]
    TooMany,
    /// A dictionary has a key twice.
    #[error("a key stands twice")]
    DuplicateKey,
    /// The text uses a part of the language that isn't supported.
    #[error("this part of the language is left out")]
    LeftOut,
    /// The text isn't UTF-8.
    #[error("the text is not UTF-8")]
    NotUtf8,
}

impl TextRefusal {
    /// Returns the workbench's refusal for this reason.
    #[tactic(auto, using(crate::proofs::Reasons::of_texts))]
    pub fn refusal(self) -> Refusal
        ensures is { result ≡ refusal_of self }
        ensures number { number_of result ≤ 14 }
    {
        match self {
            TextRefusal::BadToken => Refusal::BadToken,
            TextRefusal::Unexpected => Refusal::Unexpected,
            TextRefusal::UnknownValue => Refusal::UnknownValue,
            TextRefusal::Redefined => Refusal::Redefined,
            TextRefusal::TypeMismatch => Refusal::TypeMismatch,
            TextRefusal::BadWidth => Refusal::BadWidth,
            TextRefusal::BadValue => Refusal::BadValue,
            TextRefusal::MultipleBlocks => Refusal::MultipleBlocks,
            TextRefusal::Successors => Refusal::Successors,
            TextRefusal::TooDeep => Refusal::TooDeep,
            TextRefusal::TooMany => Refusal::TooMany,
            TextRefusal::DuplicateKey => Refusal::DuplicateKey,
            TextRefusal::LeftOut => Refusal::LeftOut,
            TextRefusal::NotUtf8 => Refusal::NotUtf8,
        }
    }

    /// Returns the reason for `refusal`, or `Unexpected` if no text is refused by it.
    pub fn from_refusal(refusal: Refusal) -> TextRefusal
        ensures { result ≡ text_refusal refusal }
    {
        match refusal {
            Refusal::BadToken => TextRefusal::BadToken,
            Refusal::UnknownValue => TextRefusal::UnknownValue,
            Refusal::Redefined => TextRefusal::Redefined,
            Refusal::TypeMismatch => TextRefusal::TypeMismatch,
            Refusal::BadWidth => TextRefusal::BadWidth,
            Refusal::BadValue => TextRefusal::BadValue,
            Refusal::MultipleBlocks => TextRefusal::MultipleBlocks,
            Refusal::Successors => TextRefusal::Successors,
            Refusal::TooDeep => TextRefusal::TooDeep,
            Refusal::TooMany => TextRefusal::TooMany,
            Refusal::DuplicateKey => TextRefusal::DuplicateKey,
            Refusal::LeftOut => TextRefusal::LeftOut,
            Refusal::NotUtf8 => TextRefusal::NotUtf8,
            _ => TextRefusal::Unexpected,
        }
    }
}
