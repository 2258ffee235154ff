//! The parts of a pattern's text.
ghost use Rattle.std.specs.Prelude.{◌≡◌, OnOk};
ghost use Rattle.user_patterns_text.specs.Parts.{kind_view, views};
ghost use Rattle.user_patterns_text.specs.Reading.{and};

use std::alloc::AllocError;

/// The kind of a part. The operands of an operation, a function or a condition follow its part, up to `End`. The type
/// of a term follows the term.
#[derive(Clone, Copy)]
pub enum PartKind<'a> {
    /// The name of an operation, and its constraint in angle brackets.
    Operation(&'a [u8], Option<&'a [u8]>),
    /// The name of a value, without its `%`.
    Value(&'a [u8]),
    /// A literal: whether it has a minus, and its digits as a number.
    Literal(bool, u128),
    /// The name of a number.
    Name(&'a [u8]),
    /// The name of a function of numbers.
    Function(&'a [u8]),
    /// The word of a condition.
    Constraint(&'a [u8]),
    /// A type, by its word in the text.
    Type(&'a [u8]),
    /// The end of a list of operands.
    End,
}

/// A part, and how many bytes of the text are left at its first byte. For `End`, the bytes left at its last.
#[derive(Clone, Copy)]
pub struct Part<'a> {
    pub left: usize,
    pub kind: PartKind<'a>,
}

/// A parsed pattern: its name, and the parts of both sides and of the conditions, in the order of the text.
#[derive(Drop)]
pub struct Pattern<'a> {
    pub name: &'a [u8],
    pub old: Vec<Part<'a>>,
    pub new: Vec<Part<'a>>,
    pub conditions: Vec<Part<'a>>,
}

/// Appends a part.
#[tactic(auto, using(crate::proofs::Lists::views_and))]
pub(crate) fn push_part<'a>(
    parts: &mut Vec<Part<'a>>,
    left: usize,
    kind: PartKind<'a>,
) -> Result<(), AllocError>
    ensures { OnOk result (views parts.new.items ≡ and (views parts.old.items) left (kind_view kind.entry)) }
{
    parts.push(Part { left, kind })?;
    Ok(())
}
