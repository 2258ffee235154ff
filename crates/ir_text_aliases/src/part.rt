//! A part of a text.

/// A part of a text to expand. `before` is the number of bytes elsewhere that count towards the length limit, `left`
/// the number of bytes of the text after the end of the part, and `reads` says whether the part may have aliases.
#[derive(Clone, Copy)]
pub struct TextPart {
    pub before: usize,
    pub left: usize,
    pub reads: bool,
}
