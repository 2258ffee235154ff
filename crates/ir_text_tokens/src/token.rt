//! Tokens.

/// A punctuation mark, or the end of the text.
#[derive(Clone, Copy, PartialEq, Eq)]
pub enum Mark {
    OpenRound,
    CloseRound,
    OpenCurly,
    CloseCurly,
    OpenSquare,
    CloseSquare,
    Less,
    Greater,
    Comma,
    Equal,
    Colon,
    DoubleColon,
    Minus,
    Arrow,
    Question,
    Star,
    End,
}

/// A token. A string and a quoted symbol have the text between the quotes. A name has the text after its sigil: `%`,
/// `^`, `#`, `!` or `@`. MLIR Language Reference, "Identifiers and keywords".
#[derive(Clone, Copy)]
pub enum Token<'a> {
    Mark(Mark),
    Integer(&'a [u8]),
    Float(&'a [u8]),
    String(&'a [u8]),
    Bare(&'a [u8]),
    Value(&'a [u8]),
    Label(&'a [u8]),
    Hash(&'a [u8]),
    Bang(&'a [u8]),
    Symbol(&'a [u8]),
    Quoted(&'a [u8]),
}
