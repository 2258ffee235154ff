//! The state of the scan before a lexeme.

/// The contents of a bracket, or of the text outside all brackets: operations; operands, types or regions; the
/// arguments of a block; a location or a part of one; anything else.
#[derive(Clone, Copy)]
pub enum BracketContents {
    Operations,
    List,
    Arguments,
    Place,
    Others,
}

/// The last lexeme that is neither a blank nor a comment: a minus, the word `loc`, a label, another lexeme that may
/// end a type, or one that can't.
#[derive(Clone, Copy)]
pub enum LastToken {
    Minus,
    Loc,
    Label,
    Ending,
    Other,
}

/// The part of an operation that the scan has reached: before its function type, in its function type, or after a
/// location that was removed.
#[derive(Clone, Copy)]
pub enum OpStage {
    Before,
    InType,
    AfterType,
}

/// An open bracket with its closing byte and its contents. `closer` is `None` outside all brackets.
#[derive(Clone, Copy)]
pub struct Bracket {
    pub closer: Option<u8>,
    pub holds: BracketContents,
}

/// The state of the scan.
///
/// - `apart`: a replacement here can't be read as a part of the token before it.
/// - `counts`: an `x` here separates dimensions.
/// - `last`: the last lexeme.
/// - `stage`: the part of the operation that the scan has reached.
/// - `around`: the innermost open bracket.
#[derive(Clone, Copy)]
pub struct ScanState {
    pub apart: bool,
    pub counts: bool,
    pub last: LastToken,
    pub stage: OpStage,
    pub around: Bracket,
}
