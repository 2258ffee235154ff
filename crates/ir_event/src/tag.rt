//! The words in the rows of reports.
ghost use Rattle.std.specs.Prelude.{◌≡◌};
ghost use Rattle.ir_event.specs.Tags.{tag_number};

/// A word in a row. A cell has its number.
#[derive(Clone, Copy, Debug, PartialEq, Eq)]
pub enum Tag {
    Def = 0,
    Duplicate = 1,
    Use = 2,
    Unresolved = 3,
    Mismatch = 4,
    Unknown = 5,
    Allocate = 6,
    Free = 7,
    Read = 8,
    Write = 9,
}

impl Tag {
    /// Returns the number of the word.
    pub fn number(self) -> u8
        ensures { result ≡ tag_number self }
    {
        self as u8
    }
}
