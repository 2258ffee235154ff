//! Marks of the journal.

/// A mark: the length of the journal when the mark was opened, and whether the mark counts towards `MOST_MARKS`.
#[derive(Clone, Copy)]
pub struct JournalMark {
    pub length: usize,
    pub counted: bool,
}
