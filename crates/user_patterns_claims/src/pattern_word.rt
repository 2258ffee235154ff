//! A word that is read as a pattern's assignment.
ghost use Rattle.std.specs.Prelude.{◌≤◌};

use user_patterns_data::pattern::Pattern;

/// A pattern, the letters, and the place of the first variable in a letter.
#[derive(Clone, Copy)]
pub struct PatternWord<'a> {
    pub pattern: &'a Pattern,
    pub word: &'a [u32],
    pub first: usize,
    pub ghost few: { first ≤ 1000 },
}
