//! Laws of the printed parts.
ghost use Rattle.user_patterns_text.specs.Printed.{IsTextOf, SpellsAgain};

/// The text printed from the parts of a pattern equals the text printed from the pattern. If a text spelled the
/// pattern, the printed text spells it too.
pub fn what_is_printed_is_rendered()
    ensures text { IsTextOf }
    ensures again { SpellsAgain }
{}
