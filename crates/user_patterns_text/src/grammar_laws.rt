//! Laws of the reader and the printer of the grammar.
ghost use Rattle.user_patterns_text.specs.Laws.{IsRead, IsRendered, SpellsNothing, SpellsOne};
ghost use Rattle.user_patterns_text.specs.Printing.{IsReadAgain, WhatIsReadIsReadAgain};
ghost use Rattle.user_patterns_text.specs.Samples.{IsTimesPower};

/// The reader finds the pattern that the text spells, and fails only on a text that spells no pattern.
pub fn patterns_are_read_as_rendered()
    ensures found { IsRendered }
    ensures only { IsRead }
    ensures nothing { SpellsNothing }
{}

/// A text spells one pattern at most.
pub fn patterns_have_one_reading()
    ensures { SpellsOne }
{}

/// The printed text of a printable pattern reads as the same pattern. Every pattern that was read is printable.
pub fn printed_patterns_are_read_again()
    ensures printable { IsReadAgain }
    ensures read { WhatIsReadIsReadAgain }
{}

/// A sample text spells a pattern.
pub fn a_text_is_read()
    ensures { IsTimesPower }
{}
