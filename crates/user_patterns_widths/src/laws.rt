//! Laws of patterns that hold at all widths. A law is a function without effect whose contract states a theorem.
ghost use Rattle.user_patterns_widths.specs.Lasting.{BitsDecide, HoldsAtAllWidths, PolynomialsKeep};

/// A pattern whose sides are the same polynomial is a refinement at all types.
pub fn polynomials_keep()
    ensures { PolynomialsKeep }
{}

/// A pattern that computes bit by bit is a refinement at all types if it is one for all values at some width.
pub fn one_bit_decides()
    ensures { BitsDecide }
{}

/// A pattern of either form that a check found to hold up to some width is a refinement at all types.
pub fn check_holds_at_all_widths()
    ensures { HoldsAtAllWidths }
{}
