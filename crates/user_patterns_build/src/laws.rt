//! Laws of patterns that are ready to be applied.
ghost use Rattle.user_patterns_build.specs.Unified.{HaveOneNumber, IsReady, NumbersTheSame, StaysAtWidths};

/// Equal types get the same number, which is the number of an equal type. The pattern's instance at each list of widths
/// is unchanged.
pub fn types_that_are_one_have_one_number()
    ensures one { HaveOneNumber }
    ensures same { NumbersTheSame }
    ensures widths { StaysAtWidths }
{}

/// A ready pattern is well-formed and can be built.
pub fn what_is_ready_is_buildable()
    ensures { IsReady }
{}
