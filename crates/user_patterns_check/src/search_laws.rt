//! Laws of the search.
ghost use Rattle.user_patterns_check.specs.Cases.{Finds, Fails};

/// If the search finds nothing, the claim is true of all values. The claim is false at the values that the search
/// finds.
pub fn what_is_found()
    ensures finds { Finds }
    ensures fails { Fails }
{}
