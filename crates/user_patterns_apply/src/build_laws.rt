//! A law of rewrite plans.
ghost use Rattle.user_patterns_apply.specs.Built.{IsPlanned};

/// If a pattern can be built (`can_build`), its rewrite plan at every operation is the one of the specification.
pub fn buildable_patterns_are_planned()
    ensures { IsPlanned }
{}
