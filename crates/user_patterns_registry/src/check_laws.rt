//! Laws of sampled checks.
ghost use Rattle.user_patterns_registry.specs.Sampled.{RefutesTruly};
ghost use Rattle.user_patterns_widths.specs.SampledValues.{SampledValues};

/// Sampled values are values of their variables' kinds. A counterexample of a sampled check is one of a full check too.
pub fn what_is_sampled()
    ensures pattern_set { SampledValues }
    ensures refutes { RefutesTruly }
{}
