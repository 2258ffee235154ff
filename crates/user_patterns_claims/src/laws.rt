//! Laws of patterns decided by claims. A law is a function without effect whose contract states a theorem.
ghost use Rattle.user_patterns_claims.specs.Decoding.{RefutationsRefute, WitnessesWitness};
ghost use Rattle.user_patterns_claims.specs.Outcomes.{OutcomesDecide};
ghost use Rattle.user_patterns_claims.specs.Settled.{ClaimsDecide, EmptyClaimsDecide};

/// A pattern that holds for all outcomes of its variables refines for all their values.
pub fn outcomes_decide()
    ensures { OutcomesDecide }
{}

/// If all claims of a pattern hold at all widths, the pattern holds at all widths, for all outcomes of its variables.
pub fn claims_decide()
    ensures { ClaimsDecide }
{}

/// If all claims that the old side of a pattern is poison hold at all widths, the old side is never a number.
pub fn empty_claims_decide()
    ensures { EmptyClaimsDecide }
{}

/// A pattern that has a counterexample doesn't hold at all widths.
pub fn refutations_refute()
    ensures { RefutationsRefute }
{}

/// A pattern whose old side is a number for a word has an old side that isn't always undefined or poison.
pub fn witnesses_witness()
    ensures { WitnessesWitness }
{}
