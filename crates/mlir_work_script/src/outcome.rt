//! The outcomes of transformations of the module.
ghost use Rattle.std.specs.Prelude.{◌≡◌};
ghost use Rattle.mlir_work_script.specs.Outcomes.{outcome_count, outcome_of, outcome_word};

/// The outcome of a transformation that was made.
#[derive(Clone, Copy)]
pub enum Outcome {
    /// The number of private symbols that a sweep erased.
    Swept(usize),
    /// The number of rewrites after which no rule applies any more.
    Converged(usize),
    /// The number of rewrites; the limit was reached.
    Limited(usize),
    /// The number of rules that a conversion applied.
    Converted(usize),
    /// How often a rule was applied: once or not at all.
    Applied(usize),
}

impl Outcome {
    /// Returns the word of the outcome in a reply.
    pub(crate) fn word(self) -> &'static [u8]
        ensures { result.now ≡ outcome_word (outcome_of self) }
    {
        match self {
            Outcome::Swept(_) => b"swept",
            Outcome::Converged(_) => b"converged",
            Outcome::Limited(_) => b"limit",
            Outcome::Converted(_) => b"converted",
            Outcome::Applied(_) => b"applied",
        }
    }

    /// Returns the number after the word in a reply.
    pub(crate) fn count(self) -> usize
        ensures { result ≡ outcome_count (outcome_of self) }
    {
        match self {
            Outcome::Swept(n) => n,
            Outcome::Converged(n) => n,
            Outcome::Limited(n) => n,
            Outcome::Converted(n) => n,
            Outcome::Applied(n) => n,
        }
    }
}
