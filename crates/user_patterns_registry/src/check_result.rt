//! The result of a check.
ghost use Rattle.std.specs.Prelude.{◌≡◌};
ghost use Rattle.user_patterns_registry.specs.CheckResult.{said_of};

use ir_types::bits::Bits;
use user_patterns_claims::assignment::Refutation;

/// The first values at which the pattern isn't a refinement, and the values that both sides compute.
#[derive(Drop)]
pub struct Counterexample {
    /// The greatest of the widths, or the width of the widest type if there is no type variable.
    pub width: u32,
    /// The widths of the type variables, and the values of the variables.
    pub widths: Vec<u32>,
    pub values: Vec<u128>,
    /// The values, each with its kind.
    pub shown: Vec<Option<Bits>>,
    /// The results of the old and the new side: a value, poison, or `None` if the side is undefined.
    pub old: Option<Option<Bits>>,
    pub new: Option<Option<Bits>>,
}

/// The result of a check, whose exact meaning is `IsCheckResult` in `specs/CheckResult.antt`.
///
/// The number is a width: the greatest width of the type variables, or the width of the widest type if there is no type
/// variable.
#[derive(Drop)]
pub enum CheckResult {
    /// The new side refines the old side, for all values at all widths up to this one.
    Holds(u32),
    /// The new side refines the old side, for all values at all widths.
    AllWidths,
    /// The old side is never a number, or undefined for all values up to this width.
    Vacuous(u32),
    /// The new side doesn't refine the old side at these values.
    Fails(Counterexample),
    /// The new side doesn't refine the old side for these outcomes, at types up to this width.
    Refuted(u32, Refutation),
    /// None of the sampled values up to this width is a counterexample.
    Sampled(u32),
}

/// A check result without its counterexample.
#[derive(Clone, Copy)]
pub enum CheckSummary {
    Holds(u32),
    AllWidths,
    Vacuous(u32),
    Fails(u32),
    Sampled(u32),
}

impl CheckResult {
    /// Returns the summary of the result.
    pub fn said(&self) -> CheckSummary
        ensures { result ≡ said_of self.now }
    {
        match self {
            CheckResult::Holds(width) => CheckSummary::Holds(*width),
            CheckResult::AllWidths => CheckSummary::AllWidths,
            CheckResult::Vacuous(width) => CheckSummary::Vacuous(*width),
            CheckResult::Fails(counterexample) => CheckSummary::Fails(counterexample.width),
            CheckResult::Refuted(width, _) => CheckSummary::Fails(*width),
            CheckResult::Sampled(width) => CheckSummary::Sampled(*width),
        }
    }
}
