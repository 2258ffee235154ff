//! The verdict on an operation.
ghost use Rattle.std.specs.Prelude.{◌≡◌, ◌∷◌, ℕ, List, IfOk, MatchResult, Some};
ghost use Rattle.ir_verify_base.specs.events.Modules.{module_in};
ghost use Rattle.ir_verify_base.specs.Fits.{Surroundings};
ghost use Rattle.ir_verify.specs.Diagnostics.{Unchecked};
ghost use Rattle.ir_verify.specs.Sets.{finding_of};
ghost use Rattle.ir_verify.specs.Verdicts.{verdict_at, verdict_by, verdict_in};

use crate::finding::Finding;
use ir_types::ids::OpId;
use ir_types::refusal::Refusal;
use ir_verify_base::events::view::View;
use ir_verify_base::events::world::World;
use ir_verify_base::fact::{LocalFact, fact_at};
use std::alloc::{AllocError, Global};

/// The verdict on an operation.
#[derive(Clone, Copy)]
pub enum Verdict {
    /// The operation breaks no rule.
    Valid,
    /// The operation is beyond the table and breaks only rules on types. None of them is reported.
    Unlisted,
    /// The operation breaks a rule that is reported.
    Invalid,
}

/// Returns the verdict on an operation that breaks a rule, given its reported rules.
fn verdict_of_reported(numbers: &[u8]) -> Verdict
    ensures { (b : ℕ) (bs : List ℕ) → result ≡ verdict_by (b ∷ bs) numbers.now }
{
    match numbers {
        [] => Verdict::Unlisted,
        _ => Verdict::Invalid,
    }
}

/// Returns the verdict on an operation, given its finding.
fn verdict_of(alloc: Global, finding: &Finding) -> Result<Verdict, AllocError>
    ensures { IfOk result (λ v. (s : Surroundings) → finding.now ≡ finding_of s → v ≡ verdict_in s) }
{
    if !finding.is_kept() {
        return Ok(Verdict::Valid);
    }
    let numbers = finding.numbers(alloc)?;
    Ok(verdict_of_reported(&numbers))
}

/// Returns the verdict on an operation of the module.
///
/// Refusals: `NoSuchOp` if the operation isn't in the module; `Memory`.
pub fn verify_op(alloc: Global, world: &World, op: OpId) -> Result<Verdict, Refusal>
    ensures { MatchResult result (λ v. verdict_at op (module_in world.now).tree ≡ Some v)
        (Unchecked op (module_in world.now).tree) }
{
    let mut view = View::new(world);
    verdict_of_op(alloc, &mut view, op)
}

/// Returns the verdict on an operation of the view's module.
fn verdict_of_op(alloc: Global, view: &mut View<'_>, op: OpId) -> Result<Verdict, Refusal>
    ensures { MatchResult result (λ v. verdict_at op (module_in view.old.world.now).tree ≡ Some v)
        (Unchecked op (module_in view.old.world.now).tree) }
{
    let found = match fact_at::<Finding>(alloc, view, op) {
        Ok(found) => found,
        Err(_) => return Err(Refusal::Memory),
    };
    let Some(finding) = found else {
        return Err(Refusal::NoSuchOp);
    };
    match verdict_of(alloc, &finding) {
        Ok(verdict) => Ok(verdict),
        Err(_) => Err(Refusal::Memory),
    }
}
