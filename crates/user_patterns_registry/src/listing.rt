//! Prints a registry, and the report rows of a check.
ghost use Rattle.std.specs.Prelude.{◌≡◌, ◌++◌, IfOk, OnOk};
ghost use Rattle.user_patterns_registry.specs.Rows.{named_views, refutation_text, rows_text};
ghost use Rattle.user_patterns_registry.specs.Registry.{registry_model, kept_view, kept_views, line_text, listing_text, note_text};

use crate::check_result::{CheckSummary, Counterexample};
use crate::registry::{PatternRegistry, RegisteredPattern};
use crate::rows::{write_refutation, write_rows, write_summary};
use std::alloc::{AllocError, Global};
use user_patterns_claims::assignment::Refutation;

fn write_note(out: &mut Vec<u8>, said: &Option<CheckSummary>) -> Result<(), AllocError>
    ensures { OnOk result (out.new.items ≡ out.old.items ++ note_text said.now) }
{
    match said {
        Some(said) => write_summary(out, *said),
        None => out.extend_from_slice(b"not checked"),
    }
}

/// Prints the line of a pattern.
fn write_line(out: &mut Vec<u8>, held: &RegisteredPattern) -> Result<(), AllocError>
    ensures { OnOk result (out.new.items ≡ out.old.items ++ line_text (kept_view held.now)) }
{
    out.extend_from_slice(&held.text)?;
    out.extend_from_slice(b" // ")?;
    write_note(out, &held.said)?;
    out.push(b'\n')?;
    Ok(())
}

fn write_lines(out: &mut Vec<u8>, held: &[RegisteredPattern]) -> Result<(), AllocError>
    ensures { OnOk result (out.new.items ≡ out.old.items ++ listing_text (kept_views held.now)) }
{
    let mut rest = held;
    'held: while let [first, tail @ ..] = rest {
        write_line(out, first)?;
        rest = tail;
    }
    Ok(())
}

/// Returns a line for each pattern: its text, and the summary of its last check.
pub fn listing(alloc: Global, registry: &PatternRegistry) -> Result<Vec<u8>, AllocError>
    ensures { IfOk result (λ v. v.items ≡ listing_text (registry_model registry.now)) }
{
    let mut out = Vec::new(alloc);
    write_lines(&mut out, &registry.held)?;
    Ok(out)
}

/// Returns the report rows of a counterexample: one row for each variable, then the results of the old and the new
/// side.
pub fn rows(
    alloc: Global,
    held: &RegisteredPattern,
    counterexample: &Counterexample,
) -> Result<Vec<u8>, AllocError>
    ensures { IfOk result (λ v. v.items ≡ rows_text (named_views held.now.variables.items) counterexample.now) }
{
    let mut out = Vec::new(alloc);
    write_rows(&mut out, &held.variables, counterexample)?;
    Ok(out)
}

/// Returns the report rows of a counterexample that may have poison: one row for each variable, then the results of the
/// old and the new side.
pub fn refutation_rows(
    alloc: Global,
    held: &RegisteredPattern,
    refutation: &Refutation,
) -> Result<Vec<u8>, AllocError>
    ensures { IfOk result (λ v. v.items ≡ refutation_text (named_views held.now.variables.items) refutation.now) }
{
    let mut out = Vec::new(alloc);
    write_refutation(&mut out, &held.variables, refutation)?;
    Ok(out)
}
