//! The lines that trace a conversion.
ghost use Rattle.std.specs.Prelude.{◌≡◌, ◌++◌, [], None, IfOk, OnOk};
ghost use Rattle.conversion.specs.declared.match_failure.MatchFailure.TheVariants.{ConditionFails, MakesIllegal};
ghost use Rattle.mlir_work_transforms.specs.ConvertText.{applied_as, match_failure_line, match_failure_text, located_text};

use crate::trace_lines::{write_applied_rewrite, write_op, write_rule};
use conversion::applied_rule::AppliedRule;
use conversion::match_failure::MatchFailure;
use conversion::reasons::reason::Reason;
use conversion::tracer::Tracer;
use greedy::applied_rewrite::{AppliedPattern, AppliedRewrite};
use greedy::patterns::rule::Rule;
use ir_event::types::ids::OpId;
use ir_event::types::refusal::Refusal;
use std::alloc::{AllocError, Global};

/// The tracer of a conversion: collects a line for each applied rule, and the last match failure.
#[derive(Drop)]
pub(crate) struct ConvertLines {
    pub(crate) text: Vec<u8>,
    pub(crate) failure: Option<MatchFailure>,
}

/// Returns an applied conversion rule in the form of an applied rewrite.
fn applied_as(applied: &AppliedRule) -> AppliedRewrite
    ensures { result ≡ applied_as applied.now }
{
    AppliedRewrite {
        by: AppliedPattern::Rule(applied.rule),
        op: applied.op,
        from: applied.from,
        until: applied.until,
        stays: applied.stays,
    }
}

/// Appends a line for each applied rule.
fn write_applied_rules(text: &mut Vec<u8>, applied: &[AppliedRule]) -> Result<(), AllocError>
    ensures { OnOk result (text.new.items ≡ text.old.items ++ located_text applied.now) }
{
    let mut rest = applied;
    'applied: while let [one, tail @ ..] = rest {
        write_applied_rewrite(text, &[], &applied_as(one))?;
        rest = tail;
    }
    Ok(())
}

/// Appends a rule and its first condition that doesn't hold.
fn write_failing(text: &mut Vec<u8>, rule: Rule, condition: Reason) -> Result<(), AllocError>
    ensures { OnOk result (text.new.items ≡ text.old.items ++ match_failure_text (ConditionFails rule condition)) }
{
    write_rule(text, rule)?;
    text.extend_from_slice(b" ")?;
    text.extend_from_slice(condition.word().as_bytes())
}

/// Appends a rule whose new operations can't be legalized.
fn write_illegal(text: &mut Vec<u8>, rule: Rule) -> Result<(), AllocError>
    ensures { OnOk result (text.new.items ≡ text.old.items ++ match_failure_text (MakesIllegal rule)) }
{
    write_rule(text, rule)?;
    text.extend_from_slice(b" makes-illegal")
}

/// Appends the reason why an operation stays illegal.
fn write_match_failure(text: &mut Vec<u8>, failure: MatchFailure) -> Result<(), AllocError>
    ensures { OnOk result (text.new.items ≡ text.old.items ++ match_failure_text failure) }
{
    match failure {
        MatchFailure::NoRule => text.extend_from_slice(b"no-rule"),
        MatchFailure::ConditionFails(rule, condition) => write_failing(text, rule, condition),
        MatchFailure::MakesIllegal(rule) => write_illegal(text, rule),
    }
}

/// Returns the line that says why an operation stays illegal.
pub(crate) fn line_of(alloc: Global, op: OpId, failure: MatchFailure) -> Result<Vec<u8>, AllocError>
    ensures { IfOk result (λ text. text.items ≡ match_failure_line op failure) }
{
    let mut text = Vec::new(alloc);
    text.extend_from_slice(b"stays ")?;
    write_op(&mut text, op)?;
    text.extend_from_slice(b" ")?;
    write_match_failure(&mut text, failure)?;
    text.extend_from_slice(b"\n")?;
    Ok(text)
}

impl ConvertLines {
    /// Returns a tracer without lines.
    pub(crate) fn new(alloc: Global) -> ConvertLines
        ensures text { result.text.items ≡ [] }
        ensures failure { result.failure ≡ None }
    {
        ConvertLines {
            text: Vec::new(alloc),
            failure: None,
        }
    }
}

impl Tracer for ConvertLines {
    ghost use Rattle.std.specs.Prelude.{◌≡◌, ◌++◌};
    ghost use Rattle.mlir_work_transforms.specs.ConvertText.{latest_match_failure, located_text};

    ghost reported = { λ ks a b. b.text.items ≡ a.text.items ++ located_text ks };

    ghost stayed = { λ s a b. b.failure ≡ latest_match_failure s a.failure };

    ghost untouched = { λ t i. t.failure };

    fn record_rules(&mut self, applied: &[AppliedRule]) -> Result<(), Refusal> {
        match write_applied_rules(&mut self.text, applied) {
            Ok(()) => Ok(()),
            Err(_) => Err(Refusal::Memory),
        }
    }

    fn match_failed(&mut self, failure: MatchFailure) {
        self.failure = Some(failure);
    }
}
