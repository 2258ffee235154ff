//! The one entrance of the commands that rewrite the whole module.
ghost use Rattle.std.specs.Prelude.{◌≡◌, ◌++◌, OnOk};
ghost use Rattle.ir_event.specs.types.Things.{IsExtendedBy};
ghost use Rattle.conversion.specs.patterns.runs.Interning.{IsFull};
ghost use Rattle.conversion.specs.rewriter.Commands.{Replied};
ghost use Rattle.conversion.specs.rewriter.RewriterCalls.{Does, Led, state_of};
ghost use Rattle.conversion.specs.rewriter.Held.{module_held};
ghost use Rattle.conversion.specs.rewriter.Machine.{Change, IsFullSo};
ghost use Rattle.greedy.specs.Changes.{canonical_reply};
ghost use Rattle.greedy.specs.Tracing.{trace_of};
ghost use Rattle.mlir_work_transforms.specs.FiredLaws.{IsFresh, names_of};
ghost use Rattle.mlir_work_transforms.specs.LineLaws.{Taken};
ghost use Rattle.mlir_work_transforms.specs.Transforming.{MayTransform, lines_below, set_of, transformation_of};

use crate::rewrite_lines::RewriteLines;
use crate::rule_choice::RuleChoice;
use conversion::rewriter::Bench;
use conversion::rewriter::laws::led_benches_are_kept;
use greedy::bench::rewrite;
use greedy::outcome::Outcome;
use greedy::pattern_set::{Entries, PatternSet};
use greedy::patterns::rules_by_name::RulesByName;
use ir_event::analysis::Analysis;
use ir_event::types::refusal::Refusal;
use std::alloc::Global;

/// Runs the driver by the chosen rules and passes each rewrite to `lines`.
///
/// Errors: those of `transform`.
fn run<L: Analysis>(
    alloc: Global,
    bench: &mut Bench<L>,
    rules: &RuleChoice<'_>,
    limit: u32,
    lines: &mut RewriteLines,
) -> Result<Outcome, Refusal>
    requires { MayTransform rules.now }
    ensures does { Does L.meaning (Change (transformation_of rules.now limit)) (canonical_reply result) bench.old bench.new }
    ensures traced { OnOk result (Taken (trace_of (set_of rules.now) limit (module_held bench.old.transaction)) lines.old lines.new) }
    ensures headroom { IsFullSo (IsFull bench.new.transaction.ctx) (state_of L.meaning bench.old) (transformation_of rules.now limit)
        (canonical_reply result) }
    ensures led { Led L.meaning bench.old bench.new }
    ensures grows { IsExtendedBy bench.old.transaction.ctx bench.new.transaction.ctx }
{
    led_benches_are_kept::<L>();
    bench.is_wellformed();
    match rules {
        RuleChoice::Canonical => {
            let pattern_set = PatternSet {
                entries: Entries::Canonicalization,
                at: None,
            };
            rewrite(alloc, bench, &pattern_set, limit, lines)
        }
        RuleChoice::Listed(rules) => match RulesByName::new(alloc, rules) {
            Ok(rows) => {
                let pattern_set = PatternSet {
                    entries: Entries::Rules(&rows),
                    at: None,
                };
                rewrite(alloc, bench, &pattern_set, limit, lines)
            }
            Err(_) => Err(Refusal::Memory),
        },
        RuleChoice::WithPatterns(list) => {
            let pattern_set = PatternSet {
                entries: Entries::Patterns(list),
                at: None,
            };
            rewrite(alloc, bench, &pattern_set, limit, lines)
        }
    }
}

/// Rewrites the module by the chosen rules as `greedy::bench::rewrite` does, at most as many times as the limit of
/// `lines` allows, and appends the lines of their form. After a refusal the appended lines have no meaning.
///
/// Errors: `BadLimit` if the limit isn't from 1 to 1,000,000; `Full` and `IdsExhausted` if a rewrite is refused with
/// them; `Full` if the context is full; `Memory`.
pub fn transform<L: Analysis>(
    alloc: Global,
    bench: &mut Bench<L>,
    rules: &RuleChoice<'_>,
    lines: &mut RewriteLines,
) -> Result<Outcome, Refusal>
    requires may { MayTransform rules.now }
    requires fresh { IsFresh lines.old }
    ensures does { Does L.meaning (Change (transformation_of rules.now lines.old.limit)) (canonical_reply result) bench.old bench.new }
    ensures reported { OnOk result (lines.new.text.items ≡ lines.old.text.items
        ++ lines_below lines.old.form (Replied (canonical_reply result)) (names_of lines.old)
        (trace_of (set_of rules.now) lines.old.limit (module_held bench.old.transaction))) }
    ensures headroom { IsFullSo (IsFull bench.new.transaction.ctx) (state_of L.meaning bench.old)
        (transformation_of rules.now lines.old.limit) (canonical_reply result) }
    ensures led { Led L.meaning bench.old bench.new }
    ensures grows { IsExtendedBy bench.old.transaction.ctx bench.new.transaction.ctx }
{
    let called = run(alloc, bench, rules, lines.limit, lines);
    lines.end(&called);
    called
}
