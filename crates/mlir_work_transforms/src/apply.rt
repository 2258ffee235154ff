//! Applies a rule that a command names.
ghost use Rattle.std.specs.Prelude.{◌≡◌};
ghost use Rattle.ir_event.specs.types.Things.{IsExtendedBy};
ghost use Rattle.conversion.specs.rewriter.Machine.{Change, IsFullSo};
ghost use Rattle.conversion.specs.rewriter.RewriterCalls.{Does, JournalAfter, Led, state_of};
ghost use Rattle.conversion.specs.patterns.runs.Interning.{IsFull};
ghost use Rattle.mlir_work_script_base.specs.RuleNames.{name_of};
ghost use Rattle.mlir_work_transforms.specs.Applying.{applied_reply, applying, rule_named};

use conversion::rewriter::Bench;
use conversion::rewriter::laws::led_benches_are_kept;
use greedy::patterns::rule::Rule;
use ir_event::analysis::Analysis;
use ir_event::types::ids::OpId;
use ir_event::types::refusal::Refusal;
use mlir_work_script_base::rule_name::RuleName;
use std::alloc::Global;

/// Returns the rule with this name, or `None` if no rule has it.
pub fn rule_named(name: &RuleName<'_>) -> Option<Rule>
    ensures { result ≡ rule_named (name_of name.now) }
{
    match name {
        RuleName::Number(number) => Rule::by_number(*number),
        RuleName::Word(word) => Rule::by_word(word),
    }
}

/// Applies a rule at an operation. Returns whether the rule applied; if not, the module doesn't change.
///
/// Errors, in order: `NoSuchOp` if the operation isn't in the module; `Full`; `IdsExhausted`; `Full` if the context
/// is full; `Memory`.
pub fn apply_rule<L: Analysis>(
    alloc: Global,
    bench: &mut Bench<L>,
    rule: Rule,
    op: OpId,
) -> Result<bool, Refusal>
    ensures does { Does L.meaning (Change (applying rule op)) (applied_reply result) bench.old bench.new }
    ensures headroom { IsFullSo (IsFull bench.new.transaction.ctx) (state_of L.meaning bench.old) (applying rule op)
        (applied_reply result) }
    ensures led { Led L.meaning bench.old bench.new }
    ensures grows { IsExtendedBy bench.old.transaction.ctx bench.new.transaction.ctx }
    ensures journal { JournalAfter L.meaning result bench.old bench.new }
{
    led_benches_are_kept::<L>();
    conversion::patterns::apply::apply(alloc, bench, rule, op)
}
