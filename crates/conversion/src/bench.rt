//! Implements the conversion traits for the rewriter (`Bench`).
ghost use Rattle.std.specs.Prelude.{◌≡◌};
ghost use Rattle.patterns.specs.Held.{module_held};
ghost use Rattle.conversion_base.specs.Makes.{made_by};
ghost use Rattle.conversion_base.specs.Contents.{edited};
ghost use Rattle.conversion_base.specs.Edits.{Erase};
ghost use Rattle.conversion_base.specs.Lists.{AllFit, edits_meaning};
ghost use Rattle.conversion_base.specs.Rewrites.{becomes, carried_out, rewrite_of};
ghost use Rattle.conversion.specs.Benches.{LedOn, transaction_of, seen};
ghost use Rattle.conversion.specs.States.{Answers, Leads};

use crate::conversion_rewriter::ConversionRewriter;
use crate::defining_ops::defining_ops;
use conversion_base::casts::{index_edits, is_cast, is_inner_cast};
use conversion_base::rule::Rule;
use conversion_base::target::Target;
use conversion_base::{legal, target_checks};
use ir_event::analysis::Analysis;
use ir_event::types::ids::OpId;
use ir_event::types::refusal::Refusal;
use patterns::apply::apply;
use patterns::limits::limit_reason;
use patterns::rewriter::finish::close_mark;
use patterns::runs::Bench;
use patterns::runs::apply_edits::apply_edits;
use patterns::runs::edit::Edit;
use patterns::runs::region_rules::dead::is_unused;
use std::alloc::Global;

/// Applies a rule at `op`, if `op` is in the module. Returns whether the rule applied.
pub(crate) fn apply_rule<L: Analysis>(
    alloc: Global,
    bench: &mut Bench<L>,
    rule: Rule,
    op: OpId,
) -> Result<bool, Refusal>
    ensures answers { Answers (rewrite_of rule (module_held bench.old.transaction) op) result (seen bench.old)
        (seen bench.new) }
    ensures leads { Leads seen transaction_of (LedOn L.meaning) bench.old bench.new }
{
    if !bench.world().store.in_tree(op) {
        return Ok(false);
    }
    let applied = apply(alloc, bench, rule, op);
    bench.is_wellformed();
    applied
}

/// Erases `op` and returns true.
fn erase<L: Analysis>(bench: &mut Bench<L>, op: OpId) -> Result<bool, Refusal>
    ensures answers { Answers (becomes (edited (Erase op) (module_held bench.old.transaction))) result (seen bench.old)
        (seen bench.new) }
    ensures leads { Leads seen transaction_of (LedOn L.meaning) bench.old bench.new }
{
    let erased = bench.erase(op);
    bench.is_wellformed();
    match erased {
        Ok(()) => Ok(true),
        Err(_) => Err(Refusal::Memory),
    }
}

/// Makes edits that insert one operation: all edits or none.
fn carry<L: Analysis>(bench: &mut Bench<L>, edits: &[Edit]) -> Result<bool, Refusal>
    requires fits_in { AllFit bench.old.transaction.ctx edits.now }
    requires one { made_by (edits_meaning bench.old.transaction.ctx edits.now) ≡ 1 }
    ensures answers { Answers
        (carried_out (edits_meaning bench.old.transaction.ctx edits.now) (module_held bench.old.transaction)) result (seen bench.old)
        (seen bench.new) }
    ensures leads { Leads seen transaction_of (LedOn L.meaning) bench.old bench.new }
{
    if let Some(refusal) = limit_reason(bench.world(), 1) {
        return Err(refusal);
    }
    let carried = apply_edits(bench, edits);
    bench.is_wellformed();
    match carried {
        Ok(()) => Ok(true),
        Err(_) => Err(Refusal::Memory),
    }
}

impl<L: Analysis> ConversionRewriter for Bench<L> {
    ghost use Rattle.conversion.specs.Benches.{LedOn, transaction_of, led_more, led_none, seen};

    ghost state = { seen };

    ghost transaction = { transaction_of };

    ghost led = { LedOn L.meaning };

    ghost led_none = { led_none L.meaning };

    ghost led_more = { led_more L.meaning };

    fn is_whole(&self) {
        self.is_wellformed();
    }

    fn next_id(&self) -> u32 {
        self.world().store.next_id()
    }

    fn in_tree(&self, op: OpId) -> bool {
        self.world().store.in_tree(op)
    }

    fn is_accepted(&self, target: &Target) -> bool {
        target_checks::is_accepted(&self.world().ctx, target)
    }

    fn is_legal(&self, target: &Target, op: OpId) -> bool {
        legal::is_legal(self.world(), target, op)
    }

    fn operations(&self) -> Result<Vec<OpId>, Refusal> {
        self.world().store.operations()
    }

    fn is_cast(&self, op: OpId) -> bool {
        is_cast(self.world(), op)
    }

    fn defining_ops(&self, alloc: Global, op: OpId) -> Result<Option<Vec<OpId>>, Refusal> {
        match defining_ops(alloc, self.world(), op) {
            Ok(found) => Ok(found),
            Err(_) => Err(Refusal::Memory),
        }
    }

    fn collapse(&mut self, alloc: Global, op: OpId) -> Result<bool, Refusal> {
        let world = self.world();
        if !is_inner_cast(world, op) {
            return Ok(false);
        }
        if is_unused(world, op) {
            return erase(self, op);
        }
        apply_rule(alloc, self, Rule::CastBack, op)
    }

    fn cast_index(&mut self, alloc: Global, op: OpId) -> Result<bool, Refusal> {
        let world = self.world();
        let Ok(found) = index_edits(alloc, world, op) else {
            return Err(Refusal::Memory);
        };
        let Some(edits) = found else {
            return Ok(false);
        };
        carry(self, &edits)
    }

    fn step(&mut self) -> Result<(), Refusal> {
        self.is_wellformed();
        let stepped = Bench::step(self);
        self.is_wellformed();
        stepped
    }

    fn commit(&mut self) {
        close_mark(self, true);
        self.is_wellformed();
    }

    fn rollback(&mut self) {
        close_mark(self, false);
        self.is_wellformed();
    }
}
