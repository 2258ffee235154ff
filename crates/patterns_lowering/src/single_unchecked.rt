//! Makes one edit that has no reason for a refusal.
ghost use Rattle.std.specs.Prelude.{◌≡◌, true, Some, None};
ghost use Rattle.ir_event.specs.trees.Meaning.{IsSoundIn};
ghost use Rattle.ir_event.specs.tree_laws.Reasons.{holds_none};
ghost use Rattle.rewriter.specs.RewriterCalls.{JournalAfter};
ghost use Rattle.rewriter.specs.Held.{module_held};
ghost use Rattle.patterns_soundness.specs.base.Contents.{edit_meaning, edit_reason};
ghost use Rattle.patterns_soundness.specs.base.Edits as edit;
ghost use Rattle.patterns_soundness.specs.base.Lists.{Fits, IsMadeOrRefused, numbered};
ghost use Rattle.patterns_lowering.specs.Runs.{Along};

use crate::single::carry_one;
use ir_event::analysis::Analysis;
use ir_event::trees::place::Place;
use ir_event::trees::tree::TreeOp;
use ir_event::trees::value::Value;
use ir_event::types::ids::OpId;
use ir_event::types::refusal::Refusal;
use patterns_soundness::base::edit::Edit;
use rewriter::Bench;

fn make_one<L: Analysis>(bench: &mut Bench<L>, place: Place, op: &TreeOp) -> Result<(), Refusal>
    requires sound { IsSoundIn bench.old.transaction.ctx op.now }
    requires bare { holds_none (Some op.now) ≡ true }
    requires free { edit_reason (edit_meaning bench.old.transaction.ctx (edit.Make place op.now))
        (module_held bench.old.transaction) ≡ None }
    ensures attempted { IsMadeOrRefused (edit_meaning bench.old.transaction.ctx (edit.Make place op.now)) result
        (module_held bench.old.transaction) (module_held bench.new.transaction) }
    ensures along { Along L.meaning bench.old bench.new }
    ensures journal { JournalAfter L.meaning result bench.old bench.new }
{
    match bench.make_unchecked(place, op) {
        Ok(_) => Ok(()),
        Err(refusal) => Err(refusal),
    }
}

fn replace_one<L: Analysis>(bench: &mut Bench<L>, old: Value, new: Value) -> Result<(), Refusal>
    requires { edit_reason (edit_meaning bench.old.transaction.ctx (edit.Replace old new)) (module_held bench.old.transaction) ≡ None }
    ensures attempted { IsMadeOrRefused (edit_meaning bench.old.transaction.ctx (edit.Replace old new)) result (module_held bench.old.transaction)
        (module_held bench.new.transaction) }
    ensures along { Along L.meaning bench.old bench.new }
    ensures journal { JournalAfter L.meaning result bench.old bench.new }
{
    bench.replace_unchecked(old, new)
}

fn move_one<L: Analysis>(bench: &mut Bench<L>, op: OpId, place: Place) -> Result<(), Refusal>
    requires { edit_reason (edit_meaning bench.old.transaction.ctx (edit.Move op place)) (module_held bench.old.transaction) ≡ None }
    ensures attempted { IsMadeOrRefused (edit_meaning bench.old.transaction.ctx (edit.Move op place)) result (module_held bench.old.transaction)
        (module_held bench.new.transaction) }
    ensures along { Along L.meaning bench.old bench.new }
    ensures journal { JournalAfter L.meaning result bench.old bench.new }
{
    bench.move_unchecked(op, place)
}

fn erase_one<L: Analysis>(bench: &mut Bench<L>, op: OpId) -> Result<(), Refusal>
    requires { edit_reason (edit_meaning bench.old.transaction.ctx (edit.Erase op)) (module_held bench.old.transaction) ≡ None }
    ensures attempted { IsMadeOrRefused (edit_meaning bench.old.transaction.ctx (edit.Erase op)) result (module_held bench.old.transaction)
        (module_held bench.new.transaction) }
    ensures along { Along L.meaning bench.old bench.new }
    ensures journal { JournalAfter L.meaning result bench.old bench.new }
{
    bench.erase_unchecked(op)
}

/// Makes one edit that has no reason for a refusal. Insertions, moves, replacements and erasures aren't checked.
pub(crate) fn carry_unchecked<L: Analysis>(bench: &mut Bench<L>, edit: &Edit) -> Result<(), Refusal>
    requires fits { Fits bench.old.transaction.ctx edit.now }
    requires free { edit_reason (edit_meaning bench.old.transaction.ctx (numbered edit.now)) (module_held bench.old.transaction) ≡ None }
    ensures attempted { IsMadeOrRefused (edit_meaning bench.old.transaction.ctx (numbered edit.now)) result (module_held bench.old.transaction)
        (module_held bench.new.transaction) }
    ensures along { Along L.meaning bench.old bench.new }
    ensures journal { JournalAfter L.meaning result bench.old bench.new }
{
    match edit {
        Edit::Make { place, op } => make_one(bench, *place, op),
        Edit::Replace { old, new } => replace_one(bench, *old, *new),
        Edit::Move { op, place } => move_one(bench, *op, *place),
        Edit::Erase { op } => erase_one(bench, *op),
        _ => carry_one(bench, edit),
    }
}
