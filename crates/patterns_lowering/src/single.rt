//! Makes one edit.
ghost use Rattle.std.specs.Prelude.{◌≡◌, true, Some};
ghost use Rattle.ir_event.specs.types.Things.{IsName, IsAttr};
ghost use Rattle.ir_event.specs.trees.Meaning.{IsSoundIn};
ghost use Rattle.ir_event.specs.tree_laws.Reasons.{holds_none};
ghost use Rattle.rewriter.specs.RewriterCalls.{JournalAfter};
ghost use Rattle.rewriter.specs.Held.{module_held};
ghost use Rattle.patterns_soundness.specs.base.Contents.{edit_meaning};
ghost use Rattle.patterns_soundness.specs.base.Edits as edit;
ghost use Rattle.patterns_soundness.specs.base.Lists.{Fits, IsMadeOrRefused, numbered};
ghost use Rattle.patterns_lowering.specs.Runs.{Along};

use ir_event::analysis::Analysis;
use ir_event::trees::place::Place;
use ir_event::trees::tree::TreeOp;
use ir_event::trees::value::Value;
use ir_event::types::ids::{AttrId, NameId, OpId};
use ir_event::types::refusal::Refusal;
use patterns_soundness::base::edit::Edit;
use rewriter::Bench;

fn make_one<L: Analysis>(bench: &mut Bench<L>, place: Place, op: &TreeOp) -> Result<(), Refusal>
    requires sound { IsSoundIn bench.old.transaction.ctx op.now }
    requires bare { holds_none (Some op.now) ≡ true }
    ensures attempted { IsMadeOrRefused (edit_meaning bench.old.transaction.ctx (edit.Make place op.now)) result (module_held bench.old.transaction)
        (module_held bench.new.transaction) }
    ensures along { Along L.meaning bench.old bench.new }
    ensures journal { JournalAfter L.meaning result bench.old bench.new }
{
    match bench.make(place, op) {
        Ok(_) => Ok(()),
        Err(refusal) => Err(refusal),
    }
}

fn set_one<L: Analysis>(
    bench: &mut Bench<L>,
    op: OpId,
    operand: u32,
    value: Value,
) -> Result<(), Refusal>
    ensures attempted { IsMadeOrRefused (edit_meaning bench.old.transaction.ctx (edit.SetOperand op operand value)) result
        (module_held bench.old.transaction) (module_held bench.new.transaction) }
    ensures along { Along L.meaning bench.old bench.new }
    ensures journal { JournalAfter L.meaning result bench.old bench.new }
{
    bench.set_operand(op, operand, value)
}

fn replace_one<L: Analysis>(bench: &mut Bench<L>, old: Value, new: Value) -> Result<(), Refusal>
    ensures attempted { IsMadeOrRefused (edit_meaning bench.old.transaction.ctx (edit.Replace old new)) result (module_held bench.old.transaction)
        (module_held bench.new.transaction) }
    ensures along { Along L.meaning bench.old bench.new }
    ensures journal { JournalAfter L.meaning result bench.old bench.new }
{
    bench.replace_all(old, new)
}

fn move_one<L: Analysis>(bench: &mut Bench<L>, op: OpId, place: Place) -> Result<(), Refusal>
    ensures attempted { IsMadeOrRefused (edit_meaning bench.old.transaction.ctx (edit.Move op place)) result (module_held bench.old.transaction)
        (module_held bench.new.transaction) }
    ensures along { Along L.meaning bench.old bench.new }
    ensures journal { JournalAfter L.meaning result bench.old bench.new }
{
    bench.move_op(op, place)
}

fn erase_one<L: Analysis>(bench: &mut Bench<L>, op: OpId) -> Result<(), Refusal>
    ensures attempted { IsMadeOrRefused (edit_meaning bench.old.transaction.ctx (edit.Erase op)) result (module_held bench.old.transaction)
        (module_held bench.new.transaction) }
    ensures along { Along L.meaning bench.old bench.new }
    ensures journal { JournalAfter L.meaning result bench.old bench.new }
{
    bench.erase(op)
}

fn enter_one<L: Analysis>(
    bench: &mut Bench<L>,
    op: OpId,
    key: NameId,
    attr: AttrId,
) -> Result<(), Refusal>
    requires key { IsName bench.old.transaction.ctx key }
    requires attr { IsAttr bench.old.transaction.ctx attr }
    ensures attempted { IsMadeOrRefused (edit_meaning bench.old.transaction.ctx (edit.SetAttr op key attr)) result
        (module_held bench.old.transaction) (module_held bench.new.transaction) }
    ensures along { Along L.meaning bench.old bench.new }
    ensures journal { JournalAfter L.meaning result bench.old bench.new }
{
    bench.set_attr(op, key, attr)
}

/// Makes one edit. If it is refused, nothing changes.
pub(crate) fn carry_one<L: Analysis>(bench: &mut Bench<L>, edit: &Edit) -> Result<(), Refusal>
    requires fits { Fits bench.old.transaction.ctx edit.now }
    ensures attempted { IsMadeOrRefused (edit_meaning bench.old.transaction.ctx (numbered edit.now)) result (module_held bench.old.transaction)
        (module_held bench.new.transaction) }
    ensures along { Along L.meaning bench.old bench.new }
    ensures journal { JournalAfter L.meaning result bench.old bench.new }
{
    match edit {
        Edit::Make { place, op } => make_one(bench, *place, op),
        Edit::SetOperand { op, operand, value } => set_one(bench, *op, *operand, *value),
        Edit::Replace { old, new } => replace_one(bench, *old, *new),
        Edit::Move { op, place } => move_one(bench, *op, *place),
        Edit::Erase { op } => erase_one(bench, *op),
        Edit::SetAttr { op, key, attr } => enter_one(bench, *op, *key, *attr),
    }
}
