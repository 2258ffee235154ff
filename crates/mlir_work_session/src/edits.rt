//! Commands that edit the module.
ghost use Rattle.std.specs.Prelude.{◌≡◌, []};
ghost use Rattle.mlir_work_transforms.specs.rewriter.Commands.{DropAttr, Erase, Move, Replace, SetOperand};
ghost use Rattle.mlir_work_script_base.specs.Keys.{key_bytes};
ghost use Rattle.mlir_work_script_base.specs.InsertionPoints.{insertion_point_of};
ghost use Rattle.mlir_work_transforms.specs.rewriter.RewriterCalls.{AgreesOrStale, state_of};
ghost use Rattle.mlir_work_session.specs.Machine.{RunsCommand, response_of};
ghost use Rattle.mlir_work_session.specs.Output.{SessionOptions};

use crate::attributes::name_of;
use crate::reply::Reply;
use crate::replying::reply_to;
use ir_event::analysis::Analysis;
use ir_event::trees::value::Value;
use ir_event::types::ids::OpId;
use ir_event::types::refusal::Refusal;
use mlir_work_script_base::insertion_points::InsertionPoint;
use mlir_work_script_base::keys::Key;
use mlir_work_script_base::places::place_for;
use mlir_work_transforms::rewriter::Bench;
use mlir_work_transforms::rewriter::laws::led_benches_are_kept;
use std::alloc::Global;

/// Sets an operand of an operation.
pub fn set_operand<L: Analysis>(bench: &mut Bench<L>, op: OpId, operand: u32, value: Value) -> Reply
    requires { AgreesOrStale L.meaning bench.old }
    ensures obeys { (session_options : SessionOptions) → RunsCommand session_options (state_of L.meaning bench.old) (SetOperand op operand value) (response_of result) [] (state_of L.meaning bench.new) }
    ensures kept { AgreesOrStale L.meaning bench.new }
    ensures mode { bench.new.transaction.ctx.opaque ≡ bench.old.transaction.ctx.opaque }
{
    led_benches_are_kept::<L>();
    reply_to(bench.set_operand(op, operand, value))
}

/// Replaces all uses of one value by another value.
pub fn replace<L: Analysis>(bench: &mut Bench<L>, old: Value, new: Value) -> Reply
    requires { AgreesOrStale L.meaning bench.old }
    ensures obeys { (session_options : SessionOptions) → RunsCommand session_options (state_of L.meaning bench.old) (Replace old new) (response_of result) [] (state_of L.meaning bench.new) }
    ensures kept { AgreesOrStale L.meaning bench.new }
    ensures mode { bench.new.transaction.ctx.opaque ≡ bench.old.transaction.ctx.opaque }
{
    led_benches_are_kept::<L>();
    reply_to(bench.replace_all(old, new))
}

/// Erases an operation and everything inside it.
pub fn erase<L: Analysis>(bench: &mut Bench<L>, op: OpId) -> Reply
    requires { AgreesOrStale L.meaning bench.old }
    ensures obeys { (session_options : SessionOptions) → RunsCommand session_options (state_of L.meaning bench.old) (Erase op) (response_of result) [] (state_of L.meaning bench.new) }
    ensures kept { AgreesOrStale L.meaning bench.new }
    ensures mode { bench.new.transaction.ctx.opaque ≡ bench.old.transaction.ctx.opaque }
{
    led_benches_are_kept::<L>();
    reply_to(bench.erase(op))
}

/// Moves an operation to an insertion point.
pub fn move_op<L: Analysis>(bench: &mut Bench<L>, op: OpId, point: &InsertionPoint) -> Reply
    requires { AgreesOrStale L.meaning bench.old }
    ensures obeys { (session_options : SessionOptions) → RunsCommand session_options (state_of L.meaning bench.old) (Move op (insertion_point_of point.now)) (response_of result) [] (state_of L.meaning bench.new) }
    ensures kept { AgreesOrStale L.meaning bench.new }
    ensures mode { bench.new.transaction.ctx.opaque ≡ bench.old.transaction.ctx.opaque }
{
    led_benches_are_kept::<L>();
    let place = match place_for(bench.world(), Some(op), point) {
        Ok(place) => place,
        Err(refusal) => return Reply::Refused(refusal),
    };
    reply_to(bench.move_op(op, place))
}

/// Removes an attribute of an operation.
pub(crate) fn drop_attr<L: Analysis>(
    alloc: Global,
    bench: &mut Bench<L>,
    op: OpId,
    key: &Key<'_>,
) -> Reply
    requires { AgreesOrStale L.meaning bench.old }
    ensures obeys { (session_options : SessionOptions) → RunsCommand session_options (state_of L.meaning bench.old) (DropAttr op (key_bytes key.now)) (response_of result) [] (state_of L.meaning bench.new) }
    ensures kept { AgreesOrStale L.meaning bench.new }
    ensures mode { bench.new.transaction.ctx.opaque ≡ bench.old.transaction.ctx.opaque }
{
    led_benches_are_kept::<L>();
    let Some(key) = name_of(alloc, bench, key) else {
        return Reply::Refused(Refusal::Memory);
    };
    reply_to(bench.drop_attr(op, key))
}
