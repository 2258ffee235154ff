//! Commands with an operation text or an attribute text.
ghost use Rattle.std.specs.Prelude.{◌≡◌, []};
ghost use Rattle.mlir_work_transforms.specs.rewriter.Commands.{Insert, SetAttr};
ghost use Rattle.mlir_work_script_base.specs.Keys.{key_bytes};
ghost use Rattle.mlir_work_script_base.specs.InsertionPoints.{insertion_point_of};
ghost use Rattle.mlir_work_transforms.specs.rewriter.RewriterCalls.{AgreesOrStale, state_of};
ghost use Rattle.mlir_work_session.specs.Machine.{RunsCommand, response_of};

use crate::attributes::entry_of;
use crate::operations::operation_of;
use crate::options::SessionOptions;
use crate::reply::Reply;
use crate::replying::{reply_as, reply_to};
use ir_event::analysis::Analysis;
use ir_event::types::ids::OpId;
use mlir_work_script_base::insertion_points::InsertionPoint;
use mlir_work_script_base::keys::Key;
use mlir_work_script_base::places::place_for;
use mlir_work_transforms::rewriter::Bench;
use mlir_work_transforms::rewriter::laws::led_benches_are_kept;
use std::alloc::Global;

/// Parses an operation text and inserts the operation at an insertion point.
pub(crate) fn insert<L: Analysis>(
    session_options: &SessionOptions,
    bench: &mut Bench<L>,
    point: &InsertionPoint,
    text: &[u8],
) -> Reply
    requires kept { AgreesOrStale L.meaning bench.old }
    requires mode { bench.old.transaction.ctx.opaque ≡ session_options.now.opaque }
    ensures obeys { RunsCommand session_options.now (state_of L.meaning bench.old) (Insert (insertion_point_of point.now) text.now) (response_of result) [] (state_of L.meaning bench.new) }
    ensures kept { AgreesOrStale L.meaning bench.new }
    ensures mode { bench.new.transaction.ctx.opaque ≡ bench.old.transaction.ctx.opaque }
{
    led_benches_are_kept::<L>();
    let tree = match operation_of(session_options.bytes, bench, text) {
        Ok(tree) => tree,
        Err(reply) => return reply,
    };
    let place = match place_for(bench.world(), None, point) {
        Ok(place) => place,
        Err(refusal) => return Reply::Refused(refusal),
    };
    reply_as(bench.insert(place, &tree))
}

/// Parses an attribute text and sets an attribute of an operation.
pub(crate) fn set_attr<L: Analysis>(
    alloc: Global,
    session_options: &SessionOptions,
    bench: &mut Bench<L>,
    op: OpId,
    key: &Key<'_>,
    text: &[u8],
) -> Reply
    requires kept { AgreesOrStale L.meaning bench.old }
    requires mode { bench.old.transaction.ctx.opaque ≡ session_options.now.opaque }
    ensures obeys { RunsCommand session_options.now (state_of L.meaning bench.old) (SetAttr op (key_bytes key.now) text.now) (response_of result) [] (state_of L.meaning bench.new) }
    ensures kept { AgreesOrStale L.meaning bench.new }
    ensures mode { bench.new.transaction.ctx.opaque ≡ bench.old.transaction.ctx.opaque }
{
    led_benches_are_kept::<L>();
    let (key, attribute) = match entry_of(alloc, session_options.bytes, bench, key, text) {
        Ok(entry) => entry,
        Err(reply) => return reply,
    };
    reply_to(bench.set_attr(op, key, attribute))
}
