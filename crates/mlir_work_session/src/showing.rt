//! Shows operations as JSON objects.
ghost use Rattle.mlir_work_script.specs.SessionCommands.{ShowAll, ShowFrom};
ghost use Rattle.mlir_work_transforms.specs.rewriter.RewriterCalls.{state_of};
ghost use Rattle.mlir_work_session.specs.Machine.{RunsSessionCommand, SessionSetting, response_of};

use crate::reply::Reply;
use crate::shows::{ShownReply, reply_only};
use ir_event::analysis::Analysis;
use ir_event::types::ids::OpId;
use ir_event::types::refusal::Refusal;
use mlir_work_session_base::module_objects::{text_from, text_of_module};
use mlir_work_session_base::subjects::is_in;
use mlir_work_transforms::rewriter::Bench;
use std::alloc::Global;

/// Shows all operations.
pub(crate) fn show_all<L: Analysis>(alloc: Global, bench: &Bench<L>) -> ShownReply
    ensures { (setting : SessionSetting) → RunsSessionCommand setting (state_of L.meaning bench.now) ShowAll (response_of result.reply) result.shows.items (state_of L.meaning bench.now) }
{
    match text_of_module(alloc, bench.world()) {
        Ok(shows) => ShownReply {
            reply: Reply::Done,
            shows,
        },
        Err(_) => reply_only(alloc, Reply::Refused(Refusal::Memory)),
    }
}

/// Shows at most `count` operations, in pre-order from operation `op` on.
///
/// Refusals: `NoSuchOp` if the operation isn't in the module.
pub(crate) fn show_from<L: Analysis>(
    alloc: Global,
    bench: &Bench<L>,
    op: OpId,
    count: u32,
) -> ShownReply
    ensures { (setting : SessionSetting) → RunsSessionCommand setting (state_of L.meaning bench.now) (ShowFrom op count) (response_of result.reply) result.shows.items (state_of L.meaning bench.now) }
{
    let world = bench.world();
    if !is_in(world, op) {
        return reply_only(alloc, Reply::Refused(Refusal::NoSuchOp));
    }
    match text_from(alloc, world, op, count) {
        Ok(shows) => ShownReply {
            reply: Reply::Done,
            shows,
        },
        Err(_) => reply_only(alloc, Reply::Refused(Refusal::Memory)),
    }
}
