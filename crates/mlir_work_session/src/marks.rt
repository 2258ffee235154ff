//! Commands on marks and listeners.
ghost use Rattle.std.specs.Prelude.{◌≡◌, []};
ghost use Rattle.mlir_work_transforms.specs.rewriter.Commands.{Begin, Commit, Detach, Resync, Rollback};
ghost use Rattle.mlir_work_transforms.specs.rewriter.RewriterCalls.{AgreesOrStale, state_of};
ghost use Rattle.mlir_work_session.specs.Machine.{RunsCommand, response_of};
ghost use Rattle.mlir_work_session.specs.Output.{SessionOptions};

use crate::reply::Reply;
use crate::replying::reply_to;
use ir_event::analysis::Analysis;
use mlir_work_script_base::kind::Kind;
use mlir_work_transforms::rewriter::Bench;
use mlir_work_transforms::rewriter::laws::led_benches_are_kept;

/// Pushes a mark of the current module.
pub fn begin<L: Analysis>(bench: &mut Bench<L>) -> Reply
    requires { AgreesOrStale L.meaning bench.old }
    ensures obeys { (session_options : SessionOptions) → RunsCommand session_options (state_of L.meaning bench.old) Begin (response_of result) [] (state_of L.meaning bench.new) }
    ensures kept { AgreesOrStale L.meaning bench.new }
    ensures mode { bench.new.transaction.ctx.opaque ≡ bench.old.transaction.ctx.opaque }
{
    led_benches_are_kept::<L>();
    reply_to(bench.mark())
}

/// Pops the newest mark and keeps the edits since it.
pub fn commit<L: Analysis>(bench: &mut Bench<L>) -> Reply
    requires { AgreesOrStale L.meaning bench.old }
    ensures obeys { (session_options : SessionOptions) → RunsCommand session_options (state_of L.meaning bench.old) Commit (response_of result) [] (state_of L.meaning bench.new) }
    ensures kept { AgreesOrStale L.meaning bench.new }
    ensures mode { bench.new.transaction.ctx.opaque ≡ bench.old.transaction.ctx.opaque }
{
    led_benches_are_kept::<L>();
    reply_to(bench.commit())
}

/// Undoes all edits since the newest mark, and pops the mark.
pub fn rollback<L: Analysis>(bench: &mut Bench<L>) -> Reply
    requires { AgreesOrStale L.meaning bench.old }
    ensures obeys { (session_options : SessionOptions) → RunsCommand session_options (state_of L.meaning bench.old) Rollback (response_of result) [] (state_of L.meaning bench.new) }
    ensures kept { AgreesOrStale L.meaning bench.new }
    ensures mode { bench.new.transaction.ctx.opaque ≡ bench.old.transaction.ctx.opaque }
{
    led_benches_are_kept::<L>();
    reply_to(bench.rollback())
}

/// Detaches the listener of a kind.
pub(crate) fn detach<L: Analysis>(bench: &mut Bench<L>, kind: Kind) -> Reply
    requires { AgreesOrStale L.meaning bench.old }
    ensures obeys { (session_options : SessionOptions) → RunsCommand session_options (state_of L.meaning bench.old) (Detach kind) (response_of result) [] (state_of L.meaning bench.new) }
    ensures kept { AgreesOrStale L.meaning bench.new }
    ensures mode { bench.new.transaction.ctx.opaque ≡ bench.old.transaction.ctx.opaque }
{
    reply_to(bench.detach(kind))
}

/// Computes the report of the listener of a kind again from the current module.
pub(crate) fn resync<L: Analysis>(bench: &mut Bench<L>, kind: Kind) -> Reply
    requires { AgreesOrStale L.meaning bench.old }
    ensures obeys { (session_options : SessionOptions) → RunsCommand session_options (state_of L.meaning bench.old) (Resync kind) (response_of result) [] (state_of L.meaning bench.new) }
    ensures kept { AgreesOrStale L.meaning bench.new }
    ensures mode { bench.new.transaction.ctx.opaque ≡ bench.old.transaction.ctx.opaque }
{
    reply_to(bench.resync(kind))
}
