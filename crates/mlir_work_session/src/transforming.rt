//! Commands that transform the module.
ghost use Rattle.std.specs.Prelude.{◌≡◌, [], Some};
ghost use Rattle.mlir_work_transforms.specs.rewriter.Commands.{Apply, Convert, Sweep};
ghost use Rattle.mlir_work_transforms.specs.rewriter.Machine.{Transformation};
ghost use Rattle.mlir_work_script.specs.SessionCommands.{TraceConvert};
ghost use Rattle.mlir_work_script_base.specs.RuleNames.{name_of};
ghost use Rattle.mlir_work_transforms.specs.Applying.{application};
ghost use Rattle.mlir_work_transforms.specs.rewriter.RewriterCalls.{AgreesOrStale, state_of};
ghost use Rattle.mlir_work_script_base.specs.Clauses.{clauses_of, target_of};
ghost use Rattle.ir_text.specs.Public.{IsFull};
ghost use Rattle.mlir_work_transforms.specs.Converting.{conversion};
ghost use Rattle.mlir_work_session.specs.Machine.{RunsSessionCommand, IsContextFull, RunsCommand, SessionSetting, limit_or, response_of};
ghost use Rattle.mlir_work_session.specs.Output.{SessionOptions as Setting};

use crate::options::SessionOptions;
use crate::reply::Reply;
use crate::replying::{reply_applied, reply_converted, reply_swept};
use crate::shows::ShownReply;
use ir_event::analysis::Analysis;
use ir_event::types::ids::OpId;
use ir_event::types::refusal::Refusal;
use mlir_work_script_base::clauses::Clauses;
use mlir_work_script_base::rule_name::RuleName;
use mlir_work_transforms::convert::{convert, convert_traced};
use mlir_work_transforms::rewriter::Bench;
use mlir_work_transforms::rewriter::laws::led_benches_are_kept;
use mlir_work_transforms::tracer::NoTracer;
use mlir_work_transforms::{apply, sweep};
use std::alloc::Global;

/// Returns the rewrite limit of a command: its own, or the session's default.
pub(crate) fn limit_of(session_options: &SessionOptions, limit: Option<u32>) -> u32
    ensures { result ≡ limit_or session_options.now.limit limit }
{
    match limit {
        Some(limit) => limit,
        None => session_options.limit,
    }
}

/// Erases the private symbols that nothing reaches.
pub(crate) fn sweep<L: Analysis>(alloc: Global, bench: &mut Bench<L>) -> Reply
    requires { AgreesOrStale L.meaning bench.old }
    ensures obeys { (setting : Setting) → RunsCommand setting (state_of L.meaning bench.old) Sweep (response_of result) [] (state_of L.meaning bench.new) }
    ensures kept { AgreesOrStale L.meaning bench.new }
    ensures mode { bench.new.transaction.ctx.opaque ≡ bench.old.transaction.ctx.opaque }
{
    led_benches_are_kept::<L>();
    reply_swept(sweep::sweep(alloc, bench))
}

/// Converts the module to the target of the clauses and reconciles type casts.
pub(crate) fn convert_plainly<L: Analysis>(
    alloc: Global,
    bench: &mut Bench<L>,
    full: bool,
    clauses: &Clauses<'_>,
) -> Reply
    requires { AgreesOrStale L.meaning bench.old }
    ensures obeys { (setting : Setting) → RunsCommand setting (state_of L.meaning bench.old) (Convert (target_of full (clauses_of clauses.now))) (response_of result) [] (state_of L.meaning bench.new) }
    ensures headroom { IsContextFull (IsFull bench.new.transaction.ctx) (state_of L.meaning bench.old) (conversion (target_of full (clauses_of clauses.now))) (response_of result) }
    ensures kept { AgreesOrStale L.meaning bench.new }
    ensures mode { bench.new.transaction.ctx.opaque ≡ bench.old.transaction.ctx.opaque }
{
    led_benches_are_kept::<L>();
    reply_converted(convert(alloc, bench, full, clauses, &mut NoTracer))
}

/// Applies the named rule at an operation. Refused with `NoSuchKey` if no rule has the name.
pub(crate) fn apply_named_rule<L: Analysis>(
    alloc: Global,
    bench: &mut Bench<L>,
    name: &RuleName<'_>,
    op: OpId,
) -> Reply
    requires { AgreesOrStale L.meaning bench.old }
    ensures obeys { (setting : Setting) → RunsCommand setting (state_of L.meaning bench.old) (Apply (name_of name.now) op) (response_of result) [] (state_of L.meaning bench.new) }
    ensures headroom { (f : Transformation) → application (name_of name.now) op ≡ Some f → IsContextFull (IsFull bench.new.transaction.ctx) (state_of L.meaning bench.old) f (response_of result) }
    ensures kept { AgreesOrStale L.meaning bench.new }
    ensures mode { bench.new.transaction.ctx.opaque ≡ bench.old.transaction.ctx.opaque }
{
    led_benches_are_kept::<L>();
    let Some(rule) = apply::rule_named(name) else {
        return Reply::Refused(Refusal::NoSuchKey);
    };
    reply_applied(apply::apply_rule(alloc, bench, rule, op))
}

/// Converts the module as `convert_plainly` does, and traces each applied rule, or shows why an operation stays illegal.
pub(crate) fn trace_conversion<L: Analysis>(
    alloc: Global,
    bench: &mut Bench<L>,
    full: bool,
    clauses: &Clauses<'_>,
) -> ShownReply
    requires { AgreesOrStale L.meaning bench.old }
    ensures fulfils { (setting : SessionSetting) → RunsSessionCommand setting (state_of L.meaning bench.old) (TraceConvert (target_of full (clauses_of clauses.now))) (response_of result.reply) result.shows.items (state_of L.meaning bench.new) }
    ensures headroom { IsContextFull (IsFull bench.new.transaction.ctx) (state_of L.meaning bench.old) (conversion (target_of full (clauses_of clauses.now))) (response_of result.reply) }
    ensures kept { AgreesOrStale L.meaning bench.new }
    ensures mode { bench.new.transaction.ctx.opaque ≡ bench.old.transaction.ctx.opaque }
{
    led_benches_are_kept::<L>();
    let traced = convert_traced(alloc, bench, full, clauses);
    ShownReply {
        reply: reply_converted(traced.called),
        shows: traced.lines,
    }
}
