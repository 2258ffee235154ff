//! Runs the session commands of a script on the rewriter.
ghost use Rattle.std.specs.Prelude.{◌≡◌, [], IfOk};
ghost use Rattle.ir_event.specs.Modules.{module_in};
ghost use Rattle.mlir_work_transforms.specs.rewriter.RewriterCalls.{AgreesOrStale, attach_reply_of, state_of};
ghost use Rattle.mlir_work_transforms.specs.rewriter.Commands.{Replied};
ghost use Rattle.mlir_work_script.specs.SessionCommands.{Attach, PrintIds, session_command_of};
ghost use Rattle.ir_text.specs.Public.{IsFull};
ghost use Rattle.mlir_work_session.specs.Machine.{RunsSessionCommand, SessionCommandHeadroom, SessionSetting, response_of, session_setting};
ghost use Rattle.mlir_work_session_base.specs.IdsText.{ids_text};

use crate::options::SessionOptions;
use crate::reply::Reply;
use crate::rewriting::rewrite;
use crate::shows::{ShownReply, reply_only};
use crate::subjects::show_about;
use crate::transforming::trace_conversion;
use crate::{showing, why};
use ir_event::analysis::Analysis;
use ir_event::types::refusal::Refusal;
use ir_event::world::World;
use mlir_work_script::session_command::SessionCommand;
use mlir_work_script_base::kind::Kind;
use mlir_work_session_base::analysis_source::AnalysisSource;
use mlir_work_session_base::ids::text_with_ids;
use mlir_work_transforms::rewriter::Bench;
use mlir_work_transforms::trace_form::TraceForm;
use std::alloc::Global;

/// Returns the reply to attaching a listener.
fn reply_attached<L: Analysis>(called: Result<(), (Refusal, L)>) -> Reply
    ensures { response_of result ≡ Replied (attach_reply_of called) }
{
    match called {
        Ok(()) => Reply::Done,
        Err((refusal, _)) => Reply::Refused(refusal),
    }
}

/// Creates the analysis of a kind and attaches it.
fn attach<L: AnalysisSource>(alloc: Global, opaque: bool, bench: &mut Bench<L>, kind: Kind) -> Reply
    requires { AgreesOrStale L.meaning bench.old }
    ensures fulfils { (setting : SessionSetting) → setting.supply ≡ L.supply opaque → RunsSessionCommand setting (state_of L.meaning bench.old) (Attach kind) (response_of result) [] (state_of L.meaning bench.new) }
    ensures kept { AgreesOrStale L.meaning bench.new }
    ensures mode { bench.new.transaction.ctx.opaque ≡ bench.old.transaction.ctx.opaque }
{
    let Some(listener) = L::new_of_kind(alloc, opaque, kind) else {
        return Reply::Refused(Refusal::NoSuchKind);
    };
    reply_attached(bench.attach(listener))
}

/// Returns the text of the module with the ids of its operations.
fn text_of_ids(alloc: Global, world: &World) -> Result<Vec<u8>, Refusal>
    ensures { IfOk result (λ text. text.items ≡ ids_text (module_in world.now).tree) }
{
    let Ok(tree) = world.store.tree() else {
        return Err(Refusal::Memory);
    };
    match text_with_ids(alloc, &world.ctx, &tree) {
        Ok(text) => Ok(text),
        Err(_) => Err(Refusal::Memory),
    }
}

/// Shows the module with the ids of its operations.
fn show_ids<L: Analysis>(alloc: Global, bench: &Bench<L>) -> ShownReply
    ensures { (setting : SessionSetting) → RunsSessionCommand setting (state_of L.meaning bench.now) PrintIds (response_of result.reply) result.shows.items (state_of L.meaning bench.now) }
{
    let Ok(shows) = text_of_ids(alloc, bench.world()) else {
        return reply_only(alloc, Reply::Refused(Refusal::Memory));
    };
    ShownReply {
        reply: Reply::Done,
        shows,
    }
}

/// Runs a session command. A refused command doesn't change the module.
pub fn run_session_command<L: AnalysisSource>(
    alloc: Global,
    session_options: &SessionOptions,
    bench: &mut Bench<L>,
    session_command: &SessionCommand<'_>,
) -> ShownReply
    requires { AgreesOrStale L.meaning bench.old }
    ensures fulfils { RunsSessionCommand (session_setting L.supply session_options.now) (state_of L.meaning bench.old) (session_command_of session_command.now) (response_of result.reply) result.shows.items (state_of L.meaning bench.new) }
    ensures headroom { SessionCommandHeadroom (IsFull bench.new.transaction.ctx) (session_setting L.supply session_options.now) (state_of L.meaning bench.old) (session_command_of session_command.now) (response_of result.reply) }
    ensures kept { AgreesOrStale L.meaning bench.new }
    ensures mode { bench.new.transaction.ctx.opaque ≡ bench.old.transaction.ctx.opaque }
{
    match session_command {
        SessionCommand::Attach(kind) => reply_only(
            alloc,
            attach(alloc, session_options.opaque, bench, *kind),
        ),
        SessionCommand::PrintIds => show_ids(alloc, bench),
        SessionCommand::ReportAbout { kind, subject } => show_about(alloc, bench, *kind, subject),
        SessionCommand::Rewrite { rules, limit, .. } => rewrite(
            alloc,
            session_options,
            bench,
            Some(*rules),
            *limit,
            TraceForm::Off,
        ),
        SessionCommand::Trace { rules, limit, .. } => rewrite(
            alloc,
            session_options,
            bench,
            *rules,
            *limit,
            TraceForm::EachRewrite,
        ),
        SessionCommand::Fired { rules, limit, .. } => rewrite(
            alloc,
            session_options,
            bench,
            *rules,
            *limit,
            TraceForm::Counts,
        ),
        SessionCommand::TraceConvert { full, clauses } => trace_conversion(
            alloc, bench, *full, clauses,
        ),
        SessionCommand::CanonAt { op, limit } => {
            reply_only(
                alloc,
                why::canon_at(alloc, session_options, bench, *op, *limit),
            )
        }
        SessionCommand::Why { op, rule } => why::why(alloc, bench, *op, *rule),
        SessionCommand::ShowAll => showing::show_all(alloc, bench),
        SessionCommand::ShowFrom { op, count } => showing::show_from(alloc, bench, *op, *count),
    }
}
