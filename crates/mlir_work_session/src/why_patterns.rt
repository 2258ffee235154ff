//! Runs session commands on a rewriter with a pattern registry. A `why` that names a registered pattern says why the
//! pattern doesn't match.
ghost use Rattle.std.specs.Prelude.{◌≡◌, option_map};
ghost use Rattle.mlir_work_script.specs.SessionCommands.{session_command_of};
ghost use Rattle.mlir_work_transforms.specs.rewriter.RewriterCalls.{AgreesOrStale, state_of};
ghost use Rattle.mlir_work_transforms.specs.registry.Registry.{kept_view, registry_model};
ghost use Rattle.mlir_work_session.specs.Machine.{response_of, session_setting};
ghost use Rattle.mlir_work_session.specs.WhyPatterns.{RunsNamedCommand, AnswersWhyPattern, asked_pattern};

use crate::options::SessionOptions;
use crate::reply::Reply;
use crate::rule_lists::run_list_command;
use crate::shows::{ShownReply, reply_only};
use ir_event::analysis::Analysis;
use ir_event::types::ids::OpId;
use ir_event::types::refusal::Refusal;
use mlir_work_script::session_command::SessionCommand;
use mlir_work_session_base::analysis_source::AnalysisSource;
use mlir_work_session_base::subjects::is_in;
use mlir_work_transforms::named_patterns::find_pattern;
use mlir_work_transforms::registry::registry::{PatternRegistry, RegisteredPattern};
use mlir_work_transforms::rewriter::Bench;
use mlir_work_transforms::why_pattern::pattern_failure;
use std::alloc::Global;

/// Returns the registered pattern that a `why` names, and its operation.
fn asked_pattern<'a>(
    registry: &'a PatternRegistry,
    session_command: &SessionCommand<'_>,
) -> Option<(&'a RegisteredPattern, OpId)>
    ensures { option_map (λ p. (kept_view p.0.now, p.1)) result ≡ asked_pattern (session_command_of session_command.now) (registry_model registry.now) }
{
    match session_command {
        SessionCommand::Why {
            op,
            rule: Some(name),
        } => match find_pattern(registry, name) {
            Some(held) => Some((held, *op)),
            None => None,
        },
        _ => None,
    }
}

/// Shows why a pattern doesn't match at an operation, or that it applies. Refused with `NoSuchOp` if the operation isn't
/// in the module.
fn why_pattern<L: Analysis>(
    alloc: Global,
    bench: &Bench<L>,
    found: (&RegisteredPattern, OpId),
) -> ShownReply
    ensures { AnswersWhyPattern (kept_view found.entry.0.now) found.entry.1 (state_of L.meaning bench.now) (response_of result.reply) result.shows.items (state_of L.meaning bench.now) }
{
    let world = bench.world();
    if !is_in(world, found.1) {
        return reply_only(alloc, Reply::Refused(Refusal::NoSuchOp));
    }
    match pattern_failure(alloc, world, found.1, found.0) {
        Ok(shows) => ShownReply {
            reply: Reply::Done,
            shows,
        },
        Err(_) => reply_only(alloc, Reply::Refused(Refusal::Memory)),
    }
}

/// Runs a session command; `registry` has the user patterns. A refused command doesn't change the module.
pub fn run_named_command<L: AnalysisSource>(
    alloc: Global,
    session_options: &SessionOptions,
    bench: &mut Bench<L>,
    registry: &PatternRegistry,
    session_command: &SessionCommand<'_>,
) -> ShownReply
    requires { AgreesOrStale L.meaning bench.old }
    ensures fulfils { RunsNamedCommand (session_setting L.supply session_options.now) (registry_model registry.now) (asked_pattern (session_command_of session_command.now) (registry_model registry.now)) (state_of L.meaning bench.old) (session_command_of session_command.now) (response_of result.reply) result.shows.items (state_of L.meaning bench.new) }
    ensures kept { AgreesOrStale L.meaning bench.new }
    ensures mode { bench.new.transaction.ctx.opaque ≡ bench.old.transaction.ctx.opaque }
{
    match asked_pattern(registry, session_command) {
        Some(found) => why_pattern(alloc, bench, found),
        None => run_list_command(alloc, session_options, bench, registry, session_command),
    }
}
