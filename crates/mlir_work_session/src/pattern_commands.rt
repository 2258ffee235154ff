//! Runs commands on a rewriter with a pattern registry. An `apply` that names a registered pattern applies the
//! pattern.
ghost use Rattle.std.specs.Prelude.{◌≡◌, option_map};
ghost use Rattle.ir_text.specs.Public.{IsFull};
ghost use Rattle.mlir_work_script.specs.Commands.{said_of};
ghost use Rattle.mlir_work_transforms.specs.Applying.{applied_reply, applying_user_pattern};
ghost use Rattle.mlir_work_transforms.specs.rewriter.RewriterCalls.{AgreesOrStale, state_of};
ghost use Rattle.mlir_work_transforms.specs.rewriter.Commands.{Replied};
ghost use Rattle.mlir_work_transforms.specs.registry.Notices.{IsWithin, notice_of};
ghost use Rattle.mlir_work_transforms.specs.registry.Replies.{is_accepted};
ghost use Rattle.mlir_work_transforms.specs.registry.Registry.{registry_model, kept_view};
ghost use Rattle.mlir_work_session.specs.Machine.{IsContextFull, response_of, bytes_if};
ghost use Rattle.mlir_work_session.specs.Sittings.{AppliesUserPattern, NextToHeadroom, ByRewriter, RunsPatternCommand, registered_pattern_of, sitting_of};

use crate::commands::run_command;
use crate::options::SessionOptions;
use crate::parse_error::reply_within;
use crate::reply::Reply;
use crate::replying::reply_applied;
use crate::shows::{ShownReply, reply_only};
use ir_event::analysis::Analysis;
use ir_event::types::ids::OpId;
use ir_event::types::refusal::Refusal;
use mlir_work_script::command::Command;
use mlir_work_transforms::apply_pattern;
use mlir_work_transforms::named_patterns::find_pattern;
use mlir_work_transforms::registry::registry::{PatternRegistry, RegisteredPattern};
use mlir_work_transforms::registry::response::{Response, ShownResponse};
use mlir_work_transforms::rewriter::Bench;
use mlir_work_transforms::rewriter::laws::led_benches_are_kept;
use mlir_work_transforms::unproved::unproved_one;
use std::alloc::Global;

/// Returns the registered pattern that a command names, with the operation to which the command applies it.
fn registered_pattern_of<'a>(
    registry: &'a PatternRegistry,
    command: &Command<'_>,
) -> Option<(&'a RegisteredPattern, OpId)>
    ensures { option_map (λ p. (kept_view p.0.now, p.1)) result ≡ registered_pattern_of (said_of command.now) (registry_model registry.now) }
{
    match command {
        Command::Apply { rule, op } => match find_pattern(registry, rule) {
            Some(held) => Some((held, *op)),
            None => None,
        },
        _ => None,
    }
}

/// Returns the reply to applying a user pattern. Unless it was refused, the line for an unproved pattern is shown
/// below.
fn apply_reply(alloc: Global, unproved: Vec<u8>, called: Result<bool, Refusal>) -> ShownReply
    ensures reply { response_of result.reply ≡ Replied (applied_reply called) }
    ensures shows { result.shows.items ≡ bytes_if (is_accepted (Replied (applied_reply called))) unproved.items }
{
    match called {
        Ok(applied) => ShownReply {
            reply: reply_applied(Ok(applied)),
            shows: unproved,
        },
        Err(refusal) => reply_only(alloc, Reply::Refused(refusal)),
    }
}

/// Applies a registered pattern at an operation, and shows a line if no check proves the pattern for the module.
fn apply_user_pattern<L: Analysis>(
    alloc: Global,
    bench: &mut Bench<L>,
    found: (&RegisteredPattern, OpId),
) -> ShownReply
    requires { AgreesOrStale L.meaning bench.old }
    ensures applies { AppliesUserPattern (kept_view found.entry.0.now) found.entry.1 (state_of L.meaning bench.old) (response_of result.reply) result.shows.items (state_of L.meaning bench.new) }
    ensures headroom { IsContextFull (IsFull bench.new.transaction.ctx) (state_of L.meaning bench.old) (applying_user_pattern (kept_view found.entry.0.now).rewrite_pattern found.entry.1) (response_of result.reply) }
    ensures kept { AgreesOrStale L.meaning bench.new }
    ensures mode { bench.new.transaction.ctx.opaque ≡ bench.old.transaction.ctx.opaque }
{
    led_benches_are_kept::<L>();
    let Ok(unproved) = unproved_one(alloc, bench.world(), found.0) else {
        return reply_only(alloc, Reply::Refused(Refusal::Memory));
    };
    let called = apply_pattern::apply_pattern(alloc, bench, &found.0.pattern, found.1);
    apply_reply(alloc, unproved, called)
}

/// Runs a command; `registry` has the user patterns. A refused command doesn't change the module.
pub fn run_pattern_command<L: Analysis>(
    alloc: Global,
    session_options: &SessionOptions,
    bench: &mut Bench<L>,
    registry: &PatternRegistry,
    command: &Command<'_>,
) -> ShownReply
    requires kept { AgreesOrStale L.meaning bench.old }
    requires mode { bench.old.transaction.ctx.opaque ≡ session_options.now.opaque }
    ensures obeys { RunsPatternCommand session_options.now (registered_pattern_of (said_of command.now) (registry_model registry.now)) (state_of L.meaning bench.old) (said_of command.now) (response_of result.reply) result.shows.items (state_of L.meaning bench.new) }
    ensures headroom { NextToHeadroom (IsFull bench.new.transaction.ctx) session_options.now (registered_pattern_of (said_of command.now) (registry_model registry.now)) (state_of L.meaning bench.old) (said_of command.now) (response_of result.reply) }
    ensures kept { AgreesOrStale L.meaning bench.new }
    ensures mode { bench.new.transaction.ctx.opaque ≡ bench.old.transaction.ctx.opaque }
{
    match registered_pattern_of(registry, command) {
        Some(found) => apply_user_pattern(alloc, bench, found),
        None => run_command(alloc, session_options, bench, command),
    }
}

/// Runs the command of a line, and returns the response with the bytes to show below it.
pub(crate) fn answer_command<L: Analysis>(
    alloc: Global,
    session_options: &SessionOptions,
    bench: &mut Bench<L>,
    registry: &PatternRegistry,
    command: &Command<'_>,
) -> ShownResponse
    requires kept { AgreesOrStale L.meaning bench.old }
    requires mode { bench.old.transaction.ctx.opaque ≡ session_options.now.opaque }
    ensures obeys { ByRewriter (λ response u. RunsPatternCommand session_options.now (registered_pattern_of (said_of command.now) (registry_model registry.now)) (state_of L.meaning bench.old) (said_of command.now) response result.shows.items u) (sitting_of L.meaning bench.old registry.now) (notice_of result.notice) (sitting_of L.meaning bench.new registry.now) }
    ensures bounded { IsWithin session_options.now.bytes (notice_of result.notice) }
    ensures kept { AgreesOrStale L.meaning bench.new }
    ensures mode { bench.new.transaction.ctx.opaque ≡ bench.old.transaction.ctx.opaque }
{
    let answered = run_pattern_command(alloc, session_options, bench, registry, command);
    ShownResponse {
        notice: Response::RewriterReply(reply_within(session_options.bytes, answered.reply)),
        shows: answered.shows,
    }
}
