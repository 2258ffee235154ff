//! Runs session commands on a rewriter with a pattern registry. A `rewrite`, with `trace`, `fired` or neither, whose
//! rule list names a registered pattern rewrites by rules and patterns.
ghost use Rattle.std.specs.Prelude.{◌≡◌, ◌==◌, ◌&&◌, length, not, option_map};
ghost use Rattle.ir_text.specs.Public.{IsFull};
ghost use Rattle.mlir_work_script.specs.SessionCommands.{session_command_of};
ghost use Rattle.mlir_work_transforms.specs.rewriter.RewriterCalls.{AgreesOrStale, state_of};
ghost use Rattle.mlir_work_transforms.specs.registry.Registry.{registry_model};
ghost use Rattle.mlir_work_session.specs.Machine.{response_of, session_setting};
ghost use Rattle.mlir_work_session.specs.RuleLists.{RunsListCommand, ListCommandHeadroom, AnswersRuleListUnless, is_unproved, list_command_of};
ghost use Rattle.mlir_work_session.specs.ListCommandViews.{list_command_view};

use crate::options::SessionOptions;
use crate::reply::Reply;
use crate::rewriting::rewrite_by;
use crate::session_commands::run_session_command;
use crate::shows::{ShownReply, reply_only};
use crate::transforming::limit_of;
use ir_event::analysis::Analysis;
use ir_event::types::refusal::Refusal;
use mlir_work_script::session_command::SessionCommand;
use mlir_work_session_base::analysis_source::AnalysisSource;
use mlir_work_transforms::named_patterns::names_pattern;
use mlir_work_transforms::registry::registry::PatternRegistry;
use mlir_work_transforms::rewrite_lines::RewriteLines;
use mlir_work_transforms::rewriter::Bench;
use mlir_work_transforms::rule_choice::RuleChoice;
use mlir_work_transforms::rule_list::{RuleList, parse_rule_list};
use mlir_work_transforms::trace_form::TraceForm;
use mlir_work_transforms::unproved::unproved_of;
use std::alloc::Global;

/// A rule list that names a registered pattern, with its limit and the form of its trace. If `proved`, the command is
/// refused unless checks prove all patterns of the list for the module.
#[derive(Clone, Copy)]
pub(crate) struct ListRewrite<'a> {
    pub(crate) rules: &'a [u8],
    pub(crate) proved: bool,
    pub(crate) limit: Option<u32>,
    pub(crate) trace: TraceForm,
}

/// Returns the rule list of a session command, if the list names a registered pattern.
fn list_rewrite<'a>(
    registry: &PatternRegistry,
    session_command: &SessionCommand<'a>,
) -> Option<ListRewrite<'a>>
    ensures { option_map list_command_view result ≡ list_command_of (session_command_of session_command.now) (registry_model registry.now) }
{
    let list_command = match session_command {
        SessionCommand::Rewrite {
            rules,
            proved,
            limit,
        } => ListRewrite {
            rules,
            proved: *proved,
            limit: *limit,
            trace: TraceForm::Off,
        },
        SessionCommand::Trace {
            rules: Some(rules),
            proved,
            limit,
        } => ListRewrite {
            rules,
            proved: *proved,
            limit: *limit,
            trace: TraceForm::EachRewrite,
        },
        SessionCommand::Fired {
            rules: Some(rules),
            proved,
            limit,
        } => ListRewrite {
            rules,
            proved: *proved,
            limit: *limit,
            trace: TraceForm::Counts,
        },
        _ => return None,
    };
    if names_pattern(registry, list_command.rules) {
        Some(list_command)
    } else {
        None
    }
}

/// Returns whether a command that asks for proved patterns is refused because of these lines.
fn is_refused(proved: bool, lines: &[u8]) -> bool
    ensures { result ≡ (proved && not (length lines.now == 0)) }
{
    proved && !lines.is_empty()
}

/// Rewrites by the rules and patterns of a list, and shows a line for each pattern that no check proves for the
/// module. Refused with `NoSuchKey` if a name is neither a rule nor a pattern, and with `NotProved` if there is a line
/// and the command asks for proved patterns.
fn rewrite_list_command<L: Analysis>(
    alloc: Global,
    session_options: &SessionOptions,
    bench: &mut Bench<L>,
    registry: &PatternRegistry,
    list_command: &ListRewrite<'_>,
) -> ShownReply
    requires { AgreesOrStale L.meaning bench.old }
    ensures mixes { AnswersRuleListUnless (is_unproved (registry_model registry.now) (list_command_view list_command.now) (state_of L.meaning bench.old).held) session_options.now (registry_model registry.now) (list_command_view list_command.now) (state_of L.meaning bench.old) (response_of result.reply) result.shows.items (state_of L.meaning bench.new) }
    ensures headroom { ListCommandHeadroom (IsFull bench.new.transaction.ctx) session_options.now (registry_model registry.now) (list_command_view list_command.now) (state_of L.meaning bench.old) (response_of result.reply) }
    ensures kept { AgreesOrStale L.meaning bench.new }
    ensures mode { bench.new.transaction.ctx.opaque ≡ bench.old.transaction.ctx.opaque }
{
    let rule_list = match parse_rule_list(alloc, registry, list_command.rules) {
        Ok(Some(rule_list)) => rule_list,
        Ok(None) => return reply_only(alloc, Reply::Refused(Refusal::NoSuchKey)),
        Err(refusal) => return reply_only(alloc, Reply::Refused(refusal)),
    };
    let Ok(text) = unproved_of(alloc, bench.world(), registry, list_command.rules) else {
        return reply_only(alloc, Reply::Refused(Refusal::Memory));
    };
    if is_refused(list_command.proved, &text) {
        return ShownReply {
            reply: Reply::Refused(Refusal::NotProved),
            shows: text,
        };
    }
    let RuleList { candidates, names } = rule_list;
    let limit = limit_of(session_options, list_command.limit);
    let lines = RewriteLines::new(alloc, list_command.trace, limit, text, names);
    rewrite_by(alloc, bench, &RuleChoice::WithPatterns(&candidates), lines)
}

/// Runs a session command; `registry` has the user patterns. A refused command doesn't change the module.
pub fn run_list_command<L: AnalysisSource>(
    alloc: Global,
    session_options: &SessionOptions,
    bench: &mut Bench<L>,
    registry: &PatternRegistry,
    session_command: &SessionCommand<'_>,
) -> ShownReply
    requires { AgreesOrStale L.meaning bench.old }
    ensures fulfils { RunsListCommand (session_setting L.supply session_options.now) (registry_model registry.now) (list_command_of (session_command_of session_command.now) (registry_model registry.now)) (state_of L.meaning bench.old) (session_command_of session_command.now) (response_of result.reply) result.shows.items (state_of L.meaning bench.new) }
    ensures kept { AgreesOrStale L.meaning bench.new }
    ensures mode { bench.new.transaction.ctx.opaque ≡ bench.old.transaction.ctx.opaque }
{
    match list_rewrite(registry, session_command) {
        Some(list_command) => rewrite_list_command(
            alloc,
            session_options,
            bench,
            registry,
            &list_command,
        ),
        None => run_session_command(alloc, session_options, bench, session_command),
    }
}
