//! Commands that rewrite the whole module: `canon` and `rewrite`, without lines, with a trace of each rewrite, or with
//! counts of the rules and patterns that fired.
ghost use Rattle.std.specs.Prelude.{◌≡◌, ◌++◌, Option, Some, option_map};
ghost use Rattle.std.specs.Option.{option_copied};
ghost use Rattle.ir_text.specs.Public.{IsFull};
ghost use Rattle.mlir_work_transforms.specs.registry.Replies.{is_accepted};
ghost use Rattle.mlir_work_transforms.specs.registry.RuleLists.{names_of};
ghost use Rattle.mlir_work_transforms.specs.FiredLaws.{IsFresh, names_of as names_in};
ghost use Rattle.mlir_work_transforms.specs.TraceText.{tracing};
ghost use Rattle.mlir_work_transforms.specs.Transforming.{MayTransform, lines_below, set_of, transformation_of};
ghost use Rattle.mlir_work_transforms.specs.greedy.Changes.{canonical_reply};
ghost use Rattle.mlir_work_transforms.specs.greedy.Tracing.{trace_of};
ghost use Rattle.mlir_work_transforms.specs.rewriter.RewriterCalls.{AgreesOrStale, state_of};
ghost use Rattle.mlir_work_transforms.specs.rewriter.Commands.{Ask, Follows, Replied};
ghost use Rattle.mlir_work_transforms.specs.rewriter.Machine.{Change, Nothing, Transformation};
ghost use Rattle.mlir_work_session.specs.Machine.{IsContextFull, limit_or, response_of, bytes_if};
ghost use Rattle.mlir_work_session.specs.Rewrites.{RunsRewrite};

use crate::options::SessionOptions;
use crate::reply::Reply;
use crate::replying::reply_canonical;
use crate::shows::{ShownReply, reply_only};
use crate::transforming::limit_of;
use ir_event::analysis::Analysis;
use ir_event::types::refusal::Refusal;
use mlir_work_transforms::greedy::outcome::Outcome as Ended;
use mlir_work_transforms::rewrite::rules_in;
use mlir_work_transforms::rewrite_lines::RewriteLines;
use mlir_work_transforms::rewriter::Bench;
use mlir_work_transforms::rewriter::laws::led_benches_are_kept;
use mlir_work_transforms::rule_choice::RuleChoice;
use mlir_work_transforms::trace_form::TraceForm;
use mlir_work_transforms::transform::transform;
use std::alloc::Global;

/// Returns the reply to a rewrite. The lines are shown below an accepted reply only.
fn rewrite_reply(alloc: Global, lines: RewriteLines, called: Result<Ended, Refusal>) -> ShownReply
    ensures reply { response_of result.reply ≡ Replied (canonical_reply called) }
    ensures shows { result.shows.items ≡ bytes_if (is_accepted (Replied (canonical_reply called))) lines.text.items }
{
    match called {
        Ok(ended) => ShownReply {
            reply: reply_canonical(Ok(ended)),
            shows: lines.text,
        },
        Err(refusal) => reply_only(alloc, Reply::Refused(refusal)),
    }
}

/// Rewrites by the chosen rules until none applies or the limit of `lines` is reached. Shows the text of `lines` below
/// an accepted reply, and then the lines of their form.
pub(crate) fn rewrite_by<L: Analysis>(
    alloc: Global,
    bench: &mut Bench<L>,
    rules: &RuleChoice<'_>,
    lines: RewriteLines,
) -> ShownReply
    requires kept { AgreesOrStale L.meaning bench.old }
    requires may { MayTransform rules.now }
    requires fresh { IsFresh lines }
    ensures follows { Follows (state_of L.meaning bench.old) (Ask (Change (transformation_of rules.now lines.limit))) (response_of result.reply) Nothing (state_of L.meaning bench.new) }
    ensures shows { result.shows.items ≡ bytes_if (is_accepted (response_of result.reply)) (lines.text.items ++ lines_below lines.form (response_of result.reply) (names_in lines) (trace_of (set_of rules.now) lines.limit (state_of L.meaning bench.old).held)) }
    ensures headroom { IsContextFull (IsFull bench.new.transaction.ctx) (state_of L.meaning bench.old) (transformation_of rules.now lines.limit) (response_of result.reply) }
    ensures kept { AgreesOrStale L.meaning bench.new }
    ensures mode { bench.new.transaction.ctx.opaque ≡ bench.old.transaction.ctx.opaque }
{
    led_benches_are_kept::<L>();
    let mut lines = lines;
    let called = transform(alloc, bench, rules, &mut lines);
    rewrite_reply(alloc, lines, called)
}

/// Rewrites by the named rules, or by the canonicalization rules if none are named, until none applies or the limit is
/// reached. Shows the lines of a form. Refused with `NoSuchKey` if a name isn't a rule's.
pub(crate) fn rewrite<L: Analysis>(
    alloc: Global,
    session_options: &SessionOptions,
    bench: &mut Bench<L>,
    rules: Option<&[u8]>,
    limit: Option<u32>,
    form: TraceForm,
) -> ShownReply
    requires { AgreesOrStale L.meaning bench.old }
    ensures rewrites { RunsRewrite session_options.now form (option_map names_of (option_copied rules.entry)) limit (state_of L.meaning bench.old) (response_of result.reply) result.shows.items (state_of L.meaning bench.new) }
    ensures headroom { (f : Transformation) → tracing (option_map names_of (option_copied rules.entry)) (limit_or session_options.now.limit limit) ≡ Some f → IsContextFull (IsFull bench.new.transaction.ctx) (state_of L.meaning bench.old) f (response_of result.reply) }
    ensures kept { AgreesOrStale L.meaning bench.new }
    ensures mode { bench.new.transaction.ctx.opaque ≡ bench.old.transaction.ctx.opaque }
{
    let limit = limit_of(session_options, limit);
    let Some(list) = rules else {
        let lines = RewriteLines::of_rules(alloc, form, limit);
        return rewrite_by(alloc, bench, &RuleChoice::Canonical, lines);
    };
    let rules = match rules_in(alloc, list) {
        Ok(Some(rules)) => rules,
        Ok(None) => return reply_only(alloc, Reply::Refused(Refusal::NoSuchKey)),
        Err(refusal) => return reply_only(alloc, Reply::Refused(refusal)),
    };
    let lines = RewriteLines::of_rules(alloc, form, limit);
    rewrite_by(alloc, bench, &RuleChoice::Listed(&rules), lines)
}
