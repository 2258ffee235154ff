//! Session commands on rules at one operation: `why` says why rules don't match there, and `canon_at` canonicalizes
//! there.
ghost use Rattle.std.specs.Prelude.{◌≡◌, ℕ, [], Bool, Option, Some, option_map};
ghost use Rattle.ir_event.specs.Modules.{Module};
ghost use Rattle.ir_text.specs.Public.{IsFull};
ghost use Rattle.mlir_work_script.specs.SessionCommands.{CanonAt, Why};
ghost use Rattle.mlir_work_script_base.specs.RuleNames.{name_of};
ghost use Rattle.mlir_work_transforms.specs.At.{canonicalizing_at};
ghost use Rattle.mlir_work_transforms.specs.WhyText.{requested_rules, rules_to_explain};
ghost use Rattle.mlir_work_transforms.specs.rewriter.Commands.{RuleName as Name};
ghost use Rattle.mlir_work_transforms.specs.rewriter.Held.{module_held};
ghost use Rattle.mlir_work_transforms.specs.rewriter.RewriterCalls.{AgreesOrStale, state_of};
ghost use Rattle.mlir_work_transforms.specs.rewriter.Panels.{Shown};
ghost use Rattle.mlir_work_session.specs.Machine.{RunsSessionCommand, IsContextFull, SessionSetting, limit_or, response_of, session_setting};

use crate::options::SessionOptions;
use crate::reply::Reply;
use crate::replying::reply_canonical;
use crate::shows::{ShownReply, reply_only};
use crate::transforming::limit_of;
use ir_event::analysis::Analysis;
use ir_event::types::ids::OpId;
use ir_event::types::refusal::Refusal;
use mlir_work_script_base::rule_name::RuleName;
use mlir_work_session_base::subjects::is_in;
use mlir_work_transforms::apply::rule_named;
use mlir_work_transforms::at::canonicalize_at;
use mlir_work_transforms::greedy::patterns::rule::Rule;
use mlir_work_transforms::rewriter::Bench;
use mlir_work_transforms::rewriter::laws::led_benches_are_kept;
use mlir_work_transforms::why::match_failure as lines_of;
use std::alloc::Global;

/// Shows why a rule doesn't match at an operation. Without a rule, shows it for each rule in the table for the
/// operation's name.
fn reasons_reply<L: Analysis>(
    alloc: Global,
    bench: &Bench<L>,
    op: OpId,
    rule: Option<Rule>,
) -> ShownReply
    ensures { (setting : SessionSetting) (name : Option Name) → requested_rules name op (module_held bench.now.transaction) ≡ Some (rules_to_explain rule op (module_held bench.now.transaction)) → RunsSessionCommand setting (state_of L.meaning bench.now) (Why op name) (response_of result.reply) result.shows.items (state_of L.meaning bench.now) }
{
    let world = bench.world();
    if !is_in(world, op) {
        return reply_only(alloc, Reply::Refused(Refusal::NoSuchOp));
    }
    match lines_of(alloc, world, op, rule) {
        Ok(shows) => ShownReply {
            reply: Reply::Done,
            shows,
        },
        Err(_) => reply_only(alloc, Reply::Refused(Refusal::Memory)),
    }
}

/// Returns the rule that the command names: `Some(None)` if it names none, and `None` if no rule has that name.
fn rule_argument(name: Option<RuleName<'_>>) -> Option<Option<Rule>>
    ensures { (x : ℕ) (m : Module) → option_map (λ rule. rules_to_explain rule x m) result ≡ requested_rules (option_map name_of name.entry) x m }
{
    let Some(name) = name else {
        return Some(None);
    };
    match rule_named(&name) {
        Some(rule) => Some(Some(rule)),
        None => None,
    }
}

/// Shows why the named rule doesn't match at an operation. Without a name, shows it for each rule in the table for the
/// operation's name.
pub(crate) fn why<L: Analysis>(
    alloc: Global,
    bench: &Bench<L>,
    op: OpId,
    name: Option<RuleName<'_>>,
) -> ShownReply
    ensures { (setting : SessionSetting) → RunsSessionCommand setting (state_of L.meaning bench.now) (Why op (option_map name_of name.entry)) (response_of result.reply) result.shows.items (state_of L.meaning bench.now) }
{
    let Some(rule) = rule_argument(name) else {
        return reply_only(alloc, Reply::Refused(Refusal::NoSuchKey));
    };
    reasons_reply(alloc, bench, op, rule)
}

/// Applies the canonicalization rules at one operation until none applies there or the limit is reached.
pub(crate) fn canon_at<L: Analysis>(
    alloc: Global,
    session_options: &SessionOptions,
    bench: &mut Bench<L>,
    op: OpId,
    limit: Option<u32>,
) -> Reply
    requires { AgreesOrStale L.meaning bench.old }
    ensures fulfils { (supply : Bool → ℕ → Option Shown) → RunsSessionCommand (session_setting supply session_options.now) (state_of L.meaning bench.old) (CanonAt op limit) (response_of result) [] (state_of L.meaning bench.new) }
    ensures headroom { IsContextFull (IsFull bench.new.transaction.ctx) (state_of L.meaning bench.old) (canonicalizing_at (limit_or session_options.now.limit limit) op) (response_of result) }
    ensures kept { AgreesOrStale L.meaning bench.new }
    ensures mode { bench.new.transaction.ctx.opaque ≡ bench.old.transaction.ctx.opaque }
{
    led_benches_are_kept::<L>();
    reply_canonical(canonicalize_at(alloc, bench, op, limit_of(session_options, limit)))
}
