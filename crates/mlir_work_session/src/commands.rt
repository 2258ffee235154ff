//! Runs the editing and report commands of a script on the rewriter (`Bench`).
ghost use Rattle.std.specs.Prelude.{◌≡◌};
ghost use Rattle.mlir_work_script.specs.Commands.{said_of};
ghost use Rattle.mlir_work_transforms.specs.rewriter.RewriterCalls.{AgreesOrStale, state_of};
ghost use Rattle.ir_text.specs.Public.{IsFull};
ghost use Rattle.mlir_work_session.specs.Machine.{AsksHeadroom, RunsCommand, response_of};

use crate::options::SessionOptions;
use crate::rewriting::rewrite;
use crate::shows::{ShownReply, reply_only, show_module, show_rows};
use crate::{edits, marks, texts, transforming};
use ir_event::analysis::Analysis;
use mlir_work_script::command::Command;
use mlir_work_transforms::rewriter::Bench;
use mlir_work_transforms::trace_form::TraceForm;
use std::alloc::Global;

/// Runs a command and returns the reply with the bytes to show below it. A refused command doesn't change the module.
pub fn run_command<L: Analysis>(
    alloc: Global,
    session_options: &SessionOptions,
    bench: &mut Bench<L>,
    command: &Command<'_>,
) -> ShownReply
    requires kept { AgreesOrStale L.meaning bench.old }
    requires mode { bench.old.transaction.ctx.opaque ≡ session_options.now.opaque }
    ensures obeys { RunsCommand session_options.now (state_of L.meaning bench.old) (said_of command.now) (response_of result.reply) result.shows.items (state_of L.meaning bench.new) }
    ensures headroom { AsksHeadroom (IsFull bench.new.transaction.ctx) session_options.now (state_of L.meaning bench.old) (said_of command.now) (response_of result.reply) }
    ensures kept { AgreesOrStale L.meaning bench.new }
    ensures mode { bench.new.transaction.ctx.opaque ≡ bench.old.transaction.ctx.opaque }
{
    match command {
        Command::Report(kind) => show_rows(alloc, bench, *kind),
        Command::Print => show_module(alloc, bench),
        Command::SetOperand { op, operand, value } => {
            reply_only(alloc, edits::set_operand(bench, *op, *operand, *value))
        }
        Command::Replace { old, new } => reply_only(alloc, edits::replace(bench, *old, *new)),
        Command::Erase(op) => reply_only(alloc, edits::erase(bench, *op)),
        Command::Move { op, point } => reply_only(alloc, edits::move_op(bench, *op, point)),
        Command::Insert { point, operation } => {
            reply_only(
                alloc,
                texts::insert(session_options, bench, point, operation),
            )
        }
        Command::SetAttr { op, key, attribute } => {
            reply_only(
                alloc,
                texts::set_attr(alloc, session_options, bench, *op, key, attribute),
            )
        }
        Command::DropAttr { op, key } => reply_only(
            alloc,
            edits::drop_attr(alloc, bench, *op, key),
        ),
        Command::Canon(limit) => rewrite(
            alloc,
            session_options,
            bench,
            None,
            *limit,
            TraceForm::Off,
        ),
        Command::Convert { full, clauses } => {
            reply_only(
                alloc,
                transforming::convert_plainly(alloc, bench, *full, clauses),
            )
        }
        Command::Sweep => reply_only(alloc, transforming::sweep(alloc, bench)),
        Command::Apply { rule, op } => reply_only(
            alloc,
            transforming::apply_named_rule(alloc, bench, rule, *op),
        ),
        Command::Begin => reply_only(alloc, marks::begin(bench)),
        Command::Commit => reply_only(alloc, marks::commit(bench)),
        Command::Rollback => reply_only(alloc, marks::rollback(bench)),
        Command::Detach(kind) => reply_only(alloc, marks::detach(bench, *kind)),
        Command::Resync(kind) => reply_only(alloc, marks::resync(bench, *kind)),
    }
}
