//! Edits by number and marks, equivalent to the commands of the same names. A line reaches the same functions. They have
//! no text, so they don't count towards the session's input bytes.
ghost use Rattle.std.specs.Prelude.{◌≡◌, []};
ghost use Rattle.rewriter.specs.RewriterCalls.{AgreesOrStale};
ghost use Rattle.rewriter.specs.Commands.{Begin, Commit, Erase, Move, Replace, Rollback, SetOperand};
ghost use Rattle.mlir_work_script.specs.Commands.{Obey};
ghost use Rattle.mlir_work_script_base.specs.InsertionPoints.{insertion_point_of};
ghost use Rattle.mlir_work_analyses.specs.Listeners.{any_analysis};
ghost use Rattle.mlir_work_run.specs.session.Machine.{response_of};
ghost use Rattle.mlir_work_c.specs.Edits.{IsReplied};
ghost use Rattle.mlir_work_c.specs.Stepped.{Answered, setting};

use crate::answer::{Answer, answer_of};
use crate::session::Session;
use ir_event::trees::value::Value;
use ir_event::types::ids::OpId;
use mlir_work_run::insertion_points::InsertionPoint;
use mlir_work_run::reply::Reply;
use mlir_work_run::response::Response;
use mlir_work_run::{edits, marks};
use std::alloc::Global;

/// Returns the answer to an edit or a mark that got this reply. Clears the shown bytes.
fn answer_edit(alloc: Global, session: &mut Session, reply: Reply) -> Answer
    ensures { IsReplied (response_of reply) session.old result session.new }
{
    let _bytes = session.bytes;
    session.shows = Vec::new(alloc);
    answer_of(Response::RewriterReply(reply), 0)
}

/// `set-operand`: sets an operand of an operation.
pub fn set_operand(
    alloc: Global,
    session: &mut Session,
    op: OpId,
    operand: u32,
    value: Value,
) -> Answer
    requires { AgreesOrStale any_analysis session.old.bench }
    ensures answered { Answered (setting session.old []) session.old (Obey (SetOperand op operand value)) result session.new }
    ensures kept { AgreesOrStale any_analysis session.new.bench }
{
    let reply = edits::set_operand(&mut session.bench, op, operand, value);
    answer_edit(alloc, session, reply)
}

/// `replace`: replaces all uses of `old` by `new`.
pub fn replace(alloc: Global, session: &mut Session, old: Value, new: Value) -> Answer
    requires { AgreesOrStale any_analysis session.old.bench }
    ensures answered { Answered (setting session.old []) session.old (Obey (Replace old new)) result session.new }
    ensures kept { AgreesOrStale any_analysis session.new.bench }
{
    let reply = edits::replace(&mut session.bench, old, new);
    answer_edit(alloc, session, reply)
}

/// `erase`: erases an operation and everything inside it.
pub fn erase(alloc: Global, session: &mut Session, op: OpId) -> Answer
    requires { AgreesOrStale any_analysis session.old.bench }
    ensures answered { Answered (setting session.old []) session.old (Obey (Erase op)) result session.new }
    ensures kept { AgreesOrStale any_analysis session.new.bench }
{
    let reply = edits::erase(&mut session.bench, op);
    answer_edit(alloc, session, reply)
}

/// `move`: moves an operation and everything inside it.
pub fn move_op(alloc: Global, session: &mut Session, op: OpId, point: InsertionPoint) -> Answer
    requires { AgreesOrStale any_analysis session.old.bench }
    ensures answered { Answered (setting session.old []) session.old (Obey (Move op (insertion_point_of point))) result session.new }
    ensures kept { AgreesOrStale any_analysis session.new.bench }
{
    let reply = edits::move_op(&mut session.bench, op, &point);
    answer_edit(alloc, session, reply)
}

/// `begin`: makes a mark of the module.
pub fn begin(alloc: Global, session: &mut Session) -> Answer
    requires { AgreesOrStale any_analysis session.old.bench }
    ensures answered { Answered (setting session.old []) session.old (Obey Begin) result session.new }
    ensures kept { AgreesOrStale any_analysis session.new.bench }
{
    let reply = marks::begin(&mut session.bench);
    answer_edit(alloc, session, reply)
}

/// `commit`: drops the newest mark and keeps the edits since it.
pub fn commit(alloc: Global, session: &mut Session) -> Answer
    requires { AgreesOrStale any_analysis session.old.bench }
    ensures answered { Answered (setting session.old []) session.old (Obey Commit) result session.new }
    ensures kept { AgreesOrStale any_analysis session.new.bench }
{
    let reply = marks::commit(&mut session.bench);
    answer_edit(alloc, session, reply)
}

/// `rollback`: undoes all edits since the newest mark, and drops the mark.
pub fn rollback(alloc: Global, session: &mut Session) -> Answer
    requires { AgreesOrStale any_analysis session.old.bench }
    ensures answered { Answered (setting session.old []) session.old (Obey Rollback) result session.new }
    ensures kept { AgreesOrStale any_analysis session.new.bench }
{
    let reply = marks::rollback(&mut session.bench);
    answer_edit(alloc, session, reply)
}
