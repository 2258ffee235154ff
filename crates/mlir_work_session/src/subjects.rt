//! The report rows about one operation or one value.
ghost use Rattle.std.specs.Prelude.{◌≡◌, ◌⊎◌, true, false, All, IfOk, IfErr};
ghost use Rattle.ir_event.specs.Modules.{context_model, module_in};
ghost use Rattle.ir_event.specs.Rows.{RowIsOf, rows_meaning};
ghost use Rattle.ir_event.specs.Subjects.{rows_about};
ghost use Rattle.mlir_work_transforms.specs.rewriter.RewriterCalls.{AgreesOrStale, state_of};
ghost use Rattle.mlir_work_script.specs.SessionCommands.{ReportOf};
ghost use Rattle.mlir_work_session_base.specs.RowText.{rows_text};
ghost use Rattle.mlir_work_session.specs.Machine.{RunsSessionCommand, SessionSetting, response_of};

use crate::reply::Reply;
use crate::shows::{ShownReply, reply_only};
use ir_event::analysis::Analysis;
use ir_event::row::{ReportFault, Row};
use ir_event::subject::{Subject, absent, is_there};
use ir_event::types::refusal::Refusal;
use ir_event::world::World;
use mlir_work_script_base::kind::Kind;
use mlir_work_session_base::rows::text_of_rows;
use mlir_work_transforms::rewriter::Bench;
use std::alloc::Global;

/// Returns a listener's report rows about an operation or a value. The listener must agree with the module or be stale.
fn rows_of_subject<L: Analysis>(
    listener: &L,
    world: &World,
    subject: &Subject,
) -> Result<Vec<Row>, ReportFault>
    requires { (L.meaning listener.now).agrees (context_model world.now) (module_in world.now) ⊎ ((L.meaning listener.now).stale ≡ true) }
    ensures rows { IfOk result (λ rows. rows_meaning (context_model world.now) rows.items ≡ rows_about subject.now ((L.meaning listener.now).analysis (module_in world.now).tree)) }
    ensures fresh { IfOk result (λ rows. (L.meaning listener.now).stale ≡ false) }
    ensures known { IfOk result (λ rows. All (RowIsOf (context_model world.now)) rows.items) }
    ensures stale { IfErr result (λ e. e ≡ ReportFault.Stale → (L.meaning listener.now).stale ≡ true) }
    ensures memory { IfErr result (λ e. e ≡ ReportFault.Memory → (L.meaning listener.now).stale ≡ false) }
{
    listener.report_about(world, subject)
}

/// Returns the text of a listener's report rows about an operation or a value.
fn text_about<L: Analysis>(
    alloc: Global,
    listener: &L,
    world: &World,
    subject: &Subject,
) -> Result<Vec<u8>, ReportFault>
    requires { (L.meaning listener.now).agrees (context_model world.now) (module_in world.now) ⊎ ((L.meaning listener.now).stale ≡ true) }
    ensures text { IfOk result (λ text. text.items ≡ rows_text (rows_about subject.now ((L.meaning listener.now).analysis (module_in world.now).tree))) }
    ensures fresh { IfOk result (λ text. (L.meaning listener.now).stale ≡ false) }
    ensures stale { IfErr result (λ e. e ≡ ReportFault.Stale → (L.meaning listener.now).stale ≡ true) }
    ensures memory { IfErr result (λ e. e ≡ ReportFault.Memory → (L.meaning listener.now).stale ≡ false) }
{
    let rows = match rows_of_subject(listener, world, subject) {
        Ok(rows) => rows,
        Err(fault) => return Err(fault),
    };
    let Ok(text) = text_of_rows(alloc, &world.ctx, &rows) else {
        return Err(ReportFault::Memory);
    };
    Ok(text)
}

/// Shows the report rows about an operation or a value, from the listener of a kind.
///
/// Refusals: `NoSuchOp` or `NoSuchValue` if the operation or value isn't in the module, and the refusals of a report.
pub(crate) fn show_about<L: Analysis>(
    alloc: Global,
    bench: &Bench<L>,
    kind: Kind,
    subject: &Subject,
) -> ShownReply
    requires { AgreesOrStale L.meaning bench.now }
    ensures { (setting : SessionSetting) → RunsSessionCommand setting (state_of L.meaning bench.now) (ReportOf kind subject.now) (response_of result.reply) result.shows.items (state_of L.meaning bench.now) }
{
    let world = bench.world();
    if !is_there(world, subject) {
        return reply_only(alloc, Reply::Refused(absent(subject)));
    }
    let Some(listener) = bench.listener(kind) else {
        return reply_only(alloc, Reply::Refused(Refusal::NoSuchKind));
    };
    let shows = match text_about(alloc, listener, world, subject) {
        Ok(shows) => shows,
        Err(ReportFault::Stale) => return reply_only(alloc, Reply::Refused(Refusal::Stale)),
        Err(ReportFault::Memory) => return reply_only(alloc, Reply::Refused(Refusal::Memory)),
    };
    ShownReply {
        reply: Reply::Done,
        shows,
    }
}
