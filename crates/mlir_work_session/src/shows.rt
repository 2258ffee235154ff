//! The bytes that commands show below a reply: the module's text, or a listener's report rows.
ghost use Rattle.std.specs.Prelude.{◌≡◌, ◌⊎◌, [], true, false, All, IfOk, IfErr};
ghost use Rattle.ir_event.specs.Modules.{context_model, module_in};
ghost use Rattle.ir_event.specs.Rows.{RowIsOf, rows_meaning};
ghost use Rattle.ir_text.specs.Printing.{text_of};
ghost use Rattle.mlir_work_transforms.specs.rewriter.Commands.{Report, Print};
ghost use Rattle.mlir_work_transforms.specs.rewriter.RewriterCalls.{AgreesOrStale, state_of};
ghost use Rattle.mlir_work_session_base.specs.RowText.{rows_text};
ghost use Rattle.mlir_work_session.specs.Machine.{RunsCommand, response_of};
ghost use Rattle.mlir_work_session.specs.Output.{SessionOptions};
ghost use Rattle.mlir_work_transforms.specs.registry.declared.reply.Reply.TheVariants.{Refused};

use crate::reply::Reply;
use ir_event::analysis::Analysis;
use ir_event::row::{ReportFault, Row};
use ir_event::types::refusal::Refusal;
use ir_event::world::World;
use ir_text::printer::print;
use mlir_work_script_base::kind::Kind;
use mlir_work_session_base::rows::text_of_rows;
use mlir_work_transforms::rewriter::Bench;
use std::alloc::Global;

/// A reply and the bytes that are shown below it.
#[derive(Drop)]
pub struct ShownReply {
    pub reply: Reply,
    pub shows: Vec<u8>,
}

/// Returns a refusal with nothing below it.
fn refused(alloc: Global, refusal: Refusal) -> ShownReply
    ensures reply { result.reply ≡ Refused refusal }
    ensures shows { result.shows.items ≡ [] }
{
    reply_only(alloc, Reply::Refused(refusal))
}

/// Returns the text of the module.
pub(crate) fn text_of_module(alloc: Global, world: &World) -> Result<Vec<u8>, Refusal>
    ensures { IfOk result (λ text. text.items ≡ text_of (module_in world.now).tree) }
{
    let Ok(tree) = world.store.tree() else {
        return Err(Refusal::Memory);
    };
    match print(alloc, &world.ctx, &tree) {
        Ok(text) => Ok(text),
        Err(_) => Err(Refusal::Memory),
    }
}

pub(crate) fn show_module<L: Analysis>(alloc: Global, bench: &Bench<L>) -> ShownReply
    ensures { (session_options : SessionOptions) → RunsCommand session_options (state_of L.meaning bench.now) Print (response_of result.reply) result.shows.items (state_of L.meaning bench.now) }
{
    let Ok(shows) = text_of_module(alloc, bench.world()) else {
        return refused(alloc, Refusal::Memory);
    };
    ShownReply {
        reply: Reply::Done,
        shows,
    }
}

/// Returns the report rows of a listener. The listener must agree with the module or be stale.
pub(crate) fn rows_of<L: Analysis>(listener: &L, world: &World) -> Result<Vec<Row>, ReportFault>
    requires { (L.meaning listener.now).agrees (context_model world.now) (module_in world.now) ⊎ ((L.meaning listener.now).stale ≡ true) }
    ensures rows { IfOk result (λ rows. rows_meaning (context_model world.now) rows.items ≡ (L.meaning listener.now).analysis (module_in world.now).tree) }
    ensures fresh { IfOk result (λ rows. (L.meaning listener.now).stale ≡ false) }
    ensures known { IfOk result (λ rows. All (RowIsOf (context_model world.now)) rows.items) }
    ensures stale { IfErr result (λ e. e ≡ ReportFault.Stale → (L.meaning listener.now).stale ≡ true) }
    ensures memory { IfErr result (λ e. e ≡ ReportFault.Memory → (L.meaning listener.now).stale ≡ false) }
{
    listener.report()
}

/// Returns the text of a listener's report rows.
pub(crate) fn text_of_report<L: Analysis>(
    alloc: Global,
    listener: &L,
    world: &World,
) -> Result<Vec<u8>, ReportFault>
    requires { (L.meaning listener.now).agrees (context_model world.now) (module_in world.now) ⊎ ((L.meaning listener.now).stale ≡ true) }
    ensures text { IfOk result (λ text. text.items ≡ rows_text ((L.meaning listener.now).analysis (module_in world.now).tree)) }
    ensures fresh { IfOk result (λ text. (L.meaning listener.now).stale ≡ false) }
    ensures stale { IfErr result (λ e. e ≡ ReportFault.Stale → (L.meaning listener.now).stale ≡ true) }
    ensures memory { IfErr result (λ e. e ≡ ReportFault.Memory → (L.meaning listener.now).stale ≡ false) }
{
    let rows = match rows_of(listener, world) {
        Ok(rows) => rows,
        Err(fault) => return Err(fault),
    };
    let Ok(text) = text_of_rows(alloc, &world.ctx, &rows) else {
        return Err(ReportFault::Memory);
    };
    Ok(text)
}

pub(crate) fn show_rows<L: Analysis>(alloc: Global, bench: &Bench<L>, kind: Kind) -> ShownReply
    requires { AgreesOrStale L.meaning bench.now }
    ensures { (session_options : SessionOptions) → RunsCommand session_options (state_of L.meaning bench.now) (Report kind) (response_of result.reply) result.shows.items (state_of L.meaning bench.now) }
{
    let Some(listener) = bench.listener(kind) else {
        return refused(alloc, Refusal::NoSuchKind);
    };
    let shows = match text_of_report(alloc, listener, bench.world()) {
        Ok(shows) => shows,
        Err(ReportFault::Stale) => return refused(alloc, Refusal::Stale),
        Err(ReportFault::Memory) => return refused(alloc, Refusal::Memory),
    };
    ShownReply {
        reply: Reply::Done,
        shows,
    }
}

/// Returns a reply with nothing below it.
pub(crate) fn reply_only(alloc: Global, reply: Reply) -> ShownReply
    ensures reply { result.reply ≡ reply }
    ensures shows { result.shows.items ≡ [] }
{
    ShownReply {
        reply,
        shows: Vec::new(alloc),
    }
}
