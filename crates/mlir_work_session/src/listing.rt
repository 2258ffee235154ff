//! Writes the listing below a reply: the module, then the report rows of each listener.
ghost use Rattle.std.specs.Prelude.{◌≡◌, ◌⊎◌, ◌++◌, true};
ghost use Rattle.ir_event.specs.Modules.{context_model, module_in};
ghost use Rattle.ir_event.specs.Panels.{AllKept};
ghost use Rattle.mlir_work_script.specs.Replies.{kind_line};
ghost use Rattle.mlir_work_script_base.specs.Writes.{Writes, WritesSome};
ghost use Rattle.mlir_work_transforms.specs.rewriter.Panels.{shown, all_shown};
ghost use Rattle.mlir_work_transforms.specs.rewriter.RewriterCalls.{AgreesOrStale, state_of};
ghost use Rattle.mlir_work_session.specs.Output.{IsModule, IsKind, AreKinds, IsListing};

use crate::shows::{text_of_module, text_of_report};
use ir_event::analysis::Analysis;
use ir_event::row::ReportFault;
use ir_event::world::World;
use mlir_work_script::replies::{
    write_module_memory, write_report_heading, write_report_memory, write_report_stale,
};
use mlir_work_script_base::kind::Kind;
use mlir_work_script_base::sink::Sink;
use mlir_work_script_base::writing::{WriteFault, write};
use mlir_work_transforms::rewriter::Bench;
use std::alloc::Global;

/// Writes the module's text, or an error line if memory runs out.
fn write_module<W: Sink>(alloc: Global, world: &World, writer: &mut W) -> Result<(), WriteFault>
    ensures { WritesSome (IsModule (module_in world.now).tree) (W.stream writer.old) (W.stream writer.new) result }
{
    match text_of_module(alloc, world) {
        Ok(text) => write(writer, &text),
        Err(_) => write_module_memory(writer),
    }
}

/// Writes report rows below the heading of their kind.
fn write_rows<W: Sink>(writer: &mut W, kind: Kind, text: &[u8]) -> Result<(), WriteFault>
    ensures { Writes (W.stream writer.old) (W.stream writer.new) (kind_line kind ++ text.now) result }
{
    match write_report_heading(writer, kind) {
        Ok(()) => write(writer, text),
        Err(fault) => Err(fault),
    }
}

/// Returns the kind of a listener.
pub(crate) fn kind_of<L: Analysis>(listener: &L) -> Kind
    ensures { result ≡ (L.meaning listener.now).kind }
{
    listener.kind()
}

/// Writes the report rows of a listener, or a line that says why there are none.
fn write_listener<L: Analysis, W: Sink>(
    alloc: Global,
    world: &World,
    listener: &L,
    writer: &mut W,
) -> Result<(), WriteFault>
    requires { (L.meaning listener.now).agrees (context_model world.now) (module_in world.now) ⊎ ((L.meaning listener.now).stale ≡ true) }
    ensures { WritesSome (IsKind (module_in world.now).tree (shown (L.meaning listener.now))) (W.stream writer.old) (W.stream writer.new) result }
{
    let kind = kind_of(listener);
    match text_of_report(alloc, listener, world) {
        Ok(text) => write_rows(writer, kind, &text),
        Err(ReportFault::Stale) => write_report_stale(writer, kind),
        Err(ReportFault::Memory) => write_report_memory(writer, kind),
    }
}

fn write_listeners<L: Analysis, W: Sink>(
    alloc: Global,
    world: &World,
    listeners: &[L],
    writer: &mut W,
) -> Result<(), WriteFault>
    requires { AllKept L.meaning (context_model world.now) (module_in world.now) listeners.now }
    ensures { WritesSome (AreKinds (module_in world.now).tree (all_shown L.meaning listeners.now)) (W.stream writer.old) (W.stream writer.new) result }
{
    for listener in listeners {
        match write_listener(alloc, world, listener, writer) {
            Ok(()) => {}
            Err(fault) => return Err(fault),
        }
    }
    Ok(())
}

/// Writes the module and the report rows of each listener.
pub fn write_listing<L: Analysis, W: Sink>(
    alloc: Global,
    bench: &Bench<L>,
    writer: &mut W,
) -> Result<(), WriteFault>
    requires { AgreesOrStale L.meaning bench.now }
    ensures { WritesSome (IsListing (state_of L.meaning bench.now)) (W.stream writer.old) (W.stream writer.new) result }
{
    let world = bench.world();
    match write_module(alloc, world, writer) {
        Ok(()) => write_listeners(alloc, world, bench.listeners(), writer),
        Err(fault) => Err(fault),
    }
}
