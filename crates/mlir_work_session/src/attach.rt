//! Attaches listeners to the rewriter in the order given.
ghost use Rattle.std.specs.Prelude.{◌≡◌, ◌&&◌, is_none};
ghost use Rattle.mlir_work_script_base.specs.Writes.{Writes};
ghost use Rattle.mlir_work_transforms.specs.rewriter.Panels.{shown, all_shown};
ghost use Rattle.mlir_work_transforms.specs.rewriter.RewriterCalls.{AgreesOrStale};
ghost use Rattle.mlir_work_session.specs.Output.{Attaches, AttachedOrRefused, box_line};
ghost use Rattle.mlir_work_session.specs.Ran.{AttachedOut};

use crate::listing::kind_of;
use ir_event::analysis::Analysis;
use ir_event::types::refusal::Refusal;
use mlir_work_script::replies::write_attach_refused;
use mlir_work_script_base::kind::Kind;
use mlir_work_script_base::sink::Sink;
use mlir_work_script_base::writing::WriteFault;
use mlir_work_transforms::rewriter::Bench;

/// Attaches a listener. Returns the refusal if it can't be attached.
fn attach<L: Analysis>(bench: &mut Bench<L>, listener: L) -> Option<Refusal>
    requires { AgreesOrStale L.meaning bench.old }
    ensures candidates { AttachedOrRefused (shown (L.meaning listener)) (all_shown L.meaning bench.old.listeners) (all_shown L.meaning bench.new.listeners) result }
    ensures transaction { bench.new.transaction ≡ bench.old.transaction }
    ensures kept { AgreesOrStale L.meaning bench.new }
{
    match bench.attach(listener) {
        Ok(()) => {}
        Err((refusal, _)) => return Some(refusal),
    }
    None
}

/// Writes an error line for a listener that was refused. Writes nothing for an attached listener.
fn write_attach_result<W: Sink>(
    writer: &mut W,
    kind: Kind,
    candidates: Option<Refusal>,
) -> Result<(), WriteFault>
    ensures { Writes (W.stream writer.old) (W.stream writer.new) (box_line kind candidates) result }
{
    match candidates {
        None => Ok(()),
        Some(refusal) => write_attach_refused(writer, kind, refusal),
    }
}

fn both(accepted: bool, candidates: Option<Refusal>) -> bool
    ensures { result ≡ (accepted && is_none candidates) }
{
    accepted && candidates.is_none()
}

/// Attaches listeners in order, and writes an error line for each refused listener. Returns `true` if all were
/// attached.
pub fn attach_all<L: Analysis, W: Sink>(
    bench: &mut Bench<L>,
    boxes: Vec<L>,
    writer: &mut W,
) -> Result<bool, WriteFault>
    requires { AgreesOrStale L.meaning bench.old }
    ensures attached { AttachedOut (Attaches (all_shown L.meaning boxes.items) (all_shown L.meaning bench.old.listeners)) (all_shown L.meaning bench.new.listeners) (W.stream writer.old) (W.stream writer.new) result }
    ensures transaction { bench.new.transaction ≡ bench.old.transaction }
    ensures kept { AgreesOrStale L.meaning bench.new }
{
    let mut accepted = true;
    for listener in boxes {
        let kind = kind_of(&listener);
        let candidates = attach(bench, listener);
        match write_attach_result(writer, kind, candidates) {
            Ok(()) => {}
            Err(fault) => return Err(fault),
        }
        accepted = both(accepted, candidates);
    }
    Ok(accepted)
}
