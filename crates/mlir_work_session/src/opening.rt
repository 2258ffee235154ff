//! The start of a session: attaches listeners to a parsed module.
ghost use Rattle.std.specs.Prelude.{◌≡◌, []};
ghost use Rattle.mlir_work_transforms.specs.rewriter.RewriterCalls.{AgreesOrStale, state_of};
ghost use Rattle.mlir_work_transforms.specs.rewriter.Held.{module_held, open_marks};
ghost use Rattle.mlir_work_transforms.specs.rewriter.Panels.{all_shown};
ghost use Rattle.mlir_work_session.specs.Output.{Begun};
ghost use Rattle.mlir_work_session.specs.Ran.{AttachedOut};

use crate::attach::attach_all;
use crate::script::write_end;
use ir_event::analysis::Analysis;
use mlir_work_script_base::sink::Sink;
use mlir_work_script_base::writing::WriteFault;
use mlir_work_transforms::rewriter::Bench;

/// Begins a session on a rewriter without listeners and without open marks. Attaches `boxes` in order and writes an
/// error line for each refused listener. If `ends` is set, an empty line follows. Returns `true` if no listener was
/// refused.
pub fn begin<L: Analysis, W: Sink>(
    ends: bool,
    bench: &mut Bench<L>,
    boxes: Vec<L>,
    writer: &mut W,
) -> Result<bool, WriteFault>
    requires none { bench.old.listeners ≡ [] }
    requires unmarked { open_marks bench.old.transaction ≡ [] }
    ensures begun { AttachedOut (Begun ends (all_shown L.meaning boxes.items) (module_held bench.old.transaction)) (state_of L.meaning bench.new) (W.stream writer.old) (W.stream writer.new) result }
    ensures kept { AgreesOrStale L.meaning bench.new }
    ensures mode { bench.new.transaction.ctx.opaque ≡ bench.old.transaction.ctx.opaque }
{
    let accepted = match attach_all(bench, boxes, writer) {
        Ok(accepted) => accepted,
        Err(fault) => return Err(fault),
    };
    match write_end(writer, ends) {
        Ok(()) => Ok(accepted),
        Err(fault) => Err(fault),
    }
}
