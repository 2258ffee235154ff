//! A whole session: attaches listeners to a parsed module and runs a script on it.
ghost use Rattle.std.specs.Prelude.{◌≡◌, [], if◌then◌else◌};
ghost use Rattle.ir_event.specs.Modules.{module_in};
ghost use Rattle.mlir_work_transforms.specs.rewriter.Journals.{TracksRemovedKeys, HasNoStaleIds};
ghost use Rattle.mlir_work_transforms.specs.rewriter.Held.{module_held, open_marks};
ghost use Rattle.mlir_work_transforms.specs.rewriter.Panels.{all_shown};
ghost use Rattle.mlir_work_transforms.specs.registry.Registry.{registry_model};
ghost use Rattle.mlir_work_session.specs.Machine.{session_setting};
ghost use Rattle.mlir_work_session.specs.Output.{IsSession, IsBadScript, Session, worse as worst};
ghost use Rattle.mlir_work_session.specs.Ran.{RanOut};

use crate::opening::begin;
use crate::options::SessionOptions;
use crate::script::run_script;
use ir_event::types::refusal::Refusal;
use ir_event::world::World;
use mlir_work_script::replies::write_refused;
use mlir_work_script_base::input::script_is_too_long;
use mlir_work_script_base::sink::Sink;
use mlir_work_script_base::writing::WriteFault;
use mlir_work_session_base::analysis_source::AnalysisSource;
use mlir_work_transforms::registry::registry::PatternRegistry;
use mlir_work_transforms::rewriter::Bench;
use std::alloc::Global;

fn worse(accepted: bool, status: u8) -> u8
    ensures { result ≡ worst accepted status }
{
    if accepted { status } else { 1 }
}

/// Begins a session and runs a script.
fn attach_and_run<L: AnalysisSource, W: Sink>(
    alloc: Global,
    session_options: &SessionOptions,
    bench: &mut Bench<L>,
    script: &[u8],
    writer: &mut W,
    boxes: Vec<L>,
    registry: PatternRegistry,
) -> Result<u8, WriteFault>
    requires none { bench.old.listeners ≡ [] }
    requires unmarked { open_marks bench.old.transaction ≡ [] }
    requires mode { bench.old.transaction.ctx.opaque ≡ session_options.now.opaque }
    ensures { RanOut (Session (session_setting L.supply session_options.now) (registry_model registry) (all_shown L.meaning boxes.items) (module_held bench.old.transaction) script.now) (W.stream writer.old) (W.stream writer.new) result }
{
    let accepted = match begin(session_options.ends, bench, boxes, writer) {
        Ok(accepted) => accepted,
        Err(fault) => return Err(fault),
    };
    let mut registry = registry;
    match run_script(alloc, session_options, bench, &mut registry, script, writer) {
        Ok(status) => Ok(worse(accepted, status)),
        Err(fault) => Err(fault),
    }
}

/// Writes the reply that refuses a script over the size limit.
fn refuse_script<W: Sink>(writer: &mut W) -> Result<u8, WriteFault>
    ensures { RanOut IsBadScript (W.stream writer.old) (W.stream writer.new) result }
{
    match write_refused(writer, 1, Refusal::BadCommand) {
        Ok(()) => Ok(1),
        Err(fault) => Err(fault),
    }
}

/// Attaches listeners to a module in order, runs a script on it, and writes the answers one by one. `registry` has
/// the user patterns. Returns status 1 if a listener or a command was refused, and 0 otherwise. A script over its
/// size limit is answered like one bad command.
pub fn run_session<L: AnalysisSource, W: Sink>(
    alloc: Global,
    session_options: &SessionOptions,
    world: World,
    script: &[u8],
    writer: &mut W,
    boxes: Vec<L>,
    registry: PatternRegistry,
) -> Result<u8, WriteFault>
    requires slotted { TracksRemovedKeys world.store }
    requires tidy { HasNoStaleIds world.store }
    requires mode { world.ctx.opaque ≡ session_options.now.opaque }
    ensures { RanOut (IsSession (session_setting L.supply session_options.now) (registry_model registry) (all_shown L.meaning boxes.items) (module_in world) script.now) (W.stream writer.old) (W.stream writer.new) result }
{
    if script_is_too_long(script) {
        return refuse_script(writer);
    }
    let mut bench = Bench::from_world(alloc, world);
    attach_and_run(
        alloc,
        session_options,
        &mut bench,
        script,
        writer,
        boxes,
        registry,
    )
}
