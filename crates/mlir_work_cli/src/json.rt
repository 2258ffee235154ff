//! Runs whose output is JSON.
ghost use Rattle.std.specs.Prelude.{◌≡◌, ◌+◌, length, false, IfOk, IfSome, OnErr};
ghost use Rattle.mlir_work_run.specs.session.Limits.{most_reads};
ghost use Rattle.mlir_work_run.specs.session.Panels.{all_shown};
ghost use Rattle.mlir_work_run.specs.session.Parts.{module_text, script_text};
ghost use Rattle.mlir_work_run.specs.session.Reads.{AreMadeAtMost, IsReadWhole};
ghost use Rattle.mlir_work_run.specs.session.Registry.{registry_model};
ghost use Rattle.mlir_work_run.specs.Ends.{HasFailed, LeavesAt};
ghost use Rattle.mlir_work_run.specs.Live.{HasFailedLive, IsLiveOf, IsWholeUpTo, divider_bytes, whole_lines};
ghost use Rattle.mlir_work_run.specs.Whole.{IsOutput, setting_with};
ghost use Rattle.mlir_work_cli.specs.Json.{Ends, EndsLive, IsJsonOf, IsJsonOutput, JsonEndedAt, JsonRan};

use mlir_work_json::printer::JsonLines;
use mlir_work_json::printing::PrintFault;
use mlir_work_run::analysis_source::AnalysisSource;
use mlir_work_run::live::{Unanswered, run_live};
use mlir_work_run::registry::PatternRegistry;
use mlir_work_run::run::{Options, run_watched};
use mlir_work_run::sink::Sink;
use mlir_work_run::source::Source;
use std::alloc::{AllocError, Global};

/// Returns the status of a run whose last line was written as JSON, or not.
fn ended(printed: Result<(), PrintFault>, status: u8) -> Result<u8, AllocError>
    ensures { Ends printed status result }
{
    match printed {
        Ok(()) => Ok(status),
        Err(PrintFault::Write) => Ok(4),
        Err(PrintFault::Memory) => Err(AllocError),
    }
}

/// Reads the whole input, a module and a script, and writes the output as JSON, one object a line. Each object is
/// written when the line is known, so only one line is held in memory. Returns the status of `run_watched`, which is 4
/// only if a read or a write failed, and the writer.
///
/// Unless the status is 4, all is flushed. At most `MAX_READS` reads are made. If memory runs out for a line, the whole
/// input was read, a prefix of the output is written, and the status is `Err`. The clauses on failed writes and on
/// flushes are about a writer that records them (`Watched`).
pub fn run_as_json<L: AnalysisSource, R: Source, W: Sink>(
    alloc: Global,
    key: u64,
    options: Options,
    reader: &mut R,
    writer: W,
    boxes: Vec<L>,
    registry: PatternRegistry,
) -> (Result<u8, AllocError>, W)
    ensures ran { IfSome (R.intake reader.old).remaining (λ input. JsonRan
        (IsJsonOutput (setting_with L.supply options (registry_model registry)) (all_shown L.meaning boxes.items) input)
        (W.stream writer).contents (W.stream result.1).contents result.0) }
    ensures leaves { (W.stream writer).failed ≡ false → IfOk result.0 (λ status. LeavesAt (R.intake reader.old) (R.intake reader.new)
        (W.stream writer) (W.stream result.1) (W.handed result.1) status) }
    ensures fault { (W.stream writer).failed ≡ false → IfOk result.0 (λ status. status ≡ 4 → HasFailed (R.intake reader.old) (R.intake reader.new) (W.stream result.1)) }
    ensures memory { (W.stream writer).failed ≡ false → OnErr result.0 (IsReadWhole (R.intake reader.old) (R.intake reader.new)) }
    ensures made { AreMadeAtMost (R.intake reader.old).reads (R.intake reader.new).reads most_reads }
{
    let mut printer = JsonLines::new(alloc, writer);
    let status = run_watched(alloc, key, options, reader, &mut printer, boxes, registry);
    if status == 4 {
        let refused = printer.has_refused();
        let writer = printer.into_inner();
        if refused {
            return (Err(AllocError), writer);
        }
        return (Ok(4), writer);
    }
    let (printed, writer) = printer.finish();
    (ended(printed, status), writer)
}

/// Returns the status of a live run whose last line was written as JSON, or not.
fn ended_live(
    printed: Result<(), PrintFault>,
    ran: Result<u8, Unanswered>,
) -> Result<u8, Unanswered>
    ensures { EndsLive printed ran result }
{
    match printed {
        Ok(()) => ran,
        Err(PrintFault::Write) => Ok(4),
        Err(PrintFault::Memory) => Err(Unanswered::Memory),
    }
}

/// Answers each line as `run_live` does, with one JSON object a line. Returns the status and the writer.
///
/// Errors: those of `run_live`; memory ran out for an object, and a prefix of the output is written. The contract is about
/// a writer that records failed writes (`Watched`).
pub fn run_live_as_json<L: AnalysisSource, R: Source, W: Sink>(
    alloc: Global,
    key: u64,
    options: Options,
    reader: &mut R,
    writer: W,
    boxes: Vec<L>,
    registry: PatternRegistry,
) -> (Result<u8, Unanswered>, W)
    ensures live { (W.stream writer).failed ≡ false → IfSome (R.intake reader.old).remaining (λ input. JsonEndedAt (length (module_text input) + divider_bytes)
        (IsJsonOf (IsLiveOf (setting_with L.supply options (registry_model registry)) (all_shown L.meaning boxes.items) input)) (whole_lines (script_text input))
        (R.intake reader.new) (W.stream writer) (W.stream result.1) (W.handed result.1) result.0) }
    ensures whole { (W.stream writer).failed ≡ false → IfSome (R.intake reader.old).remaining (λ input. JsonEndedAt (length (module_text input) + divider_bytes)
        (IsJsonOf (IsWholeUpTo (setting_with L.supply options (registry_model registry)) (all_shown L.meaning boxes.items) input)) (whole_lines (script_text input))
        (R.intake reader.new) (W.stream writer) (W.stream result.1) (W.handed result.1) result.0) }
    ensures fault { IfOk result.0 (λ status. status ≡ 4 → HasFailedLive (R.intake reader.new) (W.stream result.1)) }
{
    let mut printer = JsonLines::new(alloc, writer);
    let ran = run_live(alloc, key, options, reader, &mut printer, boxes, registry);
    if printer.is_broken() {
        let refused = printer.has_refused();
        let writer = printer.into_inner();
        if refused {
            return (Err(Unanswered::Memory), writer);
        }
        return (Ok(4), writer);
    }
    let (printed, writer) = printer.finish();
    (ended_live(printed, ran), writer)
}
