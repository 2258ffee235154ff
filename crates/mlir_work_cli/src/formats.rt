//! Runs an input, or answers lines, in the format of the command line.
ghost use Rattle.std.specs.Prelude.{◌≡◌, ◌+◌, ℕ, length, map, false, IfOk, IfSome, Result};
ghost use Rattle.mlir_work_run.specs.session.Panels.{all_shown};
ghost use Rattle.mlir_work_run.specs.session.Registry.{registry_model};
ghost use Rattle.mlir_work_run.specs.session.Parts.{module_text, script_text};
ghost use Rattle.mlir_work_run.specs.Ends.{HasFailed, HasStatus};
ghost use Rattle.mlir_work_run.specs.Live.{IsLiveOf, divider_bytes, whole_lines};
ghost use Rattle.mlir_work_run.specs.Whole.{setting_with};
ghost use Rattle.mlir_work_run.specs.declared.live.Unanswered.{Unanswered as Unreplied};
ghost use Rattle.mlir_work_cli.specs.Formats.{IsOutputIn, LiveEndedIn, divider_in, live_status};
ghost use Rattle.mlir_work_cli.specs.Starts.{BeginsWith};

use crate::json::{run_as_json, run_live_as_json};
use crate::options::{CommandLine, Format};
use crate::pattern_files::{PatternFile, registry_again};
use mlir_work_run::analysis_source::AnalysisSource;
use mlir_work_run::live::{Unanswered, run_live};
use mlir_work_run::registry::PatternRegistry;
use mlir_work_run::run::{Options, run_watched};
use mlir_work_run::sink::Sink;
use mlir_work_run::source::Source;
use std::alloc::{AllocError, Global};

/// What a run begins with.
#[derive(Drop)]
pub struct Start<'g, 'p, 'a> {
    /// The command line.
    pub given: &'g CommandLine<'a>,
    /// The pattern files of the command line.
    pub patterns: &'p [PatternFile<'a>],
    /// The key with which names are hashed. The output doesn't depend on it.
    pub key: u64,
}

/// Returns the separator between the outputs of two inputs.
pub fn divider_in(format: Format) -> &'static [u8]
    ensures { result.now ≡ divider_in format }
{
    match format {
        Format::Text => b"// -----\n",
        Format::Json => b"{\"divider\":true}\n",
    }
}

/// Runs an input in a format, with these patterns. Returns the status and the writer.
fn run_in<L: AnalysisSource, R: Source, W: Sink + Drop>(
    alloc: Global,
    start: &Start<'_, '_, '_>,
    reader: &mut R,
    writer: W,
    boxes: Vec<L>,
    registry: PatternRegistry,
) -> Result<(u8, W), AllocError>
    ensures ran { IfOk result (λ ended. IfSome (R.intake reader.old).remaining (λ input. HasStatus
        (IsOutputIn start.now.given.now.format (setting_with L.supply start.now.given.now.options (registry_model registry)) (all_shown L.meaning boxes.items) input)
        (W.stream writer).contents (W.stream ended.1).contents ended.0)) }
    ensures fault { (W.stream writer).failed ≡ false → IfOk result (λ ended. ended.0 ≡ 4 → HasFailed (R.intake reader.old) (R.intake reader.new) (W.stream ended.1)) }
{
    let (key, options) = (start.key, start.given.options);
    match start.given.format {
        Format::Text => {
            let mut writer = writer;
            let status = run_watched(alloc, key, options, reader, &mut writer, boxes, registry);
            Ok((status, writer))
        }
        Format::Json => {
            let (ran, writer) = run_as_json(alloc, key, options, reader, writer, boxes, registry);
            match ran {
                Ok(status) => Ok((status, writer)),
                Err(fault) => Err(fault),
            }
        }
    }
}

/// Reads the whole input, a module and a script, and writes its output in the format of the command line, with its
/// options and the patterns of its files. Returns the status, which is 4 only if a read or a write failed, and the
/// writer. The clause on failed writes is about a writer that records them (`Watched`).
///
/// Errors: memory runs out for the patterns or for a line of JSON.
pub fn run_given<L: AnalysisSource, R: Source, W: Sink + Drop>(
    alloc: Global,
    start: &Start<'_, '_, '_>,
    reader: &mut R,
    writer: W,
    boxes: Vec<L>,
) -> Result<(u8, W), AllocError>
    ensures ran { IfOk result (λ ended. IfSome (R.intake reader.old).remaining (λ input.
        BeginsWith (map (λ f. f.text.items) start.now.patterns.now) (λ registry. HasStatus
        (IsOutputIn start.now.given.now.format (setting_with L.supply start.now.given.now.options registry) (all_shown L.meaning boxes.items) input)
        (W.stream writer).contents (W.stream ended.1).contents ended.0))) }
    ensures fault { (W.stream writer).failed ≡ false → IfOk result (λ ended. ended.0 ≡ 4 → HasFailed (R.intake reader.old) (R.intake reader.new) (W.stream ended.1)) }
{
    let registry = match registry_again(alloc, start.patterns) {
        Ok(registry) => registry,
        Err(fault) => return Err(fault),
    };
    run_in(alloc, start, reader, writer, boxes, registry)
}

/// Returns the exit status of a live run.
fn live_status(ran: Result<u8, Unanswered>) -> u8
    ensures { result ≡ live_status ran }
{
    match ran {
        Ok(status) => status,
        Err(_) => 4,
    }
}

/// Answers lines in a format, with these patterns. Returns how the run ended, and the writer.
fn answer_in<L: AnalysisSource, R: Source, W: Sink + Drop>(
    alloc: Global,
    start: &Start<'_, '_, '_>,
    reader: &mut R,
    writer: W,
    boxes: Vec<L>,
    registry: PatternRegistry,
) -> (Result<u8, Unanswered>, W)
    ensures live { (W.stream writer).failed ≡ false → IfSome (R.intake reader.old).remaining (λ input. LiveEndedIn start.now.given.now.format (length (module_text input) + divider_bytes)
        (IsLiveOf (setting_with L.supply start.now.given.now.options (registry_model registry)) (all_shown L.meaning boxes.items) input) (whole_lines (script_text input))
        (R.intake reader.new) (W.stream writer) (W.stream result.1) (W.handed result.1) result.0) }
{
    let (key, options) = (start.key, start.given.options);
    match start.given.format {
        Format::Text => {
            let mut writer = writer;
            let ran = run_live(alloc, key, options, reader, &mut writer, boxes, registry);
            (ran, writer)
        }
        Format::Json => run_live_as_json(alloc, key, options, reader, writer, boxes, registry),
    }
}

/// Answers each line at once in the format of the command line, with its options and the patterns of its files. Returns
/// the status, which is also 4 if a line is too long or memory ran out for it, and the writer. The contract is about a
/// writer that records failed writes (`Watched`).
///
/// Errors: memory runs out for the patterns.
pub fn answer_given<L: AnalysisSource, R: Source, W: Sink + Drop>(
    alloc: Global,
    start: &Start<'_, '_, '_>,
    reader: &mut R,
    writer: W,
    boxes: Vec<L>,
) -> Result<(u8, W), AllocError>
    ensures { (W.stream writer).failed ≡ false → IfOk result (λ ended. IfSome (R.intake reader.old).remaining (λ input.
        BeginsWith (map (λ f. f.text.items) start.now.patterns.now) (λ registry. (ran : Result ℕ Unreplied) × (ended.0 ≡ live_status ran)
        × LiveEndedIn start.now.given.now.format (length (module_text input) + divider_bytes)
        (IsLiveOf (setting_with L.supply start.now.given.now.options registry) (all_shown L.meaning boxes.items) input) (whole_lines (script_text input))
        (R.intake reader.new) (W.stream writer) (W.stream ended.1) (W.handed ended.1) ran))) }
{
    let registry = match registry_again(alloc, start.patterns) {
        Ok(registry) => registry,
        Err(fault) => return Err(fault),
    };
    let (ran, writer) = answer_in(alloc, start, reader, writer, boxes, registry);
    Ok((live_status(ran), writer))
}
