//! Live runs: each line is answered at once, and the answer is flushed before the next line is read.
ghost use Rattle.std.specs.Prelude.{◌≡◌, ◌≤◌, ◌+◌, ℕ, List, IfErr, IfOk, IfSome, [], length, true};
ghost use Rattle.ir_event.specs.Modules.{module_in};
ghost use Rattle.mlir_work_run.specs.Feeding.{waiting};
ghost use Rattle.mlir_work_session.specs.RewriterCalls.{AgreesOrStale, state_of};
ghost use Rattle.mlir_work_session.specs.Commands.{line_says};
ghost use Rattle.mlir_work_session.specs.Expecting.{line_expects};
ghost use Rattle.mlir_work_session.specs.Held.{module_held, open_marks};
ghost use Rattle.mlir_work_session.specs.Lines.{line_of};
ghost use Rattle.mlir_work_session.specs.Output.{Begun, IsAnswered, session_setting, worse as worst};
ghost use Rattle.mlir_work_session.specs.Limits.{most_input_bytes, most_script_bytes};
ghost use Rattle.mlir_work_session.specs.Registry.{registry_model};
ghost use Rattle.mlir_work_session.specs.Panels.{Shown, all_shown};
ghost use Rattle.mlir_work_session.specs.Parts.{module_text, script_text};
ghost use Rattle.mlir_work_session.specs.Ran.{AttachedOut, RanOut};
ghost use Rattle.mlir_work_session.specs.Sittings.{sitting_of};
ghost use Rattle.mlir_work_run.specs.Live.{AreFirst, HasFailedLive, IsLive, IsLiveOf, IsWholeUpTo, Live, LiveEnded, LiveEndedAt, LiveLeaves, Lives, divider_bytes};
ghost use Rattle.mlir_work_run.specs.Live.{exit_of, halt_of, halted_of, whole_lines};
ghost use Rattle.mlir_work_run.specs.Whole.{IsOutput, IsWorldOf, Setting, WhyNot, module_construct, setting_with};
ghost use Rattle.rewriter_machine.specs.Journals.{TracksRemovedKeys, HasNoStaleIds};

use crate::feed::{LineError, take_line};
use crate::parts::take_module;
use crate::run::{Options, ParseError, hold, no_memory, refuse, session_options_of, tree_of};
use ir_event::analysis::Analysis;
use ir_event::types::refusal::Refusal;
use ir_event::world::World;
use mlir_work_session::Bench;
use mlir_work_session::analysis_source::AnalysisSource;
use mlir_work_session::input::{MAX_INPUT_BYTES, MAX_SCRIPT_BYTES};
use mlir_work_session::lines::split_line;
use mlir_work_session::opening::begin;
use mlir_work_session::options::SessionOptions;
use mlir_work_session::registry::PatternRegistry;
use mlir_work_session::script::{accepted_so_far, answer_line, next_number};
use mlir_work_session::sink::Sink;
use mlir_work_session::source::Source;
use mlir_work_session::writing::{WriteFault, flush};
use std::alloc::Global;
use thiserror::Error;

/// The number of bytes of the divider line, with its line feed.
const DIVIDER_BYTES: usize = 9;

/// Why a live run ends before its input does.
#[derive(Clone, Copy, Debug, PartialEq, Eq, Error)]
pub enum Halt {
    /// A read failed.
    #[error("the input couldn't be read")]
    Read,
    /// A write failed.
    #[error("the output couldn't be written")]
    Write,
    /// Memory ran out for the next line.
    #[error("there was no memory for a line")]
    Memory,
    /// The next line is too long, or the byte count overflows.
    #[error("a line is too long")]
    TooLong,
}

/// Why a live run has no status.
#[derive(Clone, Copy, Debug, PartialEq, Eq, Error)]
pub enum Unanswered {
    /// Memory ran out for the next line.
    #[error("there was no memory for a line")]
    Memory,
    /// The next line is too long, or the byte count overflows.
    #[error("a line is too long")]
    TooLong,
}

fn halt_of(stop: LineError) -> Halt
    ensures { result ≡ halt_of stop }
{
    match stop {
        LineError::Broken => Halt::Read,
        LineError::Memory => Halt::Memory,
        LineError::TooMany => Halt::TooLong,
    }
}

fn halted(ran: Result<u8, WriteFault>) -> Result<u8, Halt>
    ensures { result ≡ halted_of ran }
{
    match ran {
        Ok(status) => Ok(status),
        Err(WriteFault) => Err(Halt::Write),
    }
}

/// Answers a line, with or without its line feed, and flushes the writer: one step of a live run. `n` is the number
/// of the next reply. Returns whether the outcome was right, or `None` for an empty line.
pub fn live_step<L: AnalysisSource, W: Sink>(
    alloc: Global,
    session_options: &SessionOptions,
    bench: &mut Bench<L>,
    registry: &mut PatternRegistry,
    n: u64,
    line: &[u8],
    writer: &mut W,
) -> Result<Option<bool>, WriteFault>
    requires kept { AgreesOrStale L.meaning bench.old }
    requires mode { bench.old.transaction.ctx.opaque ≡ session_options.now.opaque }
    ensures answered { RanOut (IsAnswered (session_setting L.supply session_options.now) n (sitting_of L.meaning bench.old registry.old)
        (line_expects (line_of line.now)) (line_says (line_of line.now)) (sitting_of L.meaning bench.new registry.new)) (W.stream writer.old) (W.stream writer.new) result }
    ensures handed { IfOk result (λ _. W.handed writer.new ≡ true) }
    ensures kept { AgreesOrStale L.meaning bench.new }
    ensures mode { bench.new.transaction.ctx.opaque ≡ bench.old.transaction.ctx.opaque }
{
    let (line, _) = split_line(line);
    let reported = match answer_line(alloc, session_options, bench, registry, n, line, writer) {
        Ok(reported) => reported,
        Err(fault) => return Err(fault),
    };
    match flush(writer) {
        Ok(()) => Ok(reported),
        Err(fault) => Err(fault),
    }
}

/// Begins a session, and writes and flushes the answer to its module.
fn begin_live<L: Analysis, W: Sink>(
    ends: bool,
    bench: &mut Bench<L>,
    boxes: Vec<L>,
    writer: &mut W,
) -> Result<bool, WriteFault>
    requires none { bench.old.listeners ≡ [] }
    requires unmarked { open_marks bench.old.transaction ≡ [] }
    ensures begun { AttachedOut (Begun ends (all_shown L.meaning boxes.items) (module_held bench.old.transaction))
        (state_of L.meaning bench.new) (W.stream writer.old) (W.stream writer.new) result }
    ensures handed { IfOk result (λ _. W.handed writer.new ≡ true) }
    ensures kept { AgreesOrStale L.meaning bench.new }
    ensures mode { bench.new.transaction.ctx.opaque ≡ bench.old.transaction.ctx.opaque }
{
    let accepted = match begin(ends, bench, boxes, writer) {
        Ok(accepted) => accepted,
        Err(fault) => return Err(fault),
    };
    match flush(writer) {
        Ok(()) => Ok(accepted),
        Err(fault) => Err(fault),
    }
}

/// Returns the status of a list of lines: 0 if all were accepted, else 1.
fn status_of(accepted: bool) -> u8
    ensures { result ≡ worst accepted 0 }
{
    if accepted { 0 } else { 1 }
}

/// Answers the remaining lines of an input one by one: takes a line, answers it and flushes the writer before the
/// next read. `before` is the number of bytes read before these lines.
fn answer_lines<L: AnalysisSource, R: Source, W: Sink>(
    alloc: Global,
    options: Options,
    before: usize,
    bench: &mut Bench<L>,
    registry: &mut PatternRegistry,
    kept: &mut Vec<u8>,
    reader: &mut R,
    writer: &mut W,
) -> Result<u8, Halt>
    requires kept { AgreesOrStale L.meaning bench.old }
    requires mode { bench.old.transaction.ctx.opaque ≡ options.opaque }
    requires handed { W.handed writer.old ≡ true }
    requires trailing { divider_bytes ≤ before }
    ensures ended { IfSome (waiting kept.old.items (R.intake reader.old).remaining) (λ script. LiveEnded before
        (Lives (setting_with L.supply options (registry_model registry.old)) before 1 (sitting_of L.meaning bench.old registry.old)) (whole_lines script)
        (W.stream writer.old) (W.stream writer.new) (W.handed writer.new) result) }
    ensures leaves { LiveLeaves (R.intake reader.old) (R.intake reader.new)
        (W.stream writer.old) (W.stream writer.new) (W.handed writer.new) result }
{
    let mut read = before;
    let mut n = 1u64;
    let mut accepted = true;
    'lines: loop {
        let line = match take_line(alloc, MAX_SCRIPT_BYTES, kept, reader, writer) {
            Ok(Some(line)) => line,
            Ok(None) => return Ok(status_of(accepted)),
            Err(stop) => return Err(halt_of(stop)),
        };
        let Some(more) = read.checked_add(line.len()) else {
            return Err(Halt::TooLong);
        };
        read = more;
        let session_options = session_options_of(options, read);
        let reported = match live_step(alloc, &session_options, bench, registry, n, &line, writer) {
            Ok(reported) => reported,
            Err(WriteFault) => return Err(Halt::Write),
        };
        n = next_number(n, reported);
        accepted = accepted_so_far(accepted, reported);
    }
}

fn worse(accepted: bool, status: u8) -> u8
    ensures { result ≡ worst accepted status }
{
    if accepted { status } else { 1 }
}

/// Answers a module in a rewriter and the lines after it.
fn answer_in_rewriter<L: AnalysisSource, R: Source, W: Sink>(
    alloc: Global,
    options: Options,
    before: usize,
    bench: &mut Bench<L>,
    kept: &mut Vec<u8>,
    reader: &mut R,
    writer: &mut W,
    boxes: Vec<L>,
    registry: PatternRegistry,
) -> Result<u8, Halt>
    requires none { bench.old.listeners ≡ [] }
    requires unmarked { open_marks bench.old.transaction ≡ [] }
    requires mode { bench.old.transaction.ctx.opaque ≡ options.opaque }
    requires trailing { divider_bytes ≤ before }
    ensures ended { IfSome (waiting kept.old.items (R.intake reader.old).remaining) (λ script. LiveEnded before
        (Live (setting_with L.supply options (registry_model registry)) (all_shown L.meaning boxes.items) (module_held bench.old.transaction) before)
        (whole_lines script)
        (W.stream writer.old) (W.stream writer.new) (W.handed writer.new) result) }
    ensures leaves { LiveLeaves (R.intake reader.old) (R.intake reader.new)
        (W.stream writer.old) (W.stream writer.new) (W.handed writer.new) result }
{
    let accepted = match begin_live(options.ends, bench, boxes, writer) {
        Ok(accepted) => accepted,
        Err(WriteFault) => return Err(Halt::Write),
    };
    let mut registry = registry;
    match answer_lines(
        alloc,
        options,
        before,
        bench,
        &mut registry,
        kept,
        reader,
        writer,
    ) {
        Ok(status) => Ok(worse(accepted, status)),
        Err(halt) => Err(halt),
    }
}

/// Builds a rewriter on an IR state, and answers the module and the lines after it.
fn answer_world<L: AnalysisSource, R: Source, W: Sink>(
    alloc: Global,
    options: Options,
    before: usize,
    world: World,
    kept: &mut Vec<u8>,
    reader: &mut R,
    writer: &mut W,
    boxes: Vec<L>,
    registry: PatternRegistry,
) -> Result<u8, Halt>
    requires slotted { TracksRemovedKeys world.store }
    requires tidy { HasNoStaleIds world.store }
    requires mode { world.ctx.opaque ≡ options.opaque }
    requires trailing { divider_bytes ≤ before }
    ensures ended { IfSome (waiting kept.old.items (R.intake reader.old).remaining) (λ script. LiveEnded before
        (Live (setting_with L.supply options (registry_model registry)) (all_shown L.meaning boxes.items) (module_in world) before)
        (whole_lines script)
        (W.stream writer.old) (W.stream writer.new) (W.handed writer.new) result) }
    ensures leaves { LiveLeaves (R.intake reader.old) (R.intake reader.new)
        (W.stream writer.old) (W.stream writer.new) (W.handed writer.new) result }
{
    let mut bench = Bench::from_world(alloc, world);
    answer_in_rewriter(
        alloc, options, before, &mut bench, kept, reader, writer, boxes, registry,
    )
}

/// Parses a module's text and builds its IR state.
fn world_of(alloc: Global, key: u64, opaque: bool, text: &[u8]) -> Result<World, ParseError>
    ensures world { IfOk result (λ w. IsWorldOf opaque text.now (module_in w)) }
    ensures mode { IfOk result (λ w. w.ctx.opaque ≡ opaque) }
    ensures slotted { IfOk result (λ w. TracksRemovedKeys w.store) }
    ensures tidy { IfOk result (λ w. HasNoStaleIds w.store) }
    ensures unparsed { IfErr result (λ e. WhyNot opaque text.now e.refusal e.offset) }
    ensures unsupported { IfErr result (λ e. e.unsupported ≡ module_construct text.now e.refusal e.offset) }
{
    let (ctx, tree) = match tree_of(alloc, key, opaque, text) {
        Ok(found) => found,
        Err(unparsed) => return Err(unparsed),
    };
    match hold(alloc, ctx, tree) {
        Some(world) => Ok(world),
        None => Err(no_memory()),
    }
}

/// Parses a module's text, builds its IR state and frees the text. Also returns the number of bytes of the text and
/// the divider.
fn taken(alloc: Global, key: u64, opaque: bool, text: Vec<u8>) -> Result<(World, usize), ParseError>
    ensures world { IfOk result (λ x. IsWorldOf opaque text.items (module_in x.0)) }
    ensures mode { IfOk result (λ x. x.0.ctx.opaque ≡ opaque) }
    ensures slotted { IfOk result (λ x. TracksRemovedKeys x.0.store) }
    ensures tidy { IfOk result (λ x. HasNoStaleIds x.0.store) }
    ensures bytes { IfOk result (λ x. x.1 ≡ length text.items + divider_bytes) }
    ensures unparsed { IfErr result (λ e. WhyNot opaque text.items e.refusal e.offset) }
    ensures unsupported { IfErr result (λ e. e.unsupported ≡ module_construct text.items e.refusal e.offset) }
{
    let Some(before) = text.len().checked_add(DIVIDER_BYTES) else {
        return Err(no_memory());
    };
    match world_of(alloc, key, opaque, &text) {
        Ok(world) => Ok((world, before)),
        Err(unparsed) => Err(unparsed),
    }
}

/// Answers the text of a module and the lines after it.
fn answer_text<L: AnalysisSource, R: Source, W: Sink>(
    alloc: Global,
    key: u64,
    options: Options,
    text: Vec<u8>,
    kept: &mut Vec<u8>,
    reader: &mut R,
    writer: &mut W,
    boxes: Vec<L>,
    registry: PatternRegistry,
) -> Result<u8, Halt>
    ensures ended { IfSome (waiting kept.old.items (R.intake reader.old).remaining) (λ script. LiveEnded (length text.items + divider_bytes)
        (IsLive (setting_with L.supply options (registry_model registry)) (all_shown L.meaning boxes.items) text.items) (whole_lines script)
        (W.stream writer.old) (W.stream writer.new) (W.handed writer.new) result) }
    ensures leaves { LiveLeaves (R.intake reader.old) (R.intake reader.new)
        (W.stream writer.old) (W.stream writer.new) (W.handed writer.new) result }
{
    match taken(alloc, key, options.opaque, text) {
        Ok((world, before)) => {
            answer_world(
                alloc, options, before, world, kept, reader, writer, boxes, registry,
            )
        }
        Err(unparsed) => halted(refuse(writer, options.explain, unparsed)),
    }
}

/// Reads a module and then line by line. Answers each line and flushes the writer before the next read. No read is
/// made while a whole line is buffered. A line may be as long as a script, and the module as long as an input. The
/// number of lines and their total length have no limit.
pub fn answer_live<L: AnalysisSource, R: Source, W: Sink>(
    alloc: Global,
    key: u64,
    options: Options,
    reader: &mut R,
    writer: &mut W,
    boxes: Vec<L>,
    registry: PatternRegistry,
) -> Result<u8, Halt>
    ensures ended { IfSome (R.intake reader.old).remaining (λ input. LiveEnded (length (module_text input) + divider_bytes)
        (IsLiveOf (setting_with L.supply options (registry_model registry)) (all_shown L.meaning boxes.items) input) (whole_lines (script_text input))
        (W.stream writer.old) (W.stream writer.new) (W.handed writer.new) result) }
    ensures leaves { LiveLeaves (R.intake reader.old) (R.intake reader.new)
        (W.stream writer.old) (W.stream writer.new) (W.handed writer.new) result }
{
    match flush(writer) {
        Ok(()) => {}
        Err(WriteFault) => return Err(Halt::Write),
    }
    let mut kept = Vec::new(alloc);
    let text = match take_module(alloc, &mut kept, reader, writer) {
        Ok(text) => text,
        Err(LineError::Broken) => return Err(Halt::Read),
        Err(LineError::Memory) => return halted(refuse(writer, options.explain, no_memory())),
        Err(LineError::TooMany) => {
            let unparsed = ParseError {
                refusal: Refusal::TooMany,
                offset: Some(MAX_INPUT_BYTES),
                unsupported: None,
            };
            return halted(refuse(writer, options.explain, unparsed));
        }
    };
    answer_text(
        alloc, key, options, text, &mut kept, reader, writer, boxes, registry,
    )
}

/// Returns the exit status of a run, or why the next line isn't there.
fn exit_status(ended: Result<u8, Halt>) -> Result<u8, Unanswered>
    ensures { result ≡ exit_of ended }
{
    match ended {
        Ok(status) => Ok(status),
        Err(Halt::Read | Halt::Write) => Ok(4),
        Err(Halt::Memory) => Err(Unanswered::Memory),
        Err(Halt::TooLong) => Err(Unanswered::TooLong),
    }
}

/// A live answer to an input's module and lines is an output of a whole run on the input with `ends`, if the input
/// and its script are within the limits. A live answer to the first lines is an output of a whole run on the input up
/// to these lines.
pub fn live_runs_are_whole()
    ensures all { (setting : Setting) (boxes : List Shown) (input : List ℕ) (status : ℕ) (out : List ℕ)
        → length input ≤ most_input_bytes → length (script_text input) ≤ most_script_bytes
        → IsLive setting boxes (module_text input) (whole_lines (script_text input)) status out
        → IsOutput setting boxes input status out }
    ensures up_to { (setting : Setting) (boxes : List Shown) (input : List ℕ) (lines : List (List ℕ)) (status : ℕ)
        (out : List ℕ) → AreFirst (whole_lines (script_text input)) lines
        → IsLiveOf setting boxes input lines status out → IsWholeUpTo setting boxes input lines status out }
{}

/// Runs as `answer_live` does, and returns the exit status: 0 if all lines were accepted, 1 if a command or a
/// listener was refused, 3 if the module was refused, and 4 only if a read or a write failed.
///
/// Errors: the next line is too long, or memory ran out for it. All earlier answers were then written and flushed.
/// With status 4 they were, too, or a prefix of them if a write failed. The output doesn't depend on the key with
/// which names are hashed.
pub fn run_live<L: AnalysisSource, R: Source, W: Sink>(
    alloc: Global,
    key: u64,
    options: Options,
    reader: &mut R,
    writer: &mut W,
    boxes: Vec<L>,
    registry: PatternRegistry,
) -> Result<u8, Unanswered>
    ensures live { IfSome (R.intake reader.old).remaining (λ input. LiveEndedAt (length (module_text input) + divider_bytes)
        (IsLiveOf (setting_with L.supply options (registry_model registry)) (all_shown L.meaning boxes.items) input) (whole_lines (script_text input))
        (R.intake reader.new) (W.stream writer.old) (W.stream writer.new) (W.handed writer.new) result) }
    ensures whole { IfSome (R.intake reader.old).remaining (λ input. LiveEndedAt (length (module_text input) + divider_bytes)
        (IsWholeUpTo (setting_with L.supply options (registry_model registry)) (all_shown L.meaning boxes.items) input) (whole_lines (script_text input))
        (R.intake reader.new) (W.stream writer.old) (W.stream writer.new) (W.handed writer.new) result) }
    ensures fault { IfOk result (λ status. status ≡ 4 → HasFailedLive (R.intake reader.new) (W.stream writer.new)) }
{
    exit_status(answer_live(alloc, key, options, reader, writer, boxes, registry))
}
