//! Runs scripts on a module and its listeners.
ghost use Rattle.std.specs.Prelude.{◌≡◌, ◌+◌, ◌<◌, ◌^◌, false, ◌&&◌, not};
ghost use Rattle.mlir_work_script.specs.Commands.{line_says, said_of, spoken_of};
ghost use Rattle.mlir_work_script.specs.Expecting.{line_expects};
ghost use Rattle.mlir_work_script_base.specs.Lines.{lines_of};
ghost use Rattle.mlir_work_script.specs.SessionCommands.{session_command_of};
ghost use Rattle.mlir_work_script_base.specs.Writes.{Writes, WritesSome};
ghost use Rattle.mlir_work_transforms.specs.rewriter.RewriterCalls.{AgreesOrStale, state_of};
ghost use Rattle.mlir_work_transforms.specs.registry.Notices.{IsWithin, notice_of};
ghost use Rattle.mlir_work_session.specs.Explained.{IsAbout, about_bytes};
ghost use Rattle.mlir_work_transforms.specs.registry.Registry.{registry_model};
ghost use Rattle.mlir_work_session.specs.Machine.{session_setting};
ghost use Rattle.mlir_work_session.specs.WhyPatterns.{RunsNamedCommand, asked_pattern};
ghost use Rattle.mlir_work_session.specs.Output.{IsAnswered, IsReplied, Replies, Runs, accepted_after as still_accepted, asks as asks_to};
ghost use Rattle.mlir_work_session.specs.Output.{end_of, number_after as next_number, only_shows, says_nothing, shows_alone};
ghost use Rattle.mlir_work_session.specs.Ran.{RanOut};
ghost use Rattle.mlir_work_session.specs.Sittings.{ByRewriter, sitting_of};

use crate::listing::write_listing;
use crate::notes::{Note, explained};
use crate::options::SessionOptions;
use crate::pattern_commands::answer_command;
use crate::reply::Reply;
use crate::why_patterns::run_named_command;
use ir_event::analysis::Analysis;
use ir_event::types::refusal::Refusal;
use mlir_work_script::command::{Command, Line, read_line};
use mlir_work_script::expected_refusal::expected_of;
use mlir_work_script::session_command::SessionCommand;
use mlir_work_script_base::lines::split_line;
use mlir_work_script_base::sink::Sink;
use mlir_work_script_base::writing::{WriteFault, write};
use mlir_work_session_base::analysis_source::AnalysisSource;
use mlir_work_transforms::registry::registry::PatternRegistry;
use mlir_work_transforms::registry::registry_commands::run_registry_command;
use mlir_work_transforms::registry::response::{Response, ShownResponse, is_right_under, replied};
use mlir_work_transforms::registry::write_notes::write_response;
use mlir_work_transforms::rewriter::Bench;
use std::alloc::Global;

/// Returns whether a command only shows something, so that no listing follows.
fn shows_alone(command: &Command<'_>) -> bool
    ensures { result ≡ shows_alone (said_of command.now) }
{
    match command {
        Command::Report(_) => true,
        Command::Print => true,
        _ => false,
    }
}

/// Returns whether a session command only shows something.
fn only_shows(session_command: &SessionCommand<'_>) -> bool
    ensures { result ≡ only_shows (session_command_of session_command.now) }
{
    match session_command {
        SessionCommand::PrintIds => true,
        SessionCommand::Why { .. } => true,
        SessionCommand::ReportAbout { .. } => true,
        SessionCommand::ShowAll => true,
        SessionCommand::ShowFrom { .. } => true,
        _ => false,
    }
}

/// Returns whether a line only shows something.
fn asks(line: &Line<'_>) -> bool
    ensures { result ≡ asks_to (spoken_of line.now) }
{
    match line {
        Line::Empty => false,
        Line::BadCommand => false,
        Line::Command(command) => shows_alone(command),
        Line::Session(session_command) => only_shows(session_command),
        Line::Registry(_) => true,
    }
}

/// Returns whether a line has no command: it is empty or a comment.
pub fn is_nothing(line: &Line<'_>) -> bool
    ensures { result ≡ says_nothing (spoken_of line.now) }
{
    match line {
        Line::Empty => true,
        Line::BadCommand => false,
        Line::Command(_) => false,
        Line::Session(_) => false,
        Line::Registry(_) => false,
    }
}

fn is_listed(brief: bool, line: &Line<'_>) -> bool
    ensures { result ≡ (not brief && not (asks_to (spoken_of line.now))) }
{
    !brief && !asks(line)
}

pub(crate) fn both(a: bool, b: bool) -> bool
    ensures { result ≡ (a && b) }
{
    a && b
}

/// Runs the session command of a line, and returns the response with the bytes to show below it.
fn answer_session_command<L: AnalysisSource>(
    alloc: Global,
    session_options: &SessionOptions,
    bench: &mut Bench<L>,
    registry: &PatternRegistry,
    session_command: &SessionCommand<'_>,
) -> ShownResponse
    requires { AgreesOrStale L.meaning bench.old }
    ensures fulfils { ByRewriter (λ response u. RunsNamedCommand (session_setting L.supply session_options.now) (registry_model registry.now) (asked_pattern (session_command_of session_command.now) (registry_model registry.now)) (state_of L.meaning bench.old) (session_command_of session_command.now) response result.shows.items u) (sitting_of L.meaning bench.old registry.now) (notice_of result.notice) (sitting_of L.meaning bench.new registry.now) }
    ensures bounded { IsWithin session_options.now.bytes (notice_of result.notice) }
    ensures kept { AgreesOrStale L.meaning bench.new }
    ensures mode { bench.new.transaction.ctx.opaque ≡ bench.old.transaction.ctx.opaque }
{
    let answered = run_named_command(alloc, session_options, bench, registry, session_command);
    ShownResponse {
        notice: Response::RewriterReply(answered.reply),
        shows: answered.shows,
    }
}

/// Answers a line that isn't empty. Returns the response with the bytes to show below it.
pub fn answer<L: AnalysisSource>(
    alloc: Global,
    session_options: &SessionOptions,
    bench: &mut Bench<L>,
    registry: &mut PatternRegistry,
    line: &Line<'_>,
) -> ShownResponse
    requires kept { AgreesOrStale L.meaning bench.old }
    requires mode { bench.old.transaction.ctx.opaque ≡ session_options.now.opaque }
    requires something { says_nothing (spoken_of line.now) ≡ false }
    ensures replies { Replies (session_setting L.supply session_options.now) (sitting_of L.meaning bench.old registry.old) (spoken_of line.now) (notice_of result.notice) result.shows.items (sitting_of L.meaning bench.new registry.new) }
    ensures bounded { IsWithin session_options.now.bytes (notice_of result.notice) }
    ensures kept { AgreesOrStale L.meaning bench.new }
    ensures mode { bench.new.transaction.ctx.opaque ≡ bench.old.transaction.ctx.opaque }
{
    match line {
        Line::Command(command) => answer_command(alloc, session_options, bench, registry, command),
        Line::Session(session_command) => answer_session_command(
            alloc,
            session_options,
            bench,
            registry,
            session_command,
        ),
        Line::Registry(session_command) => run_registry_command(
            alloc,
            session_options.bytes,
            registry,
            session_command,
        ),
        Line::Empty | Line::BadCommand => replied(alloc, Reply::Refused(Refusal::BadCommand)),
    }
}

/// Returns the note to write after the response to a line. It is empty unless `explain` is set.
fn about_line<L: Analysis>(
    alloc: Global,
    explain: bool,
    bench: &Bench<L>,
    line: &Line<'_>,
    notice: &Response,
) -> Note
    ensures { IsAbout explain (notice_of notice.now) (spoken_of line.now) (state_of L.meaning bench.now).held (about_bytes result) }
{
    explained(alloc, explain, bench.world(), line, notice)
}

/// Writes the numbered reply, the bytes that it shows, and a listing if the line gets one.
fn write_answer<L: Analysis, W: Sink>(
    alloc: Global,
    session_options: &SessionOptions,
    bench: &Bench<L>,
    n: u64,
    expected: &Option<Refusal>,
    line: &Line<'_>,
    answered: &ShownResponse,
    writer: &mut W,
) -> Result<(), WriteFault>
    requires { AgreesOrStale L.meaning bench.now }
    ensures { WritesSome (IsReplied session_options.now.explain (spoken_of line.now) (not session_options.now.brief && not (asks_to (spoken_of line.now))) (state_of L.meaning bench.now) n expected.now (notice_of answered.now.notice) answered.now.shows.items) (W.stream writer.old) (W.stream writer.new) result }
{
    let about = about_line(
        alloc,
        session_options.explain,
        bench,
        line,
        &answered.notice,
    );
    match write_response(writer, n, expected, &answered.notice, about.bytes()) {
        Ok(()) => {}
        Err(fault) => return Err(fault),
    }
    match write(writer, &answered.shows) {
        Ok(()) => {}
        Err(fault) => return Err(fault),
    }
    if is_listed(session_options.brief, line) {
        return write_listing(alloc, bench, writer);
    }
    Ok(())
}

/// Writes the empty line after an answer, if `ends` is set.
pub(crate) fn write_end<W: Sink>(writer: &mut W, ends: bool) -> Result<(), WriteFault>
    ensures { Writes (W.stream writer.old) (W.stream writer.new) (end_of ends) result }
{
    if ends {
        return write(writer, b"\n");
    }
    Ok(())
}

/// Answers one line of a script; `n` is the number of the next reply, and `line` has no line feed. Each listener must
/// agree with the module or be stale. `registry` has the user patterns.
///
/// Writes the answer and returns whether the outcome was right: the command was accepted, or refused as the line
/// expects. In a strict run, a rewrite by a pattern that no check proves isn't right. For an empty line it writes
/// nothing and returns `None`.
pub fn answer_line<L: AnalysisSource, W: Sink>(
    alloc: Global,
    session_options: &SessionOptions,
    bench: &mut Bench<L>,
    registry: &mut PatternRegistry,
    n: u64,
    line: &[u8],
    writer: &mut W,
) -> Result<Option<bool>, WriteFault>
    requires kept { AgreesOrStale L.meaning bench.old }
    requires mode { bench.old.transaction.ctx.opaque ≡ session_options.now.opaque }
    ensures answered { RanOut (IsAnswered (session_setting L.supply session_options.now) n (sitting_of L.meaning bench.old registry.old) (line_expects line.now) (line_says line.now) (sitting_of L.meaning bench.new registry.new)) (W.stream writer.old) (W.stream writer.new) result }
    ensures kept { AgreesOrStale L.meaning bench.new }
    ensures mode { bench.new.transaction.ctx.opaque ≡ bench.old.transaction.ctx.opaque }
{
    let expected = expected_of(line);
    let line = read_line(line);
    if is_nothing(&line) {
        return Ok(None);
    }
    let answered = answer(alloc, session_options, bench, registry, &line);
    match write_answer(
        alloc,
        session_options,
        bench,
        n,
        &expected,
        &line,
        &answered,
        writer,
    ) {
        Ok(()) => {}
        Err(fault) => return Err(fault),
    }
    match write_end(writer, session_options.ends) {
        Ok(()) => Ok(Some(is_right_under(session_options.strict, &expected, &answered))),
        Err(fault) => Err(fault),
    }
}

/// Returns the number of the next reply; `reported` is the result of `answer_line` for the last line.
pub fn next_number(n: u64, reported: Option<bool>) -> u64
    requires { n + 1 < 2 ^ 64 }
    ensures { result ≡ next_number n reported }
{
    match reported {
        None => n,
        Some(_) => n + 1,
    }
}

/// Returns whether all lines were right so far; `reported` is the result of `answer_line` for the last line.
pub fn accepted_so_far(accepted: bool, reported: Option<bool>) -> bool
    ensures { result ≡ still_accepted accepted reported }
{
    match reported {
        None => accepted,
        Some(more) => both(accepted, more),
    }
}

/// Runs a script and writes its answers one by one. Each listener must agree with the module or be stale. `registry`
/// has the user patterns.
///
/// Returns status 1 if a command was refused unexpectedly or for another reason than expected, or a pattern check
/// failed. In a strict run, a rewrite by a pattern that no check proves also gives 1. Otherwise the status is 0.
pub fn run_script<L: AnalysisSource, W: Sink>(
    alloc: Global,
    session_options: &SessionOptions,
    bench: &mut Bench<L>,
    registry: &mut PatternRegistry,
    script: &[u8],
    writer: &mut W,
) -> Result<u8, WriteFault>
    requires kept { AgreesOrStale L.meaning bench.old }
    requires mode { bench.old.transaction.ctx.opaque ≡ session_options.now.opaque }
    ensures { RanOut (Runs (session_setting L.supply session_options.now) 1 (sitting_of L.meaning bench.old registry.old) (lines_of script.now)) (W.stream writer.old) (W.stream writer.new) result }
{
    let mut text = script;
    let mut n = 1u64;
    let mut accepted = true;
    while !text.is_empty() {
        let (first, rest) = split_line(text);
        text = rest;
        let reported = match answer_line(
            alloc,
            session_options,
            bench,
            registry,
            n,
            first,
            writer,
        ) {
            Ok(reported) => reported,
            Err(fault) => return Err(fault),
        };
        n = next_number(n, reported);
        accepted = accepted_so_far(accepted, reported);
    }
    Ok(if accepted { 0 } else { 1 })
}
