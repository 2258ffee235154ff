//! Fast path for scripts that only print: writes the text of the parsed tree, without building the IR state or any
//! analysis.
ghost use Rattle.std.specs.Prelude.{◌≡◌, ◌≤◌, ◌++◌, ◌&&◌, Bool, ℕ, List, [], IsTrue, length, position, false, true};
ghost use Rattle.ir_event.specs.trees.Meaning.{is_known, meaning};
ghost use Rattle.ir_event.specs.Panels.{has_kind as has_this_kind, is_kind as is_of_kind};
ghost use Rattle.mlir_work_script.specs.Commands.{said_of, spoken_of};
ghost use Rattle.mlir_work_script_base.specs.Lines.{lines_of};
ghost use Rattle.mlir_work_script_base.specs.Writes.{Writes};
ghost use Rattle.mlir_work_script_base.specs.Limits.{most_script_bytes};
ghost use Rattle.mlir_work_transforms.specs.rewriter.Panels.{Shown, all_shown};
ghost use Rattle.mlir_work_session.specs.Machine.{response_of};
ghost use Rattle.mlir_work_transforms.specs.registry.Registry.{RegistryModel};
ghost use Rattle.mlir_work_transforms.specs.registry.ReplyLines.{reply_line};
ghost use Rattle.mlir_work_session.specs.Output.{IsSession, Runs, SessionSetting, opening};
ghost use Rattle.mlir_work_session.specs.PrintsAlone.{IsPrinted, all_print, is_print, kinds_apart, prints_alone};
ghost use Rattle.mlir_work_session.specs.Ran.{RanOut};

use crate::reply::Reply;
use crate::script::{both, is_nothing};
use crate::shows::ShownReply;
use ir_event::analysis::Analysis;
use ir_event::row::Kind;
use ir_event::trees::tree::TreeOp;
use ir_event::types::context::Context;
use ir_event::types::refusal::Refusal;
use ir_text::printer::print;
use mlir_work_script::command::{Command, Line, read_line};
use mlir_work_script::expected_refusal::expected_of;
use mlir_work_script_base::lines::split_line;
use mlir_work_script_base::sink::Sink;
use mlir_work_script_base::writing::{WriteFault, write};
use mlir_work_transforms::registry::write_replies::write_reply;
use std::alloc::Global;

/// Returns whether a command prints the module.
fn is_print(command: &Command<'_>) -> bool
    ensures { result ≡ is_print (said_of command.now) }
{
    match command {
        Command::Print => true,
        _ => false,
    }
}

/// Returns whether a line is empty or prints the module.
fn prints(line: &Line<'_>) -> bool
    ensures { result ≡ prints_alone (spoken_of line.now) }
{
    match line {
        Line::Empty => true,
        Line::BadCommand => false,
        Line::Command(command) => is_print(command),
        Line::Session(_) => false,
        Line::Registry(_) => false,
    }
}

/// Returns the index of the first listener of a kind, or `None` if there is none.
fn place_of_kind<L: Analysis>(listeners: &[L], kind: Kind) -> Option<usize>
    ensures { result ≡ position (is_of_kind L.meaning kind) listeners.now }
{
    listeners.iter().position(
        |listener: &L| -> bool
            ensures { result ≡ is_of_kind L.meaning kind listener.now }
        { listener.kind().number() == kind.number() },
    )
}

/// Returns whether one of the listeners has this kind.
fn has_kind<L: Analysis>(listeners: &[L], kind: Kind) -> bool
    ensures { result ≡ has_this_kind L.meaning kind listeners.now }
{
    place_of_kind(listeners, kind).is_some()
}

/// Returns whether all listeners have different kinds.
fn kinds_differ<L: Analysis>(listeners: &[L]) -> bool
    ensures { result ≡ kinds_apart L.meaning listeners.now }
{
    let mut rest = listeners;
    while let [first, tail @ ..] = rest {
        if has_kind(tail, first.kind()) {
            return false;
        }
        rest = tail;
    }
    true
}

/// Returns whether each line of a script is empty or prints the module and expects no refusal, and all listeners have
/// different kinds.
pub fn only_prints<L: Analysis>(script: &[u8], listeners: &[L]) -> bool
    ensures { result ≡ (all_print (lines_of script.now) && kinds_apart L.meaning listeners.now) }
{
    let mut text = script;
    while !text.is_empty() {
        let (first, rest) = split_line(text);
        if expected_of(first).is_some() {
            return false;
        }
        let line = read_line(first);
        if !prints(&line) {
            return false;
        }
        text = rest;
    }
    kinds_differ(listeners)
}

/// Returns the text of a tree, or the refusal if memory runs out.
fn show_tree(alloc: Global, ctx: &Context, tree: &TreeOp) -> ShownReply
    requires { IsTrue (is_known ctx.now tree.now) }
    ensures { IsPrinted (meaning ctx.now tree.now) result.reply result.shows.items }
{
    match print(alloc, ctx, tree) {
        Ok(shows) => ShownReply {
            reply: Reply::Done,
            shows,
        },
        Err(_) => ShownReply {
            reply: Reply::Refused(Refusal::Memory),
            shows: Vec::new(alloc),
        },
    }
}

/// Writes a reply and the bytes that it shows.
fn write_shown<W: Sink>(writer: &mut W, n: u64, answered: &ShownReply) -> Result<(), WriteFault>
    ensures { Writes (W.stream writer.old) (W.stream writer.new) (reply_line n (response_of answered.now.reply) ++ answered.now.shows.items) result }
{
    match write_reply(writer, n, answered.reply) {
        Ok(()) => write(writer, &answered.shows),
        Err(fault) => Err(fault),
    }
}

/// Runs a script that only prints on the module of a tree.
fn print_lines<W: Sink>(
    alloc: Global,
    ctx: &Context,
    tree: &TreeOp,
    script: &[u8],
    writer: &mut W,
) -> Result<u8, WriteFault>
    requires known { IsTrue (is_known ctx.now tree.now) }
    requires prints { all_print (lines_of script.now) ≡ true }
    ensures { (setting : SessionSetting) (start : RegistryModel) (next : ℕ) (panel : List Shown) → setting.session_options.ends ≡ false → RanOut (Runs setting 1 (opening start (record { held = record { tree = meaning ctx.now tree.now; next = next }; marks = []; panel = panel })) (lines_of script.now)) (W.stream writer.old) (W.stream writer.new) result }
{
    let mut text = script;
    let mut n = 1u64;
    let mut accepted = true;
    while !text.is_empty() {
        let (first, rest) = split_line(text);
        text = rest;
        let line = read_line(first);
        if is_nothing(&line) {
            continue;
        }
        let answered = show_tree(alloc, ctx, tree);
        match write_shown(writer, n, &answered) {
            Ok(()) => {}
            Err(fault) => return Err(fault),
        }
        accepted = both(accepted, answered.reply.is_accepted());
        n += 1;
    }
    Ok(if accepted { 0 } else { 1 })
}

/// Runs a script that only prints on the module of a tree. The output equals that of a session with these listeners
/// and without `ends`. No listener starts, since no line reads a report.
pub fn print_session<L: Analysis, W: Sink>(
    alloc: Global,
    ctx: &Context,
    tree: &TreeOp,
    script: &[u8],
    writer: &mut W,
    boxes: &[L],
) -> Result<u8, WriteFault>
    requires known { IsTrue (is_known ctx.now tree.now) }
    requires short { length script.now ≤ most_script_bytes }
    requires prints { all_print (lines_of script.now) ≡ true }
    requires apart { kinds_apart L.meaning boxes.now ≡ true }
    ensures { (setting : SessionSetting) (start : RegistryModel) (next : ℕ) → setting.session_options.ends ≡ false → RanOut (IsSession setting start (all_shown L.meaning boxes.now) (record { tree = meaning ctx.now tree.now; next = next }) script.now) (W.stream writer.old) (W.stream writer.new) result }
{
    print_lines(alloc, ctx, tree, script, writer)
}
