//! Notes on the refusal of a line, for sessions with the `explain` option.
ghost use Rattle.std.specs.Prelude.{◌≡◌, IfOk};
ghost use Rattle.ir_event.specs.Modules.{module_in};
ghost use Rattle.mlir_work_script.specs.Commands.{said_of, spoken_of};
ghost use Rattle.mlir_work_script.specs.RegistryCommands.{registry_command_of};
ghost use Rattle.mlir_work_transforms.specs.registry.Notices.{notice_of};
ghost use Rattle.mlir_work_session.specs.Explained.{IsAbout, about_bytes, construct_note, about_notice, about_pattern, about_read, about_refused};
ghost use Rattle.mlir_work_session.specs.Explained.{text_of_command};

use crate::reply::Reply;
use ir_event::types::refusal::Refusal;
use ir_event::world::World;
use mlir_work_notes::notes::notes_for;
use mlir_work_notes::pattern_reasons::pattern_note;
use mlir_work_notes::unsupported::unsupported_at;
use mlir_work_script::command::{Command, Line};
use mlir_work_script::registry_command::RegistryCommand;
use mlir_work_transforms::registry::response::Response;
use std::alloc::{AllocError, Global};

/// The note written after a refusal.
#[derive(Drop)]
pub enum Note {
    /// The text of the note. It is empty if there is nothing to add.
    Text(Vec<u8>),
    /// Memory ran out while the note was built.
    NoMemory,
}

impl Note {
    /// Returns the bytes of the note.
    pub(crate) fn bytes(&self) -> &[u8]
        ensures { result.now ≡ about_bytes self.now }
    {
        match self {
            Note::Text(text) => text,
            Note::NoMemory => b" about memory",
        }
    }
}

/// Returns the text that a command has parsed: an attribute's or an operation's. It is empty for other commands.
fn text_of_command<'a>(command: &Command<'a>) -> &'a [u8]
    ensures { result.now ≡ text_of_command (said_of command.now) }
{
    match *command {
        Command::SetAttr { attribute, .. } => attribute,
        Command::Insert { operation, .. } => operation,
        _ => &[],
    }
}

/// Returns the note that names the unsupported MLIR construct at the byte at which a text was refused.
fn construct_note(
    alloc: Global,
    refusal: Refusal,
    text: &[u8],
    offset: usize,
) -> Result<Vec<u8>, AllocError>
    ensures { IfOk result (λ v. v.items ≡ construct_note refusal text.now offset) }
{
    let mut out = Vec::new(alloc);
    match refusal {
        Refusal::LeftOut => {
            out.extend_from_slice(b" about ")?;
            out.extend_from_slice(unsupported_at(text, offset).word())?;
            Ok(out)
        }
        _ => Ok(out),
    }
}

/// Returns the note that says why the text of a pattern was refused at a byte. It is empty for other commands on the
/// pattern registry.
fn about_pattern(
    alloc: Global,
    refusal: Refusal,
    offset: usize,
    command: &RegistryCommand<'_>,
) -> Result<Vec<u8>, AllocError>
    ensures { IfOk result (λ v. v.items ≡ about_pattern refusal offset (registry_command_of command.now)) }
{
    match command {
        RegistryCommand::Define(text) => pattern_note(alloc, refusal, text, offset),
        RegistryCommand::Redefine(text) => pattern_note(alloc, refusal, text, offset),
        _ => Ok(Vec::new(alloc)),
    }
}

/// Returns the note on the byte at which the text of a line was refused: the unsupported MLIR construct there, or for a
/// pattern what was expected.
fn about_read(
    alloc: Global,
    refusal: Refusal,
    offset: usize,
    line: &Line<'_>,
) -> Result<Vec<u8>, AllocError>
    ensures { IfOk result (λ v. v.items ≡ about_read refusal offset (spoken_of line.now)) }
{
    match line {
        Line::Command(command) => construct_note(alloc, refusal, text_of_command(command), offset),
        Line::Registry(command) => about_pattern(alloc, refusal, offset, command),
        Line::Empty | Line::BadCommand | Line::Session(_) => Ok(Vec::new(alloc)),
    }
}

/// Returns the note that lists the operations and values that the refusal of a line is about.
fn about_refused(
    alloc: Global,
    world: &World,
    refusal: Refusal,
    line: &Line<'_>,
) -> Result<Vec<u8>, AllocError>
    ensures { IfOk result (λ v. v.items ≡ about_refused refusal (spoken_of line.now) (module_in world.now)) }
{
    match line {
        Line::Command(command) => notes_for(alloc, world, refusal, command),
        Line::Empty | Line::BadCommand | Line::Session(_) | Line::Registry(_) => Ok(Vec::new(
            alloc,
        )),
    }
}

/// Returns the note on the refusal of a line. It is empty if the line wasn't refused.
fn about_notice(
    alloc: Global,
    world: &World,
    line: &Line<'_>,
    notice: &Response,
) -> Result<Vec<u8>, AllocError>
    ensures { IfOk result (λ v. v.items ≡ about_notice (notice_of notice.now) (spoken_of line.now) (module_in world.now)) }
{
    match *notice {
        Response::CheckResult(_) => Ok(Vec::new(alloc)),
        Response::RewriterReply(reply) => match reply {
            Reply::Refused(refusal) => about_refused(alloc, world, refusal, line),
            Reply::RefusedAt(refusal, offset) => about_read(alloc, refusal, offset, line),
            Reply::Done
            | Reply::DoneWithOp(_)
            | Reply::DoneWithOutcome(_)
            | Reply::RefusedOn(_, _) => { Ok(Vec::new(alloc)) }
        },
    }
}

/// Returns the note to write after a response to a line, in the module after the line. It is empty unless `explain`
/// is set.
pub(crate) fn explained(
    alloc: Global,
    explain: bool,
    world: &World,
    line: &Line<'_>,
    notice: &Response,
) -> Note
    ensures { IsAbout explain (notice_of notice.now) (spoken_of line.now) (module_in world.now) (about_bytes result) }
{
    if !explain {
        return Note::Text(Vec::new(alloc));
    }
    match about_notice(alloc, world, line, notice) {
        Ok(text) => Note::Text(text),
        Err(_) => Note::NoMemory,
    }
}
