//! Writes responses with notes on refusals.
ghost use Rattle.mlir_work_script_base.specs.Writes.{Writes};
ghost use Rattle.std.specs.Prelude.{◌++◌, codes};
ghost use Rattle.mlir_work_registry.specs.Explained.{explained_line, explained_reply, refused_at_preceding, refused_preceding, response_lines};
ghost use Rattle.mlir_work_registry.specs.Notices.{notice_of};
ghost use Rattle.mlir_work_registry.specs.Replies.{response_of};
ghost use Rattle.rewriter_machine.specs.Commands.{Replied, TextRefusedAt};
ghost use Rattle.rewriter_machine.specs.Machine.{Refused};

use crate::reply::Reply;
use crate::response::Response;
use crate::write_replies::{write_checked, write_reply, write_reply_text, write_surprise};
use ir_event::types::refusal::Refusal;
use itoa::Buffer;
use mlir_work_script_base::sink::Sink;
use mlir_work_script_base::writing::{WriteFault, write, write_all};

/// Writes a note and the end of its line.
fn write_after<W: Sink>(writer: &mut W, about: &[u8]) -> Result<(), WriteFault>
    ensures { Writes (W.stream writer.old) (W.stream writer.new) (about.now ++ codes "\n") result }
{
    match write(writer, about) {
        Ok(()) => write(writer, b"\n"),
        Err(fault) => Err(fault),
    }
}

/// Writes the refusal of a command, without the end of the line.
fn write_refused_preceding<W: Sink>(
    writer: &mut W,
    n: u64,
    refusal: Refusal,
) -> Result<(), WriteFault>
    ensures { Writes (W.stream writer.old) (W.stream writer.new) (refused_preceding n refusal) result }
{
    let mut command = Buffer::new();
    let mut number = Buffer::new();
    write_all(
        writer,
        &[
            command.format(n).as_bytes(),
            b" refused ",
            number.format(refusal.number()).as_bytes(),
            b" ",
            refusal.word().as_bytes(),
        ],
    )
}

/// Writes the refusal of a command's text, without the end of the line.
fn write_refused_at_preceding<W: Sink>(
    writer: &mut W,
    n: u64,
    refusal: Refusal,
    offset: usize,
) -> Result<(), WriteFault>
    ensures { Writes (W.stream writer.old) (W.stream writer.new) (refused_at_preceding n refusal offset) result }
{
    let mut command = Buffer::new();
    let mut number = Buffer::new();
    let mut place = Buffer::new();
    write_all(
        writer,
        &[
            command.format(n).as_bytes(),
            b" refused ",
            number.format(refusal.number()).as_bytes(),
            b" ",
            refusal.word().as_bytes(),
            b" at ",
            place.format(offset).as_bytes(),
        ],
    )
}

/// Writes the refusal of a command with a note: `1 refused 22 HasUses about #3`.
fn write_refused_about<W: Sink>(
    writer: &mut W,
    n: u64,
    refusal: Refusal,
    about: &[u8],
) -> Result<(), WriteFault>
    ensures { Writes (W.stream writer.old) (W.stream writer.new) (explained_reply n (Replied (Refused refusal)) about.now) result }
{
    match write_refused_preceding(writer, n, refusal) {
        Ok(()) => write_after(writer, about),
        Err(fault) => Err(fault),
    }
}

/// Writes the refusal of a command's text with a note: `1 refused 13 LeftOut at 14 about float-type`.
fn write_refused_at_about<W: Sink>(
    writer: &mut W,
    n: u64,
    refusal: Refusal,
    offset: usize,
    about: &[u8],
) -> Result<(), WriteFault>
    ensures { Writes (W.stream writer.old) (W.stream writer.new) (explained_reply n (TextRefusedAt refusal offset) about.now) result }
{
    match write_refused_at_preceding(writer, n, refusal, offset) {
        Ok(()) => write_after(writer, about),
        Err(fault) => Err(fault),
    }
}

/// Writes the line of a reply, with a note on a refusal.
fn write_explained_reply<W: Sink>(
    writer: &mut W,
    n: u64,
    reply: Reply,
    about: &[u8],
) -> Result<(), WriteFault>
    ensures { Writes (W.stream writer.old) (W.stream writer.new) (explained_reply n (response_of reply) about.now) result }
{
    match reply {
        Reply::Refused(refusal) => write_refused_about(writer, n, refusal, about),
        Reply::RefusedAt(refusal, offset) => {
            write_refused_at_about(writer, n, refusal, offset, about)
        }
        Reply::Done => write_reply(writer, n, reply),
        Reply::DoneWithOp(_) => write_reply(writer, n, reply),
        Reply::DoneWithOutcome(_) => write_reply(writer, n, reply),
        Reply::RefusedOn(_, _) => write_reply(writer, n, reply),
    }
}

/// Writes the line of a response, with a note on a refusal.
fn write_explained<W: Sink>(
    writer: &mut W,
    n: u64,
    notice: Response,
    about: &[u8],
) -> Result<(), WriteFault>
    ensures { Writes (W.stream writer.old) (W.stream writer.new) (explained_line n (notice_of notice) about.now) result }
{
    match notice {
        Response::RewriterReply(reply) => write_explained_reply(writer, n, reply, about),
        Response::CheckResult(said) => write_checked(writer, n, said),
    }
}

/// Writes a response, with a note on a refusal if the note isn't empty, and a line below it if another refusal was
/// expected.
pub fn write_response<W: Sink>(
    writer: &mut W,
    n: u64,
    expected: &Option<Refusal>,
    notice: &Response,
    about: &[u8],
) -> Result<(), WriteFault>
    ensures { Writes (W.stream writer.old) (W.stream writer.new) (response_lines n expected.now (notice_of notice.now) about.now) result }
{
    if about.is_empty() {
        return write_reply_text(writer, n, expected, notice);
    }
    match write_explained(writer, n, *notice, about) {
        Ok(()) => write_surprise(writer, n, expected, notice),
        Err(fault) => Err(fault),
    }
}
