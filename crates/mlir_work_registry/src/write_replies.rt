//! Writes responses.
ghost use Rattle.std.specs.Prelude.{◌++◌, codes};
ghost use Rattle.std.specs.Fmt.{decimal};
ghost use Rattle.mlir_work_script_base.specs.Writes.{Writes};
ghost use Rattle.mlir_work_registry.specs.Notices.{notice_of};
ghost use Rattle.mlir_work_registry.specs.Replies.{response_of};
ghost use Rattle.mlir_work_registry.specs.ReplyLines.{checked_line, notice_line, reply_line, reply_text, surprise_line};

use crate::reply::Reply;
use crate::response::Response;
use ir_event::types::refusal::Refusal;
use itoa::Buffer;
use mlir_work_script::replies::{
    write_expected, write_ok, write_ok_with_op, write_outcome, write_refused, write_refused_at,
    write_refused_for_op,
};
use mlir_work_script_base::sink::Sink;
use mlir_work_script_base::writing::{WriteFault, write_all};
use user_patterns_registry::check_result::CheckSummary;

/// Writes the line of a reply.
pub fn write_reply<W: Sink>(writer: &mut W, n: u64, reply: Reply) -> Result<(), WriteFault>
    ensures { Writes (W.stream writer.old) (W.stream writer.new) (reply_line n (response_of reply)) result }
{
    match reply {
        Reply::Done => write_ok(writer, n),
        Reply::DoneWithOp(op) => write_ok_with_op(writer, n, op),
        Reply::DoneWithOutcome(outcome) => write_outcome(writer, n, outcome),
        Reply::Refused(refusal) => write_refused(writer, n, refusal),
        Reply::RefusedOn(refusal, op) => write_refused_for_op(writer, n, refusal, op),
        Reply::RefusedAt(refusal, offset) => write_refused_at(writer, n, refusal, offset),
    }
}

/// Writes a line with a number, a word and a width.
fn write_width<W: Sink>(writer: &mut W, n: u64, word: &[u8], width: u32) -> Result<(), WriteFault>
    ensures { Writes (W.stream writer.old) (W.stream writer.new) (decimal n ++ (codes " " ++ ((word.now ++ decimal width) ++ codes "\n"))) result }
{
    let mut command = Buffer::new();
    let mut number = Buffer::new();
    write_all(
        writer,
        &[
            command.format(n).as_bytes(),
            b" ",
            word,
            number.format(width).as_bytes(),
            b"\n",
        ],
    )
}

/// Writes a line with a number and a word.
fn write_word<W: Sink>(writer: &mut W, n: u64, word: &[u8]) -> Result<(), WriteFault>
    ensures { Writes (W.stream writer.old) (W.stream writer.new) (decimal n ++ (codes " " ++ (word.now ++ codes "\n"))) result }
{
    let mut command = Buffer::new();
    write_all(writer, &[command.format(n).as_bytes(), b" ", word, b"\n"])
}

/// Writes the line of a check summary.
pub(crate) fn write_checked<W: Sink>(
    writer: &mut W,
    n: u64,
    said: CheckSummary,
) -> Result<(), WriteFault>
    ensures { Writes (W.stream writer.old) (W.stream writer.new) (checked_line n said) result }
{
    match said {
        CheckSummary::Holds(width) => write_width(writer, n, b"holds ", width),
        CheckSummary::AllWidths => write_word(writer, n, b"holds"),
        CheckSummary::Vacuous(width) => write_width(writer, n, b"empty ", width),
        CheckSummary::Fails(width) => write_width(writer, n, b"fails ", width),
        CheckSummary::Sampled(width) => write_width(writer, n, b"unrefuted ", width),
    }
}

/// Writes the line of a response.
fn write_notice<W: Sink>(writer: &mut W, n: u64, notice: Response) -> Result<(), WriteFault>
    ensures { Writes (W.stream writer.old) (W.stream writer.new) (notice_line n (notice_of notice)) result }
{
    match notice {
        Response::RewriterReply(reply) => write_reply(writer, n, reply),
        Response::CheckResult(said) => write_checked(writer, n, said),
    }
}

/// Writes the expected refusal, if the response is another one.
pub(crate) fn write_surprise<W: Sink>(
    writer: &mut W,
    n: u64,
    expected: &Option<Refusal>,
    notice: &Response,
) -> Result<(), WriteFault>
    ensures { Writes (W.stream writer.old) (W.stream writer.new) (surprise_line n expected.now (notice_of notice.now)) result }
{
    let Some(refusal) = *expected else {
        return Ok(());
    };
    if notice.is_refused_for(refusal) {
        return Ok(());
    }
    write_expected(writer, n, refusal)
}

/// Writes the line of a response, and a line below it if another refusal was expected.
pub fn write_reply_text<W: Sink>(
    writer: &mut W,
    n: u64,
    expected: &Option<Refusal>,
    notice: &Response,
) -> Result<(), WriteFault>
    ensures { Writes (W.stream writer.old) (W.stream writer.new) (reply_text n expected.now (notice_of notice.now)) result }
{
    match write_notice(writer, n, *notice) {
        Ok(()) => write_surprise(writer, n, expected, notice),
        Err(fault) => Err(fault),
    }
}
