//! Writes the lines of a run's output.
ghost use Rattle.std.specs.Prelude.{◌++◌, Some, None, codes};
ghost use Rattle.ir_event.specs.types.Refusals.{text_of};
ghost use Rattle.mlir_work_script_base.specs.Kinds.{kind_word};
ghost use Rattle.mlir_work_script.specs.Outcomes.{outcome_of};
ghost use Rattle.mlir_work_script.specs.Replies.{made_line, ok_line, outcome_line, refused_line, refused_at_line};
ghost use Rattle.mlir_work_script.specs.Replies.{refused_on_line, module_refused_line, attach_refused_line, kind_line};
ghost use Rattle.mlir_work_script.specs.Replies.{stale_line, kind_memory_line, module_memory_line, expected_line};
ghost use Rattle.mlir_work_script_base.specs.Writes.{Writes};

use crate::outcome::Outcome;
use ir_event::types::ids::OpId;
use ir_event::types::refusal::Refusal;
use itoa::Buffer;
use mlir_work_script_base::kind::{Kind, name_of};
use mlir_work_script_base::sink::Sink;
use mlir_work_script_base::writing::{WriteFault, write, write_all};

/// Writes the reply to an accepted command: `1 ok`.
pub fn write_ok<W: Sink>(writer: &mut W, n: u64) -> Result<(), WriteFault>
    ensures { Writes (W.stream writer.old) (W.stream writer.new) (ok_line n) result }
{
    let mut number = Buffer::new();
    write_all(writer, &[number.format(n).as_bytes(), b" ok\n"])
}

/// Writes the reply to an accepted command that created an operation: `1 ok #12`.
pub fn write_ok_with_op<W: Sink>(writer: &mut W, n: u64, op: OpId) -> Result<(), WriteFault>
    ensures { Writes (W.stream writer.old) (W.stream writer.new) (made_line n op) result }
{
    let mut command = Buffer::new();
    let mut number = Buffer::new();
    write_all(
        writer,
        &[
            command.format(n).as_bytes(),
            b" ok ",
            b"#",
            number.format(op.number()).as_bytes(),
            b"\n",
        ],
    )
}

/// Writes the reply to a command that transformed the module: `1 swept 2`.
pub fn write_outcome<W: Sink>(writer: &mut W, n: u64, outcome: Outcome) -> Result<(), WriteFault>
    ensures { Writes (W.stream writer.old) (W.stream writer.new) (outcome_line n (outcome_of outcome)) result }
{
    let mut command = Buffer::new();
    let mut number = Buffer::new();
    write_all(
        writer,
        &[
            command.format(n).as_bytes(),
            b" ",
            outcome.word(),
            b" ",
            number.format(outcome.count()).as_bytes(),
            b"\n",
        ],
    )
}

/// Writes the reply to a refused command: `1 refused 22 HasUses`.
pub fn write_refused<W: Sink>(writer: &mut W, n: u64, refusal: Refusal) -> Result<(), WriteFault>
    ensures { Writes (W.stream writer.old) (W.stream writer.new) (refused_line n refusal) result }
{
    let mut command = Buffer::new();
    let mut number = Buffer::new();
    write_all(
        writer,
        &[
            command.format(n).as_bytes(),
            b" refused ",
            number.format(refusal.number()).as_bytes(),
            b" ",
            refusal.word().as_bytes(),
            b"\n",
        ],
    )
}

/// Writes the reply to a command that was refused because of an operation: `1 refused 51 NotLegalised #2`.
pub fn write_refused_for_op<W: Sink>(
    writer: &mut W,
    n: u64,
    refusal: Refusal,
    op: OpId,
) -> Result<(), WriteFault>
    ensures { Writes (W.stream writer.old) (W.stream writer.new) (refused_on_line n refusal op) result }
{
    let mut command = Buffer::new();
    let mut number = Buffer::new();
    let mut about = Buffer::new();
    write_all(
        writer,
        &[
            command.format(n).as_bytes(),
            b" refused ",
            number.format(refusal.number()).as_bytes(),
            b" ",
            refusal.word().as_bytes(),
            b" ",
            b"#",
            about.format(op.number()).as_bytes(),
            b"\n",
        ],
    )
}

/// Writes the reply to a command whose text was refused: `1 refused 3 UnknownValue at 17`. The offset counts bytes
/// from the start of the text.
pub fn write_refused_at<W: Sink>(
    writer: &mut W,
    n: u64,
    refusal: Refusal,
    offset: usize,
) -> Result<(), WriteFault>
    ensures { Writes (W.stream writer.old) (W.stream writer.new) (refused_at_line n refusal offset) result }
{
    let mut command = Buffer::new();
    let mut number = Buffer::new();
    let mut place = Buffer::new();
    write_all(
        writer,
        &[
            command.format(n).as_bytes(),
            b" refused ",
            number.format(refusal.number()).as_bytes(),
            b" ",
            refusal.word().as_bytes(),
            b" at ",
            place.format(offset).as_bytes(),
            b"\n",
        ],
    )
}

/// Writes the line after a command that wasn't refused as expected: `1 expected 22 HasUses`.
pub fn write_expected<W: Sink>(writer: &mut W, n: u64, refusal: Refusal) -> Result<(), WriteFault>
    ensures { Writes (W.stream writer.old) (W.stream writer.new) (expected_line n refusal) result }
{
    let mut command = Buffer::new();
    let mut number = Buffer::new();
    write_all(
        writer,
        &[
            command.format(n).as_bytes(),
            b" expected ",
            number.format(refusal.number()).as_bytes(),
            b" ",
            refusal.word().as_bytes(),
            b"\n",
        ],
    )
}

fn write_module_refused_at<W: Sink>(
    writer: &mut W,
    refusal: Refusal,
    offset: usize,
) -> Result<(), WriteFault>
    ensures { Writes (W.stream writer.old) (W.stream writer.new) (module_refused_line refusal (Some offset)) result }
{
    let mut number = Buffer::new();
    let mut place = Buffer::new();
    write_all(
        writer,
        &[
            b"module refused ",
            number.format(refusal.number()).as_bytes(),
            b" ",
            refusal.word().as_bytes(),
            b" at ",
            place.format(offset).as_bytes(),
            b"\n",
        ],
    )
}

fn write_module_refused_anywhere<W: Sink>(
    writer: &mut W,
    refusal: Refusal,
) -> Result<(), WriteFault>
    ensures { Writes (W.stream writer.old) (W.stream writer.new) (module_refused_line refusal None) result }
{
    let mut number = Buffer::new();
    write_all(
        writer,
        &[
            b"module refused ",
            number.format(refusal.number()).as_bytes(),
            b" ",
            refusal.word().as_bytes(),
            b"\n",
        ],
    )
}

/// Writes the line for a refused module: `module refused 7 BadValue at 16`, or without an offset. The offset counts
/// bytes from the start of the module.
pub fn write_module_refused<W: Sink>(
    writer: &mut W,
    refusal: Refusal,
    offset: Option<usize>,
) -> Result<(), WriteFault>
    ensures { Writes (W.stream writer.old) (W.stream writer.new) (module_refused_line refusal offset) result }
{
    match offset {
        Some(offset) => write_module_refused_at(writer, refusal, offset),
        None => write_module_refused_anywhere(writer, refusal),
    }
}

/// Writes a word in two parts between two texts.
fn write_between<'a, W: Sink>(
    writer: &mut W,
    preceding: &'a [u8],
    stem: &'a [u8],
    digits: &'a [u8],
    back: &'a [u8],
) -> Result<(), WriteFault>
    ensures { Writes (W.stream writer.old) (W.stream writer.new)
        (preceding.now ++ (stem.now ++ (digits.now ++ back.now))) result }
{
    write_all(writer, &[preceding, stem, digits, back])
}

/// Writes the word of a kind between two texts.
fn write_with_kind<W: Sink>(
    writer: &mut W,
    preceding: &[u8],
    kind: Kind,
    back: &[u8],
) -> Result<(), WriteFault>
    ensures { Writes (W.stream writer.old) (W.stream writer.new) (preceding.now ++ (kind_word kind ++ back.now)) result }
{
    match name_of(kind) {
        Some(name) => write_between(writer, preceding, name, b"", back),
        None => {
            let mut number = Buffer::new();
            write_between(
                writer,
                preceding,
                b"kind",
                number.format(kind.number()).as_bytes(),
                back,
            )
        }
    }
}

/// Writes a refusal at the end of a line: `36 Memory`.
fn write_refusal<W: Sink>(writer: &mut W, refusal: Refusal) -> Result<(), WriteFault>
    ensures { Writes (W.stream writer.old) (W.stream writer.new) (text_of refusal ++ codes "\n") result }
{
    let mut number = Buffer::new();
    write_all(
        writer,
        &[
            number.format(refusal.number()).as_bytes(),
            b" ",
            refusal.word().as_bytes(),
            b"\n",
        ],
    )
}

/// Writes the error line of a listener that can't be attached: `attach uses refused 36 Memory`.
pub fn write_attach_refused<W: Sink>(
    writer: &mut W,
    kind: Kind,
    refusal: Refusal,
) -> Result<(), WriteFault>
    ensures { Writes (W.stream writer.old) (W.stream writer.new) (attach_refused_line kind refusal) result }
{
    match write_with_kind(writer, b"attach ", kind, b" refused ") {
        Ok(()) => write_refusal(writer, refusal),
        Err(fault) => Err(fault),
    }
}

/// Writes the heading of the report rows of a kind: `-- uses`.
pub fn write_report_heading<W: Sink>(writer: &mut W, kind: Kind) -> Result<(), WriteFault>
    ensures { Writes (W.stream writer.old) (W.stream writer.new) (kind_line kind) result }
{
    write_with_kind(writer, b"-- ", kind, b"\n")
}

/// Writes the line for a listener that no longer follows the module: `-- uses stale`.
pub fn write_report_stale<W: Sink>(writer: &mut W, kind: Kind) -> Result<(), WriteFault>
    ensures { Writes (W.stream writer.old) (W.stream writer.new) (stale_line kind) result }
{
    write_with_kind(writer, b"-- ", kind, b" stale\n")
}

/// Writes the line for report rows that found no memory: `-- uses memory`.
pub fn write_report_memory<W: Sink>(writer: &mut W, kind: Kind) -> Result<(), WriteFault>
    ensures { Writes (W.stream writer.old) (W.stream writer.new) (kind_memory_line kind) result }
{
    write_with_kind(writer, b"-- ", kind, b" memory\n")
}

/// Writes the line for a module text that found no memory: `-- module memory`.
pub fn write_module_memory<W: Sink>(writer: &mut W) -> Result<(), WriteFault>
    ensures { Writes (W.stream writer.old) (W.stream writer.new) module_memory_line result }
{
    write(writer, b"-- module memory\n")
}
