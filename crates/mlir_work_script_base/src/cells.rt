//! Writes the cells of report rows.
ghost use Rattle.std.specs.Fmt.{decimal};
ghost use Rattle.ir_event.specs.trees.declared.value.Value.TheVariants.{Result as ResultOf, Arg};
ghost use Rattle.mlir_work_script_base.specs.Values.{op_text, value_text};
ghost use Rattle.mlir_work_script_base.specs.Writes.{Writes};

use crate::sink::Sink;
use crate::writing::{WriteFault, write, write_all};
use ir_event::trees::value::Value;
use ir_event::types::ids::OpId;
use itoa::Buffer;

/// Writes a decimal number.
pub fn write_number<W: Sink>(writer: &mut W, n: u64) -> Result<(), WriteFault>
    ensures { Writes (W.stream writer.old) (W.stream writer.new) (decimal n) result }
{
    let mut number = Buffer::new();
    write(writer, number.format(n).as_bytes())
}

/// Writes an operation id: `#3`.
pub fn write_op_id<W: Sink>(writer: &mut W, op: OpId) -> Result<(), WriteFault>
    ensures { Writes (W.stream writer.old) (W.stream writer.new) (op_text op) result }
{
    let mut number = Buffer::new();
    write_all(writer, &[b"#", number.format(op.number()).as_bytes()])
}

fn write_result<W: Sink>(writer: &mut W, op: OpId, place: u32) -> Result<(), WriteFault>
    ensures { Writes (W.stream writer.old) (W.stream writer.new) (value_text (ResultOf op place)) result }
{
    let mut owner = Buffer::new();
    let mut number = Buffer::new();
    write_all(
        writer,
        &[
            b"%v",
            owner.format(op.number()).as_bytes(),
            b".",
            number.format(place).as_bytes(),
        ],
    )
}

fn write_argument<W: Sink>(
    writer: &mut W,
    op: OpId,
    region: u32,
    place: u32,
) -> Result<(), WriteFault>
    ensures { Writes (W.stream writer.old) (W.stream writer.new) (value_text (Arg op region place)) result }
{
    let mut owner = Buffer::new();
    let mut block = Buffer::new();
    let mut number = Buffer::new();
    write_all(
        writer,
        &[
            b"%a",
            owner.format(op.number()).as_bytes(),
            b".",
            block.format(region).as_bytes(),
            b".",
            number.format(place).as_bytes(),
        ],
    )
}

/// Writes a value: a result as `%v2.0`, a block argument as `%a1.0.0`.
pub fn write_value<W: Sink>(writer: &mut W, value: Value) -> Result<(), WriteFault>
    ensures { Writes (W.stream writer.old) (W.stream writer.new) (value_text value) result }
{
    match value {
        Value::Result(op, place) => write_result(writer, op, place),
        Value::Arg(op, region, place) => write_argument(writer, op, region, place),
    }
}
