//! Writes bytes without buffering.
ghost use Rattle.std.specs.Prelude.{◌≡◌, map, true, IfOk};
ghost use Rattle.mlir_work_script_base.specs.Writes.{HandsOn, Writes, joined};

use crate::sink::Sink;
use thiserror::Error;

/// A write failed, was interrupted or took no byte.
#[derive(Clone, Copy, Debug, PartialEq, Eq, Error)]
#[error("a write failed")]
pub struct WriteFault;

/// Writes all bytes. After a fault, a prefix of them was written.
pub fn write<W: Sink>(writer: &mut W, bytes: &[u8]) -> Result<(), WriteFault>
    ensures { Writes (W.stream writer.old) (W.stream writer.new) bytes.now result }
{
    let mut rest = bytes;
    while !rest.is_empty() {
        match writer.write_some(rest) {
            Ok(taken) => rest = &rest[taken..],
            Err(fault) => return Err(fault),
        }
    }
    Ok(())
}

/// Writes the pieces one after another. After a fault, a prefix of them was written.
pub fn write_all<W: Sink>(writer: &mut W, chunks: &[&[u8]]) -> Result<(), WriteFault>
    ensures { Writes (W.stream writer.old) (W.stream writer.new) (joined (map (λ chunk. chunk.now) chunks.now)) result }
{
    for chunk in chunks {
        match write(writer, chunk) {
            Ok(()) => {}
            Err(fault) => return Err(fault),
        }
    }
    Ok(())
}

/// Flushes the writer's buffer.
pub fn flush<W: Sink>(writer: &mut W) -> Result<(), WriteFault>
    ensures stays { HandsOn (W.stream writer.old) (W.stream writer.new) result }
    ensures handed { IfOk result (λ _. W.handed writer.new ≡ true) }
{
    writer.flush_inner()
}
