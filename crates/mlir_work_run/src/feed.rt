//! Reads an input line by line, without waiting for the lines that follow.
ghost use Rattle.std.specs.Prelude.{◌≡◌, ◌<◌, ◌≤◌, ◌↔◌, IsTrue, true, length, position, None, IfOk, IfErr, IfSome};
ghost use Rattle.std.specs.Io.KnownBytes.{IsAtEnd, Keeps};
ghost use Rattle.mlir_work_script_base.specs.Lines.{is_newline};
ghost use Rattle.mlir_work_run.specs.Feeding.{HasFeed, HasLine, IfBroken, StartsLong, TakesLine, waiting};
ghost use Rattle.mlir_work_run.specs.declared.feed.LineChunk.TheVariants.{End as AtEnd, Line as GotLine, Part as GotPart};
ghost use Rattle.mlir_work_run.specs.declared.feed.LineError.TheVariants.{TooMany as WereTooMany};

use mlir_work_session::lines::split_line;
use mlir_work_session::sink::Sink;
use mlir_work_session::source::{Source, SourceFault};
use std::alloc::Global;
use thiserror::Error;

/// The bytes that one read asks for.
const CHUNK: usize = 8192;

/// The maximum number of reads for a line, interrupted ones included.
const MOST_READS: u64 = u64::MAX;

/// Why no line was taken.
#[derive(Clone, Copy, Debug, PartialEq, Eq, Error)]
pub enum LineError {
    /// A read failed.
    #[error("a read failed")]
    Broken,
    /// Memory ran out, or more than `MOST_READS` reads were needed.
    #[error("memory was refused")]
    Memory,
    /// The line is longer than allowed.
    #[error("the line is too long")]
    TooMany,
}

/// The result of one read.
#[derive(Clone, Copy, PartialEq, Eq)]
enum LineChunk {
    /// Bytes with a line feed.
    Line,
    /// Bytes without a line feed, or no bytes since the read was interrupted.
    Part,
    /// The end of the input.
    End,
}

/// Returns the index of the first line feed.
fn place_of_feed(bytes: &[u8]) -> Option<usize>
    ensures { result ≡ position is_newline bytes.now }
{
    bytes.iter().position(|b| *b == b'\n')
}

/// Returns whether the bytes contain a line feed.
fn has_feed(bytes: &[u8]) -> bool
    ensures { IsTrue result ↔ HasFeed bytes.now }
{
    match place_of_feed(bytes) {
        Some(_) => true,
        None => false,
    }
}

fn got_of(whole: bool) -> LineChunk
    ensures line { result ≡ GotLine → IsTrue whole }
    ensures part { result ≡ GotPart → IsTrue whole → ⊥ }
    ensures more { result ≡ AtEnd → ⊥ }
{
    if whole {
        LineChunk::Line
    } else {
        LineChunk::Part
    }
}

/// Reads once and appends the bytes to the buffer.
fn more<R: Source, W: Sink>(
    kept: &mut Vec<u8>,
    reader: &mut R,
    _writer: &W,
) -> Result<LineChunk, LineError>
    requires handed { W.handed _writer.now ≡ true }
    ensures whole { IfOk result (λ _. Keeps (waiting kept.old.items (R.intake reader.old).remaining) (waiting kept.new.items (R.intake reader.new).remaining)) }
    ensures line { IfOk result (λ got. got ≡ GotLine → HasFeed kept.new.items) }
    ensures part { IfOk result (λ got. got ≡ GotPart → (HasFeed kept.old.items → ⊥) → HasFeed kept.new.items → ⊥) }
    ensures end { IfOk result (λ got. got ≡ AtEnd → IsAtEnd (R.intake reader.new).remaining) }
    ensures failed { IfOk result (λ _. (R.intake reader.new).failed ≡ (R.intake reader.old).failed) }
    ensures broken { IfErr result (λ stop. IfBroken stop ((R.intake reader.new).failed ≡ true) ((R.intake reader.new).failed ≡ (R.intake reader.old).failed)) }
    ensures enough { IfErr result (λ stop. stop ≡ WereTooMany → ⊥) }
{
    let mut buffer = [0u8; CHUNK];
    match reader.read_some(&mut buffer) {
        Ok(0) => Ok(LineChunk::End),
        Ok(taken) => {
            let bytes = &buffer[..taken];
            let whole = has_feed(bytes);
            match kept.extend_from_slice(bytes) {
                Ok(()) => Ok(got_of(whole)),
                Err(_) => Err(LineError::Memory),
            }
        }
        Err(SourceFault::Interrupted) => Ok(LineChunk::Part),
        Err(SourceFault::Failed) => Err(LineError::Broken),
    }
}

/// Reads until the buffer has a whole line or the input ends.
fn fill<R: Source, W: Sink>(
    most: usize,
    kept: &mut Vec<u8>,
    reader: &mut R,
    writer: &W,
) -> Result<(), LineError>
    requires handed { W.handed writer.now ≡ true }
    ensures whole { IfOk result (λ _. Keeps (waiting kept.old.items (R.intake reader.old).remaining) (waiting kept.new.items (R.intake reader.new).remaining)) }
    ensures line { IfOk result (λ _. HasLine kept.new.items (R.intake reader.new).remaining) }
    ensures failed { IfOk result (λ _. (R.intake reader.new).failed ≡ (R.intake reader.old).failed) }
    ensures broken { IfErr result (λ stop. IfBroken stop ((R.intake reader.new).failed ≡ true) ((R.intake reader.new).failed ≡ (R.intake reader.old).failed)) }
    ensures many { IfErr result (λ stop. stop ≡ WereTooMany → StartsLong most (waiting kept.old.items (R.intake reader.old).remaining)) }
{
    if has_feed(kept) {
        return Ok(());
    }
    'turns: for _turn in 0..MOST_READS {
        if most < kept.len() {
            return Err(LineError::TooMany);
        }
        match more(kept, reader, writer) {
            Ok(LineChunk::Part) => {}
            Ok(LineChunk::Line | LineChunk::End) => return Ok(()),
            Err(stop) => return Err(stop),
        }
    }
    Err(LineError::Memory)
}

/// Takes the next line with its line feed, if it has one, and returns `None` at the end of the input. The line has at
/// most `most` bytes. The caller must have flushed the writer.
///
/// Errors: a read failed; the line is longer than `most` bytes; memory runs out.
pub fn take_line<R: Source, W: Sink>(
    alloc: Global,
    most: usize,
    kept: &mut Vec<u8>,
    reader: &mut R,
    writer: &W,
) -> Result<Option<Vec<u8>>, LineError>
    requires handed { W.handed writer.now ≡ true }
    ensures line { IfOk result (λ found. IfSome found (λ line. TakesLine (waiting kept.old.items (R.intake reader.old).remaining) (waiting kept.new.items (R.intake reader.new).remaining) line.items)) }
    ensures some { IfOk result (λ found. IfSome found (λ line. 0 < length line.items)) }
    ensures short { IfOk result (λ found. IfSome found (λ line. length line.items ≤ most)) }
    ensures end { IfOk result (λ found. found ≡ None → IsAtEnd (waiting kept.old.items (R.intake reader.old).remaining)) }
    ensures stays { IfOk result (λ found. found ≡ None → Keeps (waiting kept.old.items (R.intake reader.old).remaining) (waiting kept.new.items (R.intake reader.new).remaining)) }
    ensures failed { IfOk result (λ _. (R.intake reader.new).failed ≡ (R.intake reader.old).failed) }
    ensures broken { IfErr result (λ stop. IfBroken stop ((R.intake reader.new).failed ≡ true) ((R.intake reader.new).failed ≡ (R.intake reader.old).failed)) }
    ensures many { IfErr result (λ stop. stop ≡ WereTooMany → StartsLong most (waiting kept.old.items (R.intake reader.old).remaining)) }
{
    match fill(most, kept, reader, writer) {
        Ok(()) => {}
        Err(stop) => return Err(stop),
    }
    if kept.is_empty() {
        return Ok(None);
    }
    let (_, rest) = split_line(kept);
    let end = kept.len() - rest.len();
    if most < end {
        return Err(LineError::TooMany);
    }
    let Ok(line) = Vec::from_slice(alloc, &kept[..end]) else {
        return Err(LineError::Memory);
    };
    let Ok(rest) = Vec::from_slice(alloc, rest) else {
        return Err(LineError::Memory);
    };
    *kept = rest;
    Ok(Some(line))
}
