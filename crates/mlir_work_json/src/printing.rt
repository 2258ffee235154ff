//! Writes texts as JSON.
ghost use Rattle.std.specs.Prelude.{◌≡◌, ◌<◌, ◌+◌, [], ◌∷◌, ◌++◌, IfOk, IfSome, IsOk, length, take, true};
ghost use Rattle.mlir_work_json.specs.Lines.{json_text};
ghost use Rattle.mlir_work_json.specs.Printing.{Prints, is_memory};

use crate::text::json_text;
use mlir_work_script_base::cuts::cut_at;
use mlir_work_script_base::sink::Sink;
use mlir_work_script_base::writing::{flush, write};
use std::alloc::Global;
use thiserror::Error;

/// Why a line wasn't written as JSON.
#[derive(Clone, Copy, Debug, PartialEq, Eq, Error)]
pub enum PrintFault {
    /// Memory ran out for its object.
    #[error("there was no memory for an object")]
    Memory,
    /// A write failed.
    #[error("a write failed")]
    Write,
}

/// Returns whether memory ran out.
pub(crate) fn is_memory(printed: &Result<(), PrintFault>) -> bool
    ensures { result ≡ is_memory printed.now }
{
    match printed {
        Ok(()) | Err(PrintFault::Write) => false,
        Err(PrintFault::Memory) => true,
    }
}

/// Returns the first line without its line feed, if it has one.
#[tactic(auto, using(crate::proofs::Printed::feed_after))]
pub(crate) fn whole_line(bytes: &[u8]) -> Option<&[u8]>
    ensures line { IfSome result (λ line. take (length line.now + 1) bytes.now ≡ line.now ++ 10 ∷ []) }
    ensures within { IfSome result (λ line. length line.now < length bytes.now) }
{
    let (line, _) = cut_at(bytes, b'\n');
    if line.len() < bytes.len() {
        Some(line)
    } else {
        None
    }
}

/// Writes a text as JSON.
#[tactic(auto, using(crate::proofs::Printed::stays_same))]
fn print_text<W: Sink>(alloc: Global, text: &[u8], writer: &mut W) -> Result<(), PrintFault>
    ensures { Prints (W.stream writer.old) (W.stream writer.new) (json_text text.now) result }
{
    let Ok(json) = json_text(alloc, text) else {
        return Err(PrintFault::Memory);
    };
    match write(writer, &json) {
        Ok(()) => Ok(()),
        Err(_) => Err(PrintFault::Write),
    }
}

/// Writes a line as JSON, and appends the line feed to it, unless memory runs out.
#[tactic(auto, using(crate::proofs::Printed::stays_same))]
pub(crate) fn print_line<W: Sink>(
    alloc: Global,
    line: &mut Vec<u8>,
    writer: &mut W,
) -> Result<(), PrintFault>
    ensures { Prints (W.stream writer.old) (W.stream writer.new) (json_text (line.old.items ++ 10 ∷ [])) result }
{
    match line.push(b'\n') {
        Ok(()) => {}
        Err(_) => return Err(PrintFault::Memory),
    }
    print_text(alloc, line, writer)
}

/// Writes the last line, which has no line feed, as JSON, and flushes the writer. Does nothing if the line is empty.
#[tactic(auto, using(crate::proofs::Printed::empty_printed, crate::proofs::Printed::never_empty, crate::proofs::Printed::flushed_all, crate::proofs::Printed::flushed_none))]
pub(crate) fn print_last<W: Sink>(
    alloc: Global,
    line: &[u8],
    writer: &mut W,
) -> Result<(), PrintFault>
    ensures printed { Prints (W.stream writer.old) (W.stream writer.new) (json_text line.now) result }
    ensures handed { IfOk result (λ _. W.handed writer.old ≡ true → W.handed writer.new ≡ true) }
    ensures empty { line.now ≡ [] → IsOk result }
{
    if line.is_empty() {
        return Ok(());
    }
    match print_text(alloc, line, writer) {
        Ok(()) => {}
        Err(fault) => return Err(fault),
    }
    match flush(writer) {
        Ok(()) => Ok(()),
        Err(_) => Err(PrintFault::Write),
    }
}
