//! Reads the whole input of a run, within limits, and splits it into a module and a script.
ghost use Rattle.std.specs.Prelude.{◌≡◌, ◌<◌, ◌≤◌, ◌++◌, length, None, IfErr, IfOk, IfSome, IsTrue, ◌↔◌};
ghost use Rattle.mlir_work_script_base.specs.declared.input.ReadFault.TheVariants.{TooMany, Memory as NoMemory};
ghost use Rattle.mlir_work_script_base.specs.Limits.{most_input_bytes, most_reads, most_script_bytes};
ghost use Rattle.mlir_work_script_base.specs.Lines.{after_line};
ghost use Rattle.mlir_work_script_base.specs.Parts.{at_divider, module_text, script_text};
ghost use Rattle.mlir_work_script_base.specs.Reads.{AreMadeAtMost, ReadsWhole};

use crate::lines::split_line;
use crate::source::{Source, SourceFault};
use memchr::memchr;
use std::alloc::Global;
use thiserror::Error;

/// The maximum number of bytes of an input.
pub const MAX_INPUT_BYTES: usize = 33_554_432;

/// The maximum number of bytes of a script.
pub const MAX_SCRIPT_BYTES: usize = 16_777_216;

/// The maximum number of reads of a run, interrupted ones included. An input has fewer bytes, and each uninterrupted
/// read except the last gives at least one.
pub const MAX_READS: u32 = 40_000_000;

/// The bytes that one read asks for.
const CHUNK: usize = 8192;

/// The line between the module and the script.
const DIVIDER: &[u8] = b"// -----";

/// Why an input couldn't be read.
#[derive(Clone, Copy, Debug, PartialEq, Eq, Error)]
pub enum ReadFault {
    /// A read failed, or the number of reads would exceed `MAX_READS`.
    #[error("a read failed")]
    Broken,
    /// The input has more than `MAX_INPUT_BYTES` bytes.
    #[error("the input is too long")]
    TooMany,
    /// Memory ran out.
    #[error("memory was refused")]
    Memory,
}

/// Appends bytes to the buffer. Drops the buffer if memory runs out.
fn keep(kept: &mut Option<Vec<u8>>, bytes: &[u8])
    ensures kept { IfSome kept.new (λ all. IfSome kept.old (λ before. all.items ≡ before.items ++ bytes.now)) }
    ensures lost { kept.old ≡ None → kept.new ≡ None }
{
    let Some(all) = kept else {
        return;
    };
    if all.extend_from_slice(bytes).is_err() {
        *kept = None;
    }
}

/// Reads to the end of the input with at most `MAX_READS` reads. An interrupted read is repeated, and counts. If
/// memory runs out, reading continues without a buffer, so that an oversized input always gives `TooMany`.
pub fn read_all<R: Source>(alloc: Global, reader: &mut R) -> Result<Vec<u8>, ReadFault>
    ensures whole { IfOk result (λ all. IfSome (R.intake reader.old).remaining (λ input. all.items ≡ input)) }
    ensures within { IfOk result (λ all. length all.items ≤ most_input_bytes) }
    ensures too_many { IfErr result (λ fault. fault ≡ TooMany →
        IfSome (R.intake reader.old).remaining (λ input. most_input_bytes < length input)) }
    ensures memory { IfErr result (λ fault. fault ≡ NoMemory →
        IfSome (R.intake reader.old).remaining (λ input. length input ≤ most_input_bytes)) }
    ensures read { ReadsWhole (R.intake reader.old) (R.intake reader.new) result }
    ensures made { AreMadeAtMost (R.intake reader.old).reads (R.intake reader.new).reads most_reads }
{
    // One block of the largest size: nothing is copied as the input grows, and the C library maps it apart from its heap.
    let mut kept = Vec::with_capacity(alloc, MAX_INPUT_BYTES).ok();
    let mut count = 0usize;
    let mut buffer = [0u8; CHUNK];
    for _made in 0..MAX_READS {
        match reader.read_some(&mut buffer) {
            Ok(0) => return kept.ok_or(ReadFault::Memory),
            Ok(taken) => {
                if MAX_INPUT_BYTES - count < taken {
                    return Err(ReadFault::TooMany);
                }
                count += taken;
                keep(&mut kept, &buffer[..taken]);
            }
            Err(SourceFault::Interrupted) => {}
            Err(SourceFault::Failed) => return Err(ReadFault::Broken),
        }
    }
    Err(ReadFault::Broken)
}

/// Returns whether the first line of a text is exactly the divider. If the line isn't a comment, only its first byte
/// is inspected.
#[tactic(auto, using(crate::proofs::Dividers::no_slash))]
fn at_divider(text: &[u8]) -> bool
    ensures { result ≡ at_divider text.now }
{
    match text {
        [] => false,
        [byte, ..] => {
            if *byte != b'/' {
                return false;
            }
            let (line, _) = split_line(text);
            line == DIVIDER
        }
    }
}

/// Returns the text after the first line.
fn next_line(text: &[u8]) -> &[u8]
    ensures { result.now ≡ after_line text.now }
{
    match memchr(b'\n', text) {
        Some(place) => &text[place + 1..],
        None => &[],
    }
}

/// Splits an input into the text of the module and the script: the parts before and after the first line that is
/// exactly `// -----`. Without such a line the script is empty.
pub fn split(input: &[u8]) -> (&[u8], &[u8])
    ensures module { result.0.now ≡ module_text input.now }
    ensures script { result.1.now ≡ script_text input.now }
{
    let mut rest = input;
    'lines: while !rest.is_empty() {
        if at_divider(rest) {
            return (&input[..input.len() - rest.len()], next_line(rest));
        }
        rest = next_line(rest);
    }
    (input, &[])
}

/// Returns whether a script has more than `MAX_SCRIPT_BYTES` bytes.
pub fn script_is_too_long(script: &[u8]) -> bool
    ensures { IsTrue result ↔ (most_script_bytes < length script.now) }
{
    MAX_SCRIPT_BYTES < script.len()
}
