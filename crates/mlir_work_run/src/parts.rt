//! Reads the module of an input, up to the divider.
ghost use Rattle.std.specs.Prelude.{◌≡◌, true, IfOk, IfErr};
ghost use Rattle.mlir_work_script_base.specs.Limits.{most_input_bytes};
ghost use Rattle.mlir_work_script_base.specs.Parts.{at_divider as is_at_divider};
ghost use Rattle.mlir_work_run.specs.Feeding.{IfBroken, IsMore, TakesModule, waiting};
ghost use Rattle.mlir_work_run.specs.declared.feed.LineError.TheVariants.{TooMany as WereTooMany};

use crate::feed::{LineError, take_line};
use mlir_work_session::input::MAX_INPUT_BYTES;
use mlir_work_session::lines::split_line;
use mlir_work_session::sink::Sink;
use mlir_work_session::source::Source;
use std::alloc::Global;

/// The line between the module and the script.
const DIVIDER: &[u8] = b"// -----";

/// Returns whether the first line of a text is exactly the divider.
fn at_divider(text: &[u8]) -> bool
    ensures { result ≡ is_at_divider text.now }
{
    let (line, _) = split_line(text);
    line == DIVIDER
}

/// Takes the text of the module, up to the first line that is exactly the divider, and the divider.
pub fn take_module<R: Source, W: Sink>(
    alloc: Global,
    kept: &mut Vec<u8>,
    reader: &mut R,
    writer: &W,
) -> Result<Vec<u8>, LineError>
    requires handed { W.handed writer.now ≡ true }
    ensures module { IfOk result (λ text. TakesModule (waiting kept.old.items (R.intake reader.old).remaining) (waiting kept.new.items (R.intake reader.new).remaining) text.items) }
    ensures failed { IfOk result (λ _. (R.intake reader.new).failed ≡ (R.intake reader.old).failed) }
    ensures broken { IfErr result (λ stop. IfBroken stop ((R.intake reader.new).failed ≡ true) ((R.intake reader.new).failed ≡ (R.intake reader.old).failed)) }
    ensures many { IfErr result (λ stop. stop ≡ WereTooMany → IsMore most_input_bytes (waiting kept.old.items (R.intake reader.old).remaining)) }
{
    let mut text = Vec::new(alloc);
    'lines: loop {
        let line = match take_line(alloc, MAX_INPUT_BYTES - text.len(), kept, reader, writer) {
            Ok(Some(line)) => line,
            Ok(None) => return Ok(text),
            Err(stop) => return Err(stop),
        };
        if at_divider(&line) {
            return Ok(text);
        }
        match text.extend_from_slice(&line) {
            Ok(()) => {}
            Err(_) => return Err(LineError::Memory),
        }
    }
}
