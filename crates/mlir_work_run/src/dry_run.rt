//! Dry runs: the input is in memory and the output is discarded, so reads and writes can't fail.
ghost use Rattle.std.specs.Prelude.{ℕ, List, Some, None, false, true};
ghost use Rattle.mlir_work_session.specs.Panels.{all_shown};
ghost use Rattle.mlir_work_session.specs.Reads.{Intake};
ghost use Rattle.mlir_work_session.specs.Writes.{Stream};
ghost use Rattle.mlir_work_run.specs.Whole.{IsOutput, setting_of};

use crate::run::{Options, run_watched};
use mlir_work_session::analysis_source::AnalysisSource;
use mlir_work_session::registry::PatternRegistry;
use mlir_work_session::sink::Sink;
use mlir_work_session::source::{Source, SourceFault};
use mlir_work_session::writing::WriteFault;
use std::alloc::Global;
use std::io::Read;

/// A reader of bytes in memory. Reads don't fail, aren't interrupted and aren't counted.
#[derive(Drop)]
pub struct Bytes<'a> {
    /// The bytes that weren't read yet.
    pub rest: &'a [u8],
}

impl Source for Bytes<'_> {
    ghost intake = { λ b. record { remaining = Some b.rest.now; failed = false; interrupted = false; reads = None } };

    fn read_some(&mut self, buffer: &mut [u8]) -> Result<usize, SourceFault> {
        match self.rest.read(buffer) {
            Ok(taken) => Ok(taken),
            Err(_) => Err(SourceFault::Failed),
        }
    }
}

/// A writer that discards all bytes. Writes don't fail.
#[derive(Drop)]
struct NullSink;

impl Sink for NullSink {
    ghost stream = { λ w. record { contents = None; failed = false } };

    ghost handed = { λ w. true };

    fn write_some(&mut self, bytes: &[u8]) -> Result<usize, WriteFault> {
        Ok(bytes.len())
    }

    fn flush_inner(&mut self) -> Result<(), WriteFault> {
        Ok(())
    }
}

/// Returns the exit status of a run on an input: 0, 1 or 3. It is the status of an output of the input, and never 4.
pub fn dry_run<L: AnalysisSource>(
    alloc: Global,
    key: u64,
    options: Options,
    input: &[u8],
    boxes: Vec<L>,
) -> u8
    ensures { (out : List ℕ) × IsOutput (setting_of L.supply options) (all_shown L.meaning boxes.items) input.now result out }
{
    let mut reader = Bytes { rest: input };
    run_watched(
        alloc,
        key,
        options,
        &mut reader,
        &mut NullSink,
        boxes,
        PatternRegistry::new(alloc),
    )
}
