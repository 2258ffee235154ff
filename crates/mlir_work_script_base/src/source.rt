//! The trait `Source`: readers that may record their reads.
ghost use Rattle.std.specs.Prelude.{None, Some, true};
ghost use Rattle.std.specs.Io.{ReadsAtMost};
ghost use Rattle.std.specs.Io.KnownBytes.{ReadConsumes};
ghost use Rattle.mlir_work_script_base.specs.Reads.{Intake, Takes};

use crate::watched::Watched;
use std::io::{ErrorKind, Read};
use thiserror::Error;

/// Why a read gave nothing.
#[derive(Clone, Copy, Debug, PartialEq, Eq, Error)]
pub enum SourceFault {
    /// The read was interrupted and can be repeated.
    #[error("a read was interrupted")]
    Interrupted,
    /// The read failed.
    #[error("a read failed")]
    Failed,
}

/// A reader of bytes. Each `std::io::Read` is a source. A `Watched` reader also records the number of reads, and
/// whether one was interrupted or failed.
pub trait Source {
    ghost intake: { Self → Intake };

    /// Reads once into the buffer and returns the number of bytes: 0 only at the end of the input or if the buffer is
    /// empty.
    fn read_some(&mut self, buffer: &mut [u8]) -> Result<usize, SourceFault>
        ensures bound { ReadsAtMost result buffer.new }
        ensures took { Takes (intake self.old) (intake self.new) result buffer.new };
}

/// Reads once.
fn read_once<R: Read>(reader: &mut R, buffer: &mut [u8]) -> Result<usize, SourceFault>
    ensures bound { ReadsAtMost result buffer.new }
    ensures took { ReadConsumes (R.remaining reader.old) (R.remaining reader.new) result buffer.new }
{
    match reader.read(buffer) {
        Ok(taken) => Ok(taken),
        Err(error) => {
            if error.kind() == ErrorKind::Interrupted {
                Err(SourceFault::Interrupted)
            } else {
                Err(SourceFault::Failed)
            }
        }
    }
}

/// Nothing is recorded.
impl<R: Read> Source for R {
    ghost intake = { λ r. record { remaining = R.remaining r; failed = true; interrupted = true; reads = None } };

    fn read_some(&mut self, buffer: &mut [u8]) -> Result<usize, SourceFault> {
        read_once(self, buffer)
    }
}

/// Reads are recorded. If the read counter would overflow, no read is made, and the call counts as a failed read.
impl<R: Read> Source for Watched<R> {
    ghost intake = { λ r. record {
      remaining = R.remaining r.inner;
      failed = r.failed;
      interrupted = r.interrupted;
      reads = Some r.reads;
    } };

    fn read_some(&mut self, buffer: &mut [u8]) -> Result<usize, SourceFault> {
        let Some(reads) = self.reads.checked_add(1) else {
            self.failed = true;
            return Err(SourceFault::Failed);
        };
        self.reads = reads;
        match read_once(&mut self.inner, buffer) {
            Ok(taken) => Ok(taken),
            Err(SourceFault::Interrupted) => {
                self.interrupted = true;
                Err(SourceFault::Interrupted)
            }
            Err(SourceFault::Failed) => {
                self.failed = true;
                Err(SourceFault::Failed)
            }
        }
    }
}
