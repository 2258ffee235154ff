//! The trait `Sink`: writers that may record failed writes.
ghost use Rattle.std.specs.Prelude.{◌≡◌, ◌<◌, length, Bool, true, IfOk};
ghost use Rattle.std.specs.Io.{WritesAtMost};
ghost use Rattle.mlir_work_script_base.specs.Writes.{Stream, Accepts, HandsOn};

use crate::watched::Watched;
use crate::writing::WriteFault;
use std::io::Write;

/// A writer of bytes. Each `std::io::Write` is a sink. A `Watched` writer also records whether a write failed and
/// whether all written bytes were flushed.
pub trait Sink {
    ghost stream: { Self → Stream };

    /// Whether all written bytes were flushed. It is `true` for an unwatched writer, which keeps no record.
    ghost handed: { Self → Bool };

    /// Writes at least one of the bytes and returns the number written.
    fn write_some(&mut self, bytes: &[u8]) -> Result<usize, WriteFault>
        requires { 0 < length bytes.now }
        ensures bound { WritesAtMost result bytes.now }
        ensures wrote { Accepts (stream self.old) (stream self.new) result bytes.now };

    /// Flushes the writer's buffer.
    fn flush_inner(&mut self) -> Result<(), WriteFault>
        ensures stays { HandsOn (stream self.old) (stream self.new) result }
        ensures handed { IfOk result (λ _. handed self.new ≡ true) };
}

/// A write that fails, is interrupted or takes no byte is a fault. Nothing is recorded.
impl<W: Write> Sink for W {
    ghost stream = { λ w. record { contents = W.contents w; failed = true } };

    ghost handed = { λ w. true };

    fn write_some(&mut self, bytes: &[u8]) -> Result<usize, WriteFault> {
        match self.write(bytes) {
            Ok(0) => Err(WriteFault),
            Ok(taken) => Ok(taken),
            Err(_) => Err(WriteFault),
        }
    }

    fn flush_inner(&mut self) -> Result<(), WriteFault> {
        match self.flush() {
            Ok(()) => Ok(()),
            Err(_) => Err(WriteFault),
        }
    }
}

/// Failed writes and flushes are recorded.
impl<W: Write> Sink for Watched<W> {
    ghost stream = { λ w. record { contents = W.contents w.inner; failed = w.failed } };

    ghost handed = { λ w. w.handed };

    fn write_some(&mut self, bytes: &[u8]) -> Result<usize, WriteFault> {
        self.handed = false;
        match self.inner.write_some(bytes) {
            Ok(taken) => Ok(taken),
            Err(fault) => {
                self.failed = true;
                Err(fault)
            }
        }
    }

    fn flush_inner(&mut self) -> Result<(), WriteFault> {
        match self.inner.flush_inner() {
            Ok(()) => {
                self.handed = true;
                Ok(())
            }
            Err(fault) => {
                self.failed = true;
                Err(fault)
            }
        }
    }
}
