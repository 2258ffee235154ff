//! A writer that converts each line to a JSON object.
ghost use Rattle.std.specs.Prelude.{◌≡◌, map, true};
ghost use Rattle.mlir_work_json.specs.Printing.{is_printed};

use crate::history::History;
use crate::printing::{PrintFault, is_memory, print_last, print_line, whole_line};
use mlir_work_script_base::sink::Sink;
use mlir_work_script_base::writing::WriteFault;
use std::alloc::Global;
use std::snapshot::Snapshot;

/// A writer of text that converts each line to a JSON object on one line, and writes the objects to another writer. It
/// keeps only the line that isn't complete yet.
///
/// If an object can't be written, or memory runs out for it, the next write or flush fails, and nothing more is
/// written.
#[derive(Drop)]
pub struct JsonLines<W: Sink> {
    pub(crate) alloc: Global,
    /// The writer of the objects.
    pub(crate) inner: W,
    /// The line that isn't complete yet.
    pub(crate) line: Vec<u8>,
    /// The complete lines, without their line feeds. Only proofs read them.
    pub(crate) lines: History<Vec<u8>>,
    /// The writer before the first line. Only proofs read it.
    pub(crate) start: Snapshot<W>,
    /// Whether an object wasn't written, or a flush failed.
    pub(crate) broken: bool,
    /// Whether that is since memory ran out.
    pub(crate) refused: bool,
    /// Whether a write or a flush reported it.
    pub(crate) failed: bool,
    ghost printed: { is_printed (W.stream start.value) (W.stream inner) (map (λ l. l.items) lines.items) broken refused failed ≡ true },
}

impl<W: Sink> JsonLines<W> {
    ghost use Rattle.std.specs.Prelude.{[], false};

    /// Returns a writer of text that writes objects to a writer.
    #[tactic(auto, using(crate::proofs::Printed::printed_none))]
    pub fn new(alloc: Global, inner: W) -> JsonLines<W>
        ensures start { result.start.value ≡ inner }
        ensures lines { result.lines.items ≡ [] }
        ensures line { result.line.items ≡ [] }
        ensures failed { result.failed ≡ false }
    {
        let start = Snapshot::of(&inner);
        JsonLines {
            alloc,
            inner,
            line: Vec::new(alloc),
            lines: History::new(),
            start,
            broken: false,
            refused: false,
            failed: false,
        }
    }
}

impl<W: Sink> JsonLines<W> {
    ghost use Rattle.std.specs.Prelude.{[], ◌∷◌, ◌++◌, false};

    /// Writes the line that is kept as JSON.
    fn end_line(&mut self)
        requires { self.old.broken ≡ false }
        ensures lines { self.new.lines.items ≡ self.old.lines.items ++ self.old.line ∷ [] }
        ensures line { self.new.line.items ≡ [] }
        ensures start { self.new.start.value ≡ self.old.start.value }
        ensures failed { self.new.failed ≡ self.old.failed }
    {
        self.lines = self.lines.and(&self.line);
        let printed = print_line(self.alloc, &mut self.line, &mut self.inner);
        self.broken = printed.is_err();
        self.refused = is_memory(&printed);
        self.line.clear();
    }
}

impl<W: Sink> JsonLines<W> {
    ghost use Rattle.std.specs.Prelude.{◌++◌, OnErr, OnOk, false};

    /// Appends bytes to the line that is kept. If memory runs out, reports a fault.
    #[tactic(auto, using(crate::proofs::Printed::refused_so))]
    fn keep(&mut self, bytes: &[u8]) -> Result<(), WriteFault>
        requires { self.old.broken ≡ false }
        ensures line { OnOk result (self.new.line.items ≡ self.old.line.items ++ bytes.now) }
        ensures broken { OnOk result (self.new.broken ≡ false) }
        ensures sound { OnOk result (self.new.failed ≡ self.old.failed) }
        ensures refused { OnErr result (self.new.line.items ≡ self.old.line.items) }
        ensures failed { OnErr result (self.new.failed ≡ true) }
        ensures lines { self.new.lines.items ≡ self.old.lines.items }
        ensures start { self.new.start.value ≡ self.old.start.value }
    {
        match self.line.extend_from_slice(bytes) {
            Ok(()) => Ok(()),
            Err(_) => {
                self.broken = true;
                self.refused = true;
                self.failed = true;
                Err(WriteFault)
            }
        }
    }
}

/// Each line feed ends a line. A write takes no bytes after it.
impl<W: Sink> Sink for JsonLines<W> {
    ghost use Rattle.std.specs.Prelude.{◌++◌, ◌&&◌, not};
    ghost use Rattle.mlir_work_json.specs.Printing.{text_of, text_stream};

    ghost stream = { λ p. text_stream (W.stream p.start.value) (text_of (map (λ l. l.items) p.lines.items) ++ p.line.items) p.failed };

    ghost handed = { λ p. W.handed p.inner && not p.broken };

    #[tactic(auto, using(crate::proofs::Printed::reported_so, crate::proofs::Printed::text_kept, crate::proofs::Printed::text_step))]
    fn write_some(&mut self, bytes: &[u8]) -> Result<usize, WriteFault> {
        if self.broken {
            self.failed = true;
            return Err(WriteFault);
        }
        let Some(line) = whole_line(bytes) else {
            return match self.keep(bytes) {
                Ok(()) => Ok(bytes.len()),
                Err(fault) => Err(fault),
            };
        };
        match self.keep(line) {
            Ok(()) => {}
            Err(fault) => return Err(fault),
        }
        self.end_line();
        Ok(line.len() + 1)
    }

    #[tactic(auto, using(crate::proofs::Printed::reported_so, crate::proofs::Printed::flushed_so, crate::proofs::Printed::unflushed_so))]
    fn flush_inner(&mut self) -> Result<(), WriteFault> {
        if self.broken {
            self.failed = true;
            return Err(WriteFault);
        }
        match self.inner.flush_inner() {
            Ok(()) => Ok(()),
            Err(fault) => {
                self.broken = true;
                self.refused = false;
                self.failed = true;
                Err(fault)
            }
        }
    }
}

impl<W: Sink> JsonLines<W> {
    ghost use Rattle.std.specs.Prelude.{◌&&◌};

    /// Returns whether an object wasn't written, or a flush failed.
    pub fn is_broken(&self) -> bool
        ensures { result ≡ self.now.broken }
    {
        self.broken
    }

    /// Returns whether an object wasn't written since memory ran out.
    pub fn has_refused(&self) -> bool
        ensures { result ≡ (self.now.broken && self.now.refused) }
    {
        self.broken && self.refused
    }
}

impl<W: Sink> JsonLines<W> {
    ghost use Rattle.std.specs.Prelude.{[], ◌++◌, ◌&&◌, ◌||◌, ℕ, List, false};
    ghost use Rattle.mlir_work_json.specs.Lines.{json_text};
    ghost use Rattle.mlir_work_json.specs.Printing.{text_of};
    ghost use Rattle.mlir_work_script_base.specs.Writes.{AppendsPreceding, Stays};

    /// Returns the writer of the objects, without the line that isn't complete yet. It has a prefix of the JSON of each
    /// text that begins with the complete lines.
    #[tactic(auto, using(crate::proofs::Printed::cut_off, crate::proofs::Printed::write_failed, crate::proofs::Printed::none_so))]
    pub fn into_inner(self) -> W
        ensures inner { result ≡ self.inner }
        ensures cut { (rest : List ℕ) → AppendsPreceding (W.stream self.start.value).contents (W.stream result).contents
            (json_text (text_of (map (λ l. l.items) self.lines.items) ++ rest)) }
        ensures write { ((W.stream self.start.value).failed || (self.failed || self.broken)) ≡ true
            → (self.broken && self.refused) ≡ false → (W.stream result).failed ≡ true }
        ensures none { text_of (map (λ l. l.items) self.lines.items) ++ self.line.items ≡ [] → self.failed ≡ false
            → Stays (W.stream self.start.value) (W.stream result) × (self.broken ≡ false) }
    {
        self.inner
    }
}

impl<W: Sink> JsonLines<W> {
    ghost use Rattle.std.specs.Prelude.{[], ◌++◌, IfOk, IsOk, false};
    ghost use Rattle.mlir_work_json.specs.Lines.{json_text};
    ghost use Rattle.mlir_work_json.specs.Printing.{PrintsAll, text_of};

    /// Writes the last line as JSON, if it has no line feed, and then flushes the writer of the objects. Returns that
    /// writer, which has the JSON of the whole text, or a prefix of it.
    #[tactic(auto, using(crate::proofs::Printed::last_so, crate::proofs::Printed::unreported_so))]
    pub fn finish(self) -> (Result<(), PrintFault>, W)
        requires { self.broken ≡ false }
        ensures printed { PrintsAll (W.stream self.start.value) (W.stream result.1) (json_text (text_of (map (λ l. l.items) self.lines.items) ++ self.line.items)) result.0 }
        ensures handed { IfOk result.0 (λ _. W.handed self.inner ≡ true → W.handed result.1 ≡ true) }
        ensures empty { self.line.items ≡ [] → IsOk result.0 }
        ensures unreported { self.failed ≡ false }
    {
        let (alloc, line) = (self.alloc, self.line);
        let mut inner = self.inner;
        let printed = print_last(alloc, &line, &mut inner);
        (printed, inner)
    }
}
