//! Writes the line for a refused module.
ghost use Rattle.std.specs.Prelude.{◌≡◌, Some};
ghost use Rattle.mlir_work_session.specs.Writes.{Writes};
ghost use Rattle.mlir_work_run.specs.Whole.{construct_if as construct_where, module_refused_text};

use ir_event::types::refusal::Refusal;
use itoa::Buffer;
use mlir_work_notes::unsupported::UnsupportedConstruct;
use mlir_work_session::replies::write_module_refused;
use mlir_work_session::sink::Sink;
use mlir_work_session::writing::{WriteFault, write_all};

/// Returns the unsupported construct if `explain` is set.
pub(crate) fn construct_if(
    explain: bool,
    unsupported: Option<UnsupportedConstruct>,
) -> Option<UnsupportedConstruct>
    ensures { result ≡ construct_where explain unsupported }
{
    match unsupported {
        None => None,
        Some(unsupported) => { if explain { Some(unsupported) } else { None } }
    }
}

/// Writes the line for a refused module with a note on the unsupported construct: `module refused 13 LeftOut at 14
/// about float-type`.
fn write_caused<W: Sink>(
    writer: &mut W,
    refusal: Refusal,
    offset: usize,
    unsupported: UnsupportedConstruct,
) -> Result<(), WriteFault>
    ensures { Writes (W.stream writer.old) (W.stream writer.new) (module_refused_text refusal (Some offset) (Some unsupported)) result }
{
    let mut number = Buffer::new();
    let mut place = Buffer::new();
    write_all(
        writer,
        &[
            b"module refused ",
            number.format(refusal.number()).as_bytes(),
            b" ",
            refusal.word().as_bytes(),
            b" at ",
            place.format(offset).as_bytes(),
            b" about ",
            unsupported.word(),
            b"\n",
        ],
    )
}

/// Writes the line for a refused module, with a note on the unsupported construct if there is one.
pub(crate) fn write_module_refusal<W: Sink>(
    writer: &mut W,
    refusal: Refusal,
    offset: Option<usize>,
    unsupported: Option<UnsupportedConstruct>,
) -> Result<(), WriteFault>
    ensures { Writes (W.stream writer.old) (W.stream writer.new) (module_refused_text refusal offset unsupported) result }
{
    match (offset, unsupported) {
        (Some(offset), Some(unsupported)) => write_caused(writer, refusal, offset, unsupported),
        (None, Some(_)) => write_module_refused(writer, refusal, None),
        (offset, None) => write_module_refused(writer, refusal, offset),
    }
}
