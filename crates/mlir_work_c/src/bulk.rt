//! The C functions that read many operations or values by one call, and report rows. They change nothing. Each read writes
//! as many items as there is space for, and returns how many it wrote.
ghost use Rattle.std.specs.Prelude.{◌≡◌, nat_lt};
ghost use Rattle.rewriter.specs.RewriterCalls.{AgreesOrStale};
ghost use Rattle.mlir_work_analyses.specs.Listeners.{any_analysis};
ghost use Rattle.mlir_work_c.specs.Calls.{IsHeld};
ghost use Rattle.mlir_work_c.specs.Bulk.{ReportGoes, ReportsOf, WritesHeadsOf, WritesOperandsOf, WritesRecordsOf, WritesTypesOf, WritesValueUsesOf};

use crate::answer::{Answer, closed, counted, refused};
use crate::handle::Handle;
use crate::session::Session;
use ir_event::row::Kind;
use ir_event::types::refusal::Refusal;
use mlir_work_c_read::bulk::{write_heads, write_operands, write_types, write_value_uses};
use mlir_work_c_read::numbers::{CellNumbers, Head, RecordItem, ValueNumbers, ValueUse};
use mlir_work_c_read::records::write_records;
use mlir_work_c_read::rows::{count_cells, write_rows};

/// Writes the names and the counts of operations.
#[unsafe(no_mangle)]
pub extern "C" fn mlir_work_heads(held: &mut Handle, operations: &[u32], into: &mut [Head]) -> usize
    requires kept { IsHeld held.old.slot.value }
    ensures same { held.new.slot.value ≡ held.old.slot.value }
    ensures reported { WritesHeadsOf operations.now held.old.slot.value into.old into.new result }
{
    if !held.is_open() {
        return 0;
    }
    let found = held.slot.as_mut();
    write_heads(found.bench.world(), operations, into)
}

/// Writes the operands of operations, one operation after the other.
#[unsafe(no_mangle)]
pub extern "C" fn mlir_work_operands(
    held: &mut Handle,
    operations: &[u32],
    into: &mut [ValueNumbers],
) -> usize
    requires kept { IsHeld held.old.slot.value }
    ensures same { held.new.slot.value ≡ held.old.slot.value }
    ensures reported { WritesOperandsOf operations.now held.old.slot.value into.old into.new result }
{
    if !held.is_open() {
        return 0;
    }
    let found = held.slot.as_mut();
    write_operands(found.bench.world(), operations, into)
}

/// Writes the types of values.
#[unsafe(no_mangle)]
pub extern "C" fn mlir_work_types(
    held: &mut Handle,
    values: &[ValueNumbers],
    into: &mut [u64],
) -> usize
    requires kept { IsHeld held.old.slot.value }
    ensures same { held.new.slot.value ≡ held.old.slot.value }
    ensures reported { WritesTypesOf values.now held.old.slot.value into.old into.new result }
{
    if !held.is_open() {
        return 0;
    }
    let found = held.slot.as_mut();
    write_types(found.bench.world(), values, into)
}

/// Writes the uses of values, one value after the other.
#[unsafe(no_mangle)]
pub extern "C" fn mlir_work_value_uses(
    held: &mut Handle,
    values: &[ValueNumbers],
    into: &mut [ValueUse],
) -> usize
    requires kept { IsHeld held.old.slot.value }
    ensures same { held.new.slot.value ≡ held.old.slot.value }
    ensures reported { WritesValueUsesOf values.now held.old.slot.value into.old into.new result }
{
    if !held.is_open() {
        return 0;
    }
    let found = held.slot.as_mut();
    write_value_uses(found.bench.world(), values, into)
}

/// Writes the records of operations, one operation after the other.
#[unsafe(no_mangle)]
pub extern "C" fn mlir_work_records(
    held: &mut Handle,
    operations: &[u32],
    into: &mut [RecordItem],
) -> usize
    requires kept { IsHeld held.old.slot.value }
    ensures same { held.new.slot.value ≡ held.old.slot.value }
    ensures reported { WritesRecordsOf operations.now held.old.slot.value into.old into.new result }
{
    if !held.is_open() {
        return 0;
    }
    let found = held.slot.as_mut();
    write_records(found.bench.world(), operations, into)
}

/// Writes the cells of the report of a kind, and returns the answer with the number of cells.
fn report_into(session: &Session, kind: u32, into: &mut [CellNumbers]) -> Answer
    requires kept { AgreesOrStale any_analysis session.now.bench }
    ensures { ReportsOf (nat_lt kind 256) kind session.now into.old into.new result }
{
    if kind >= 256 {
        return refused(Refusal::NoSuchKind);
    }
    let rows = match session.bench.report(Kind::new(kind as u8)) {
        Ok(rows) => rows,
        Err(refusal) => return refused(refusal),
    };
    write_rows(&rows, into);
    counted(count_cells(&rows) as u64)
}

/// Writes the cells of the report of a kind, as many as there is space for. The answer has the number of cells.
#[unsafe(no_mangle)]
pub extern "C" fn mlir_work_report(
    held: &mut Handle,
    kind: u32,
    into: &mut [CellNumbers],
    answer: &mut Answer,
)
    requires kept { IsHeld held.old.slot.value }
    ensures same { held.new.slot.value ≡ held.old.slot.value }
    ensures reported { ReportGoes kind held.old.slot.value into.old into.new answer.new }
{
    if !held.is_open() {
        *answer = closed();
        return;
    }
    let found = held.slot.as_mut();
    *answer = report_into(found, kind, into);
}
