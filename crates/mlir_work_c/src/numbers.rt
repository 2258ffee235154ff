//! Insertion points as C structs, and the numbers of results.
ghost use Rattle.std.specs.Prelude.{◌≡◌};
ghost use Rattle.std.specs.Option.{option_map};
ghost use Rattle.mlir_work_script_base.specs.InsertionPoints.{insertion_point_of};
ghost use Rattle.mlir_work_c.specs.Numbers.{point_of_numbers};

use ir_event::types::ids::OpId;
use mlir_work_script_base::insertion_points::InsertionPoint;

/// The number for memory that ran out.
pub(crate) const NO_MEMORY: u64 = 18_446_744_073_709_551_614;

/// An insertion point: directly before (0) or after (1) an operation, or at the start (2) or the end (3) of the block
/// of its region.
#[repr(C)]
#[derive(Clone, Copy)]
pub struct InsertionPointNumbers {
    pub kind: u32,
    pub operation: u32,
    pub region: u32,
}

/// A new operation: its insertion point and the number of its name.
#[repr(C)]
#[derive(Clone, Copy)]
pub struct NewOperation {
    pub point: InsertionPointNumbers,
    pub name: u32,
}

/// Returns the insertion point of a C struct, or `None` if its kind is unknown.
pub(crate) fn point_of(numbers: &InsertionPointNumbers) -> Option<InsertionPoint>
    ensures { option_map insertion_point_of result ≡ point_of_numbers numbers.now }
{
    let op = OpId::new(numbers.operation);
    match numbers.kind {
        0 => Some(InsertionPoint::Before(op)),
        1 => Some(InsertionPoint::After(op)),
        2 => Some(InsertionPoint::Start(op, numbers.region)),
        3 => Some(InsertionPoint::End(op, numbers.region)),
        _ => None,
    }
}
