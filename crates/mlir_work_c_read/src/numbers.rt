//! Numbers that C reads and writes, as C structs.
ghost use Rattle.std.specs.Prelude.{◌≡◌};
ghost use Rattle.mlir_work_c_read.specs.Numbers.{no_number, number_of as reported, numbers_of, value_of};

use ir_event::trees::value::Value;
use ir_event::types::ids::OpId;

/// A value: result `place` of an operation if `region` is 4294967295, or else argument `place` of the block of that
/// region.
#[repr(C)]
#[derive(Clone, Copy)]
pub struct ValueNumbers {
    pub operation: u32,
    pub region: u32,
    pub place: u32,
}

/// A use: the operation and the index of its operand.
#[repr(C)]
#[derive(Clone, Copy)]
pub struct UseNumbers {
    pub operation: u32,
    pub operand: u32,
}

/// A use of one of several values: the index of the value, the operation, and the index of its operand.
#[repr(C)]
#[derive(Clone, Copy)]
pub struct ValueUse {
    pub value: usize,
    pub operation: u32,
    pub operand: u32,
}

/// An entry of a dictionary: the numbers of its key and its attribute.
#[repr(C)]
#[derive(Clone, Copy)]
pub struct EntryNumbers {
    pub key: u32,
    pub attribute: u32,
}

/// How many operands, results, properties, attributes and regions an operation has.
#[repr(C)]
#[derive(Clone, Copy)]
pub struct Counts {
    pub operands: usize,
    pub results: usize,
    pub properties: usize,
    pub attributes: usize,
    pub regions: usize,
}

/// The number of the name of an operation, and its counts. Without an operation the name is 2^64 - 1, and all counts
/// are 0.
#[repr(C)]
#[derive(Clone, Copy)]
pub struct Head {
    pub name: u64,
    pub counts: Counts,
}

/// An item of a record (`specs/Records.antt`): an operation, with its name, its number of operands and its number of
/// results; an operand, as `ValueNumbers`; a result, with its type and its number of uses; or a use, as `UseNumbers`.
#[repr(C)]
#[derive(Clone, Copy)]
pub struct RecordItem {
    pub first: u32,
    pub second: u32,
    pub third: u32,
}

/// An integer: its value below 2^w of a type of width w, the number of its type, and the width, which is 0 for index.
#[repr(C)]
#[derive(Clone, Copy)]
pub struct IntegerNumbers {
    pub low: u64,
    pub high: u64,
    pub ty: u32,
    pub width: u32,
}

/// A cell of a report row. `kind` is 0 for an operation, 1 for a value, 2 for a number, 3 for a name, 4 for a symbol
/// reference, 5 for a constant, 6 for a rule of the verifier, and 7 for a word. `left` is the number of cells after it
/// in its row.
#[repr(C)]
#[derive(Clone, Copy)]
pub struct CellNumbers {
    pub kind: u32,
    /// The value, or the operation; or in `place` the width of a constant, and 0 for index.
    pub value: ValueNumbers,
    /// The number of a number, name, attribute, rule or word, or the lower 64 bits of a constant.
    pub low: u64,
    /// The upper 64 bits of a constant.
    pub high: u64,
    pub left: usize,
}

/// Returns the value of a C struct.
pub fn value_of(numbers: &ValueNumbers) -> Value
    ensures { result ≡ value_of numbers.now }
{
    let op = OpId::new(numbers.operation);
    if numbers.region == 4294967295 {
        return Value::Result(op, numbers.place);
    }
    Value::Arg(op, numbers.region, numbers.place)
}

/// Returns the C struct of a value.
pub fn numbers_of(value: Value) -> ValueNumbers
    ensures { result ≡ numbers_of value }
{
    match value {
        Value::Result(op, place) => ValueNumbers {
            operation: op.number(),
            region: 4294967295,
            place,
        },
        Value::Arg(op, region, place) => ValueNumbers {
            operation: op.number(),
            region,
            place,
        },
    }
}

/// Returns the id of an operation as a number, or 2^64 - 1 for `None`.
pub fn number_of(op: Option<OpId>) -> u64
    ensures { result ≡ reported op }
{
    match op {
        Some(op) => u64::from(op.number()),
        None => no_number(),
    }
}

/// Returns a count, or 2^64 - 1 for `None`.
pub fn count_or_none(count: Option<usize>) -> u64
    ensures { result ≡ reported count }
{
    match count {
        Some(count) => count as u64,
        None => no_number(),
    }
}

/// Returns a number, or 2^64 - 1 for `None`.
pub fn number_or_none(number: Option<u32>) -> u64
    ensures { result ≡ reported number }
{
    match number {
        Some(number) => u64::from(number),
        None => no_number(),
    }
}

/// Returns the number for `None`.
pub fn no_number() -> u64
    ensures { result ≡ no_number }
{
    18446744073709551615
}
