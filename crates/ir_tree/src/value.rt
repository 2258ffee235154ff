//! SSA values.
use ir_types::ids::OpId;

/// A value: a result of an operation, or an argument of the block of one of an operation's regions (Language Reference,
/// "Identifiers and keywords", on SSA values).
#[derive(Clone, Copy, Debug, PartialEq, Eq, Hash)]
pub enum Value {
    /// A result: the operation, and the index of the result.
    Result(OpId, u32),
    /// A block argument: the operation, the index of its region, and the index of the argument.
    Arg(OpId, u32, u32),
}

impl Default for Value {
    /// Returns a placeholder value, for unused entries of lists.
    fn default() -> Value {
        Value::Result(OpId::new(0), 0)
    }
}
