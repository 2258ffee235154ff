//! The state of the printer: the text so far, and the names of values.
use indexmap::IndexMap;
use ir_types::ids::{OpId, TypeId};

/// The source of a value: an index among the results of an operation, or among the arguments of the block of one of
/// its regions.
#[derive(Clone, Copy, PartialEq, Eq, Hash)]
pub enum Source {
    Result(OpId, u32),
    Argument(OpId, u32, u32),
}

/// The name of a value.
#[derive(Clone, Copy)]
pub enum ValueName {
    /// The only result of an operation: `%0`.
    Only(u32),
    /// One of several results: `%0#1`.
    Part(u32, u32),
    /// An argument of a block: `%arg0`.
    Argument(u32),
}

/// The name and the type of a value.
#[derive(Clone, Copy)]
pub struct NamedValue {
    pub name: ValueName,
    pub ty: TypeId,
}

/// The text so far, the named values, and the numbers of the next operation with results and of the next argument.
#[derive(Drop)]
pub struct Printer {
    pub text: Vec<u8>,
    pub named: IndexMap<Source, NamedValue>,
    pub results: u32,
    pub arguments: u32,
}
