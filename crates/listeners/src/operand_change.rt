//! The change of an operation since the listener began.
ghost use Rattle.std.specs.Prelude.{◌≡◌, [], IfOk};

use ir_event::trees::value::Value;
use listeners_symbols::boxed::Boxed;
use smallvec::SmallVec;
use std::alloc::{AllocError, Global};
use std::marker::Model;

/// The current operands of an operation.
#[derive(Drop)]
pub(crate) struct OperandChange {
    pub(crate) operands: Operands,
}

/// A list of operands in 16 bytes, with one allocation if there are at most two. A contract describes it as the list.
///
/// A table has one for each id. Most of them are empty, because the operation was removed.
#[derive(Drop)]
pub(crate) struct Operands {
    list: Option<Boxed<SmallVec<Value, 2>>>,
}

impl Model for Operands {
    ghost use Rattle.listeners.specs.Operands.{OperandList, list_of};

    ghost Value = { OperandList };

    ghost view = { λ o. list_of o.list };
}

impl Operands {
    /// Returns an empty list. Needs no memory.
    pub(crate) fn new() -> Operands
        ensures items { result.items ≡ [] }
    {
        Operands { list: None }
    }

    /// Returns a list of these values.
    pub(crate) fn from_slice(alloc: Global, values: &[Value]) -> Result<Operands, AllocError>
        ensures items { IfOk result (λ o. o.items ≡ values.now) }
    {
        if values.is_empty() {
            return Ok(Operands::new());
        }
        let list = SmallVec::from_slice(alloc, values)?;
        let list = Boxed::new(alloc, list)?;
        Ok(Operands { list: Some(list) })
    }

    /// Returns the values.
    pub(crate) fn as_slice(&self) -> &[Value]
        ensures { result.now ≡ self.now.items }
    {
        match &self.list {
            None => &[],
            Some(list) => list.get().as_slice(),
        }
    }
}
