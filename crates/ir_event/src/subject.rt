//! The subject of a partial report: an operation or a value.
ghost use Rattle.std.specs.Prelude.{◌≡◌};
ghost use Rattle.ir_event.specs.Modules.{module_in};
ghost use Rattle.ir_event.specs.Subjects.{absent, is_there};

use crate::world::World;
use ir_store::trees::value::Value;
use op_registry::types::ids::OpId;
use op_registry::types::refusal::Refusal;

/// An operation or a value of a module.
#[derive(Clone, Copy, Debug, PartialEq, Eq)]
pub enum Subject {
    /// An operation, with its results and block arguments.
    Op(OpId),
    /// A value.
    Val(Value),
}

/// Returns whether an operation or a value is in the module.
pub fn is_there(world: &World, subject: &Subject) -> bool
    ensures { result ≡ is_there subject.now (module_in world.now).tree }
{
    match subject {
        Subject::Op(op) => world.store.in_tree(*op),
        Subject::Val(value) => world.store.value_type(*value).is_some(),
    }
}

/// Returns the refusal for a missing operation or value: `NoSuchOp` or `NoSuchValue`.
pub fn absent(subject: &Subject) -> Refusal
    ensures { result ≡ absent subject.now }
{
    match subject {
        Subject::Op(_) => Refusal::NoSuchOp,
        Subject::Val(_) => Refusal::NoSuchValue,
    }
}
