//! Nesting of operations, and the values that they use.
ghost use Rattle.std.specs.Prelude.{◌≡◌, ◌&&◌, not};
ghost use Rattle.std.specs.List.{list_any};
ghost use Rattle.ir_event.specs.trees.Frames.{owner_of};
ghost use Rattle.ir_event.specs.trees.Ids.{find};
ghost use Rattle.ir_event.specs.trees.Meaning.{isolated_in};
ghost use Rattle.ir_event.specs.trees.Uses.{same_value};
ghost use Rattle.mlir_work_notes.specs.Standing.{comes_from, is_blind, is_inside, takes, takes_from, uses_from_outside};

use ir_event::store::store::Store;
use ir_event::trees::uses::is_same;
use ir_event::trees::value::Value;
use ir_event::types::ids::OpId;
use ir_event::world::World;

/// Returns whether `inner` is `op` or is nested in it.
fn is_inside(store: &Store, op: OpId, inner: OpId) -> bool
    ensures { result ≡ is_inside op store.now.module_of.tree inner }
{
    let mut at = inner;
    let mut left = store.op_count();
    'around: while left > 0 {
        if at == op {
            return true;
        }
        let Some(around) = store.parent(at) else {
            return false;
        };
        at = around;
        left -= 1;
    }
    at == op
}

/// Returns the operation that defines a value, or whose block has it as an argument.
fn owner(value: &Value) -> OpId
    ensures { result ≡ (owner_of value.now).0 }
{
    match *value {
        Value::Result(op, _) => op,
        Value::Arg(op, _, _) => op,
    }
}

/// Returns whether an operand is a value of an operation or of one nested in it.
fn any_comes_from(store: &Store, op: OpId, operands: &[Value]) -> bool
    ensures { result ≡ list_any (comes_from op store.now.module_of.tree) operands.now }
{
    let mut rest = operands;
    'operands: while let [value, more @ ..] = rest {
        if is_inside(store, op, owner(value)) {
            return true;
        }
        rest = more;
    }
    false
}

/// Returns whether `user` uses a value of `op` or of an operation nested in it.
fn takes_from(world: &World, op: OpId, user: OpId) -> bool
    ensures { result ≡ takes_from op world.now.store.module_of.tree (find user world.now.store.module_of.tree) }
{
    match world.shown(user) {
        None => false,
        Some(node) => any_comes_from(&world.store, op, node.operands()),
    }
}

/// Returns whether `user` is outside `op` and uses a value of `op` or of an operation nested in it.
pub(crate) fn uses_from_outside(world: &World, op: OpId, user: OpId) -> bool
    ensures { result ≡ uses_from_outside op world.now.store.module_of.tree user }
{
    takes_from(world, op, user) && !is_inside(&world.store, op, user)
}

/// Returns whether a value is among these operands.
fn is_among(value: &Value, operands: &[Value]) -> bool
    ensures { result ≡ list_any (same_value value.now) operands.now }
{
    let mut rest = operands;
    'operands: while let [operand, more @ ..] = rest {
        if is_same(value, operand) {
            return true;
        }
        rest = more;
    }
    false
}

/// Returns whether an operation uses a value.
fn takes(world: &World, value: &Value, user: OpId) -> bool
    ensures { result ≡ takes value.now (find user world.now.store.module_of.tree) }
{
    match world.shown(user) {
        None => false,
        Some(node) => is_among(value, node.operands()),
    }
}

/// Returns whether an operation uses the value `old` while the value `new` isn't visible there.
pub(crate) fn is_blind(world: &World, old: &Value, new: &Value, user: OpId) -> bool
    ensures { result ≡ is_blind (isolated_in world.now.ctx) old.now new.now world.now.store.module_of.tree user }
{
    takes(world, old, user) && !world.store.visible(&world.ctx, user, *new)
}
