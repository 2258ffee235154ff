//! Reasons against an edit of several events, found before any event is made.
ghost use Rattle.std.specs.Prelude.{◌≡◌};
ghost use Rattle.rewriter.specs.Contents.{tests_in};
ghost use Rattle.rewriter.specs.Edits.{Erase, Replace, reason_by};

use ir_event::trees::value::Value;
use ir_event::types::ids::OpId;
use ir_event::types::refusal::Refusal;
use ir_event::world::World;

/// Returns the reason that `old` can't be replaced by `new`, or `None`.
pub fn replace_fault(world: &World, old: &Value, new: &Value) -> Option<Refusal>
    ensures { result ≡ reason_by (tests_in world.now.ctx) (Replace old.now new.now) world.now.store.module_of }
{
    world.ctx.sound();
    let Some(one) = world.store.value_type(*old) else {
        return Some(Refusal::NoSuchValue);
    };
    let Some(other) = world.store.value_type(*new) else {
        return Some(Refusal::NoSuchValue);
    };
    if one != other {
        return Some(Refusal::TypeDiffers);
    }
    if !world.store.users_dominated_by(&world.ctx, *old, *new) {
        return Some(Refusal::NotVisible);
    }
    None
}

/// Returns the reason that `op` can't be erased, or `None`.
pub fn erase_fault(world: &World, op: OpId) -> Option<Refusal>
    ensures { result ≡ reason_by (tests_in world.now.ctx) (Erase op) world.now.store.module_of }
{
    if !world.store.in_tree(op) {
        return Some(Refusal::NoSuchOp);
    }
    let Some(_place) = world.store.place(op) else {
        return Some(Refusal::IsRoot);
    };
    if !world.store.unused_outside(op) {
        return Some(Refusal::HasUses);
    }
    None
}
