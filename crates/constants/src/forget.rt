//! The first phase: forgets the values that may have changed.
ghost use Rattle.std.specs.Prelude.{◌≡◌, ◌≤◌, ◌+◌, ℕ, Option, [], ◌++◌, ◌∷◌, true, if◌then◌else◌};
ghost use Rattle.ir_event.specs.tree_laws.Members.{In};
ghost use Rattle.constants.specs.Facts.{Header, AreLocal};
ghost use Rattle.constants.specs.Trails.{total, Uses, IsTrail};
ghost use Rattle.constants.specs.Phases.{Forgotten, Forgetting, SameBut};
ghost use Rattle.constants.specs.Tables.{known_in, look_in, uses_in, users_of};

use crate::packed::PackedBits;
use crate::table::{drop_fact, fact};
use crate::users::uses_of;
use ir_event::store::uses::UsesOf;
use ir_event::types::ids::OpId;
use ir_event::view::View;
use listeners_support::IdMap;

/// Appends an operation to a trail. Returns `false` if memory ran out.
pub(crate) fn push(trail: &mut Vec<OpId>, op: OpId) -> bool
    ensures { trail.new.items ≡ (if result then trail.old.items ++ op ∷ [] else trail.old.items) }
{
    match trail.push(op) {
        Ok(()) => true,
        Err(_) => false,
    }
}

/// Forgets the known value of an operation's result. If there was one, appends the operation to the trail. Returns
/// `false` if memory ran out.
fn forget(table: &mut IdMap<PackedBits>, op: OpId, trail: &mut Vec<OpId>) -> bool
    ensures { Forgotten (result ≡ true) (λ y. y ≡ op) (known_in table.old)
        (known_in table.new) trail.old.items trail.new.items }
{
    let Some(_) = fact(table, op) else {
        return true;
    };
    if !push(trail, op) {
        return false;
    }
    drop_fact(table, op);
    true
}

/// Forgets the known values of the operations with these uses.
fn forget_all(table: &mut IdMap<PackedBits>, uses: UsesOf<'_>, trail: &mut Vec<OpId>) -> bool
    ensures { Forgotten (result ≡ true) (λ y. In y (users_of uses.entry)) (known_in table.old)
        (known_in table.new) trail.old.items trail.new.items }
{
    for (user, _) in uses {
        if !forget(table, user, trail) {
            return false;
        }
    }
    true
}

/// Forgets the known values of the operations that use an operation's result.
fn forget_users(
    view: &mut View<'_>,
    table: &mut IdMap<PackedBits>,
    op: OpId,
    trail: &mut Vec<OpId>,
) -> bool
    ensures forgotten { Forgotten (result ≡ true) (Uses (look_in view.old.world.now) op) (known_in table.old)
        (known_in table.new) trail.old.items trail.new.items }
    ensures looks { view.new.looks ≤ view.old.looks + (1 + uses_in view.old.world.now op) }
    ensures world { view.new.world.now ≡ view.old.world.now }
{
    forget_all(table, uses_of(view, op), trail)
}

/// Forgets the values that may have changed with an operation, along the uses of known values. Appends the forgotten
/// operations to the trail. Returns `false` if memory ran out.
pub(crate) fn forget_from(
    view: &mut View<'_>,
    table: &mut IdMap<PackedBits>,
    op: OpId,
    trail: &mut Vec<OpId>,
) -> bool
    requires { trail.old.items ≡ [] }
    ensures forgotten { result ≡ true → (was : ℕ → Option Header) → SameBut op was (look_in view.old.world.now)
        → AreLocal was (known_in table.old)
        → Forgetting (look_in view.old.world.now) op (known_in table.new) trail.new.items [] }
    ensures trail { IsTrail (look_in view.old.world.now) (λ y. y ≡ op) (known_in table.old) trail.new.items }
    ensures looks { view.new.looks ≤ view.old.looks + total (λ d. 1 + uses_in view.old.world.now d) trail.new.items }
    ensures world { view.new.world.now ≡ view.old.world.now }
{
    if !forget(table, op, trail) {
        return false;
    }
    let mut next = 0;
    while next < trail.len() {
        if !forget_users(view, table, trail[next], trail) {
            return false;
        }
        next += 1;
    }
    true
}
