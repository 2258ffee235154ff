//! Gathers the keys of uses from a listing and from the changes since.
ghost use Rattle.std.specs.Prelude.{◌≡◌, ◌+◌, ◌++◌, ◌∷◌, List, Option, length, OnOk};
ghost use Rattle.listeners_support.specs.Map.{entries_from};
ghost use Rattle.listeners.specs.declared.operand_change.OperandChange.{OperandChange as Entry};
ghost use Rattle.listeners.specs.Uses.{operand_uses};
ghost use Rattle.listeners.specs.Keys.{key_of, keys_of};
ghost use Rattle.listeners.specs.Others.{only};
ghost use Rattle.listeners.specs.Listings.{operand_count, listed_uses, user_uses};
ghost use Rattle.listeners.specs.Tables.{changed_uses, is_unchanged};

use crate::key::{Use, UseKey};
use crate::operand_change::OperandChange;
use crate::user::User;
use ir_event::trees::value::Value;
use ir_event::types::ids::OpId;
use listeners_support::IdMap;
use std::alloc::AllocError;
use std::collections::BTreeMap;

/// Returns the key of a use.
pub(crate) fn key(entry: &Use) -> UseKey
    ensures { result ≡ key_of entry.now }
{
    match entry.value {
        Value::Result(owner, place) => UseKey {
            owner,
            region: None,
            place,
            user: entry.user,
            operand: entry.operand,
        },
        Value::Arg(owner, region, place) => UseKey {
            owner,
            region: Some(region),
            place,
            user: entry.user,
            operand: entry.operand,
        },
    }
}

/// Appends the keys of the uses of an operation.
fn push_keys(user: OpId, operands: &[Value], keys: &mut Vec<UseKey>) -> Result<(), AllocError>
    ensures { OnOk result (keys.new.items ≡ keys.old.items ++ keys_of (operand_uses user 0 operands.now)) }
{
    for (number, operand) in operands.iter().enumerate() {
        // An operation of a module has at most 256 operands.
        let Ok(number) = u32::try_from(number) else {
            return Err(AllocError);
        };
        keys.push(key(&Use {
            value: *operand,
            user,
            operand: number,
        }))?;
    }
    Ok(())
}

/// Appends the keys of the uses of a user, if they count.
fn push_user(
    user: &User,
    operands: &[Value],
    changed: &IdMap<OperandChange>,
    keys: &mut Vec<UseKey>,
) -> Result<(), AllocError>
    ensures { OnOk result (keys.new.items
        ≡ keys.old.items ++ keys_of (only (is_unchanged changed.now) (user_uses user.now operands.now))) }
{
    if !user.live || changed.contains_key(user.id.number()) {
        return Ok(());
    }
    push_keys(user.id, operands, keys)
}

/// Appends the keys of the listed uses whose users are unchanged.
pub(crate) fn push_listed(
    users: &[User],
    operands: &[Value],
    changed: &IdMap<OperandChange>,
    keys: &mut Vec<UseKey>,
) -> Result<(), AllocError>
    requires { operand_count users.now ≡ length operands.now }
    ensures { OnOk result (keys.new.items
        ≡ keys.old.items ++ keys_of (only (is_unchanged changed.now) (listed_uses users.now operands.now))) }
{
    let mut rest = operands;
    for user in users {
        let (own, trailing) = rest.split_at(user.count as usize);
        push_user(user, own, changed, keys)?;
        rest = trailing;
    }
    Ok(())
}

/// Appends the keys of the uses of operation `id`, if it changed.
fn push_slot(
    id: usize,
    slot: &Option<OperandChange>,
    keys: &mut Vec<UseKey>,
) -> Result<(), AllocError>
    ensures { (rest : List (Option Entry)) → OnOk result (keys.new.items
        ++ keys_of (changed_uses (entries_from (id + 1) rest))
        ≡ keys.old.items ++ keys_of (changed_uses (entries_from id (slot.now ∷ rest)))) }
{
    let Some(now) = slot else {
        return Ok(());
    };
    let Ok(number) = u32::try_from(id) else {
        return Err(AllocError);
    };
    push_keys(OpId::new(number), now.operands.as_slice(), keys)
}

/// Appends the keys of the uses of the changed operations in a list.
fn push_near(near: &[Option<OperandChange>], keys: &mut Vec<UseKey>) -> Result<(), AllocError>
    ensures { OnOk result (keys.new.items ≡ keys.old.items ++ keys_of (changed_uses (entries_from 0 near.now))) }
{
    for (id, slot) in near.iter().enumerate() {
        push_slot(id, slot, keys)?;
    }
    Ok(())
}

/// Appends the keys of the uses of the changed operations in a sorted map.
fn push_far(far: &BTreeMap<u32, OperandChange>, keys: &mut Vec<UseKey>) -> Result<(), AllocError>
    ensures { OnOk result (keys.new.items ≡ keys.old.items ++ keys_of (changed_uses far.now.entries)) }
{
    for (id, now) in far {
        push_keys(OpId::new(*id), now.operands.as_slice(), keys)?;
    }
    Ok(())
}

/// Appends the keys of the uses of all changed operations.
pub(crate) fn push_changed(
    changed: &IdMap<OperandChange>,
    keys: &mut Vec<UseKey>,
) -> Result<(), AllocError>
    ensures { OnOk result (keys.new.items ≡ keys.old.items ++ keys_of (changed_uses changed.now.entries)) }
{
    let (near, far) = changed.parts();
    push_near(near, keys)?;
    push_far(far, keys)
}
