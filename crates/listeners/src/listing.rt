//! Uses listed by user, not yet sorted by value.
ghost use Rattle.std.specs.Prelude.{◌≡◌, [], ◌++◌, map, IfOk, OnOk};
ghost use Rattle.listeners.specs.Uses.{operand_uses};
ghost use Rattle.listeners.specs.Keys.{keys_of};
ghost use Rattle.listeners.specs.Others.{only, others};
ghost use Rattle.listeners.specs.Listings.{forgotten};
ghost use Rattle.listeners.specs.Tables.{is_unchanged};

use crate::gather::push_listed;
use crate::key::UseKey;
use crate::operand_change::OperandChange;
use crate::user::User;
use ir_event::trees::value::Value;
use ir_event::types::ids::OpId;
use listeners_support::IdMap;
use std::alloc::{AllocError, Global};
use std::marker::Model;

/// Uses listed by user. A contract describes the listing by its list of uses.
///
/// A listener lists the uses of a whole module when it begins, and often no report sorts them later. The listing is
/// kept in two lists, so a use takes only the bytes of its value: its user and operand number follow from its position.
#[derive(Drop)]
pub(crate) struct Listing {
    /// The operations that have operands, with the number of operands.
    users: Vec<User>,
    /// The operands of these operations, in order.
    operands: Vec<Value>,
}

impl Model for Listing {
    ghost use Rattle.std.specs.Prelude.{List, ◌≡◌, length};
    ghost use Rattle.listeners.specs.declared.key.Use.{Use as Usage};

    ghost Value = { List Usage };

    ghost use Rattle.listeners.specs.Listings.{operand_count, listed_uses};

    ghost view = { λ l. listed_uses l.users.items l.operands.items };

    ghost invariant = { λ l. operand_count l.users.items ≡ length l.operands.items };
}

impl Listing {
    /// Returns an empty listing.
    pub(crate) fn new(alloc: Global) -> Listing
        ensures { result ≡ [] }
    {
        Listing {
            users: Vec::new(alloc),
            operands: Vec::new(alloc),
        }
    }

    /// Returns an empty listing with capacity for these numbers of users and operands.
    pub(crate) fn with_headroom(
        alloc: Global,
        users: usize,
        operands: usize,
    ) -> Result<Listing, AllocError>
        ensures { IfOk result (λ l. l ≡ []) }
    {
        let users = Vec::with_capacity(alloc, users)?;
        let operands = Vec::with_capacity(alloc, operands)?;
        Ok(Listing { users, operands })
    }

    /// Appends the uses of an operation, given its operands in order.
    pub(crate) fn push(&mut self, id: OpId, operands: &[Value]) -> Result<(), AllocError>
        ensures { OnOk result (self.new ≡ self.old ++ operand_uses id 0 operands.now) }
    {
        if operands.is_empty() {
            return Ok(());
        }
        // An operation of a module has at most 256 operands.
        let Ok(count) = u16::try_from(operands.len()) else {
            return Err(AllocError);
        };
        let before = self.operands.len();
        self.operands.extend_from_slice(operands)?;
        let user = User {
            id,
            count,
            live: true,
        };
        match self.users.push(user) {
            Ok(()) => Ok(()),
            Err(_) => {
                self.operands.truncate(before);
                Err(AllocError)
            }
        }
    }

    /// Removes the uses of an operation, if it has some. Takes time proportional to the number of users, and needs no
    /// memory.
    pub(crate) fn forget(&mut self, id: OpId)
        ensures { self.new ≡ others id self.old }
    {
        forget_in(&mut self.users, id);
    }

    /// Appends the keys of the uses whose users are unchanged.
    pub(crate) fn push_unchanged(
        &self,
        changed: &IdMap<OperandChange>,
        keys: &mut Vec<UseKey>,
    ) -> Result<(), AllocError>
        ensures { OnOk result (keys.new.items ≡ keys.old.items ++ keys_of (only (is_unchanged changed.now) self.now)) }
    {
        push_listed(&self.users, &self.operands, changed, keys)
    }

    /// Returns the number of listed operands, to reserve memory. The contracts don't depend on it.
    pub(crate) fn len(&self) -> usize {
        self.operands.len()
    }
}

/// Marks the user `id` as removed.
fn forget_in(users: &mut [User], id: OpId)
    ensures { users.new ≡ map (forgotten id) users.old }
{
    for user in users {
        *user = after(user, id);
    }
}

/// Returns the user, marked as removed if it is `id`.
fn after(user: &User, id: OpId) -> User
    ensures { result ≡ forgotten id user.now }
{
    if user.id == id {
        User {
            live: false,
            ..*user
        }
    } else {
        *user
    }
}
