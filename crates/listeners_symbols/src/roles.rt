//! The roles of a module's operations.
ghost use Rattle.std.specs.Prelude.{◌≡◌, ◌&&◌, ◌||◌, not, ℕ, eqb, false, true, is_some, OnOk, Some, None};
ghost use Rattle.std.specs.Option.{option_copied};
ghost use Rattle.std.specs.Ordering.{nat_cmp};
ghost use Rattle.listeners_support.specs.Map as idmap;
ghost use Rattle.std.specs.BTreeSet as set;
ghost use Rattle.std.specs.BTreeSet.{contains};
ghost use Rattle.listeners_symbols.specs.Table.{Entered, IsPlain, role_numbers};
ghost use Rattle.listeners_symbols.specs.Telling.{HasThose, HasThose-prop, has_some, hides, names, concerns_symbols};
ghost use Rattle.listeners_symbols.specs.Telling.{said_about, said_at};

use crate::boxed::Boxed;
use crate::role::Role;
use ir_event::subject::Subject;
use ir_event::types::ids::OpId;
use listeners_support::IdMap;
use std::alloc::{AllocError, Global};
use std::collections::BTreeSet;

/// The roles of operations, and the sets of operations that reports visit.
///
/// A plain role, which contributes nothing to a report, has no entry unless the operation has regions.
#[derive(Drop)]
pub struct Roles {
    pub all: IdMap<Boxed<Role>>,
    /// The operations that define, reference or call a symbol. The set may have more operations.
    pub symbol_ops: BTreeSet<OpId>,
    /// The private definitions. The set may have more operations.
    pub hidden: BTreeSet<OpId>,
    /// The operations with a name that define no symbol. The set may have more operations.
    pub naming: BTreeSet<OpId>,
    pub ghost tell: { HasThose concerns_symbols all symbol_ops } by { HasThose-prop concerns_symbols all symbol_ops },
    pub ghost hide: { HasThose hides all hidden } by { HasThose-prop hides all hidden },
    pub ghost name: { HasThose names all naming } by { HasThose-prop names all naming },
}

impl Roles {
    /// Returns an empty table.
    pub fn new(alloc: Global) -> Roles
        ensures { (x : ℕ) → idmap.get result.all x ≡ None }
    {
        Roles {
            all: IdMap::new(alloc),
            symbol_ops: BTreeSet::new(alloc),
            hidden: BTreeSet::new(alloc),
            naming: BTreeSet::new(alloc),
        }
    }

    /// States that all entries are ordered by operation id.
    pub fn ordered(&self)
        ensures all { idmap.IsOrdered self.now.all }
        ensures symbol_ops { set.IsOrdered nat_cmp self.now.symbol_ops }
        ensures hidden { set.IsOrdered nat_cmp self.now.hidden }
        ensures naming { set.IsOrdered nat_cmp self.now.naming }
    {
        self.all.ordered();
        let _ = self.symbol_ops.len();
        let _ = self.hidden.len();
        let _ = self.naming.len();
    }

    /// Returns the role of an operation, if the table has one.
    pub fn get(&self, op: OpId) -> Option<&Role>
        ensures value { option_copied result ≡ idmap.get self.now.all op }
    {
        role_in(&self.all, op)
    }

    /// Enters the role of an operation, except a plain role of an operation without regions that has no entry. If
    /// memory runs out, the roles are unchanged.
    pub fn enter(
        &mut self,
        alloc: Global,
        op: OpId,
        role: Role,
        has_regions: bool,
    ) -> Result<(), AllocError>
        ensures entered { OnOk result (Entered self.old.all self.new.all op role) }
    {
        if !has_regions && is_plain(&role) && !self.all.contains_key(op.number()) {
            return Ok(());
        }
        let role = Boxed::new(alloc, role)?;
        self.insert(op, role)
    }

    /// Sets the role of an operation. If memory runs out, the roles are unchanged.
    fn insert(&mut self, op: OpId, role: Boxed<Role>) -> Result<(), AllocError>
        ensures updates { OnOk result (idmap.Updates self.old.all self.new.all op (Some role)) }
    {
        let symbol_ops = concerns_symbols(role.get());
        let hidden = hides(role.get());
        let naming = names(role.get());
        add_if(&mut self.symbol_ops, op, symbol_ops)?;
        add_if(&mut self.hidden, op, hidden)?;
        add_if(&mut self.naming, op, naming)?;
        let reported = role_concerns_symbols(self.get(op));
        let hid = hides_of(self.get(op));
        let named = names_of(self.get(op));
        self.all.insert(op.number(), role)?;
        drop_unless(&mut self.symbol_ops, op, symbol_ops || !reported);
        drop_unless(&mut self.hidden, op, hidden || !hid);
        drop_unless(&mut self.naming, op, naming || !named);
        Ok(())
    }

    /// Removes the role of an operation. Needs no memory.
    pub fn remove(&mut self, op: OpId)
        ensures updates { idmap.Updates self.old.all self.new.all op None }
    {
        let gone = self.all.remove(op.number());
        let gone = unboxed(gone.as_ref());
        drop_unless(&mut self.symbol_ops, op, !role_concerns_symbols(gone));
        drop_unless(&mut self.hidden, op, !hides_of(gone));
        drop_unless(&mut self.naming, op, !names_of(gone));
    }
}

/// Returns the role, if there is one.
fn unboxed(boxed: Option<&Boxed<Role>>) -> Option<&Role>
    ensures { option_copied result ≡ option_copied boxed.entry }
{
    match boxed {
        Some(boxed) => Some(boxed.get()),
        None => None,
    }
}

/// Returns the role of an operation, if the map has one.
fn role_in(all: &IdMap<Boxed<Role>>, op: OpId) -> Option<&Role>
    ensures { option_copied result ≡ idmap.get all.now op }
{
    unboxed(all.get(op.number()))
}

/// Returns whether a report of symbols may have rows about an operation or a value: whether it is an operation that
/// defines, references or calls a symbol.
pub(crate) fn may_tell(roles: &Roles, subject: &Subject) -> bool
    ensures { result ≡ said_about concerns_symbols subject.now (idmap.get roles.now.all) }
{
    match subject {
        Subject::Op(op) => says_symbols(roles, *op),
        Subject::Val(_) => false,
    }
}

/// Returns whether a report of unreached symbols may have rows about an operation or a value: whether it is an operation
/// that defines a symbol with private visibility.
pub fn may_hide(roles: &Roles, subject: &Subject) -> bool
    ensures { result ≡ said_about hides subject.now (idmap.get roles.now.all) }
{
    match subject {
        Subject::Op(op) => says_hidden(roles, *op),
        Subject::Val(_) => false,
    }
}

/// Returns whether the table has an operation, and the operation defines, references or calls a symbol.
fn says_symbols(roles: &Roles, op: OpId) -> bool
    ensures { result ≡ said_at concerns_symbols (idmap.get roles.now.all op) }
{
    match roles.get(op) {
        None => false,
        Some(role) => concerns_symbols(role),
    }
}

/// Returns whether the table has an operation, and the operation defines a symbol with private visibility.
fn says_hidden(roles: &Roles, op: OpId) -> bool
    ensures { result ≡ said_at hides (idmap.get roles.now.all op) }
{
    match roles.get(op) {
        None => false,
        Some(role) => hides(role),
    }
}

/// Returns whether an operation defines, references or calls a symbol.
fn concerns_symbols(role: &Role) -> bool
    ensures { result ≡ concerns_symbols role.now }
{
    defines(role) || refers(role) || role.call.is_some()
}

/// Returns whether an operation defines a symbol.
pub(crate) fn defines(role: &Role) -> bool
    ensures { result ≡ (is_some role.now.home && is_some role.now.symbol) }
{
    role.home.is_some() && role.symbol.is_some()
}

fn refers(role: &Role) -> bool
    ensures { result ≡ has_some role.now.references.items }
{
    !role.references.is_empty()
}

/// Returns whether an operation defines a symbol with private visibility.
fn hides(role: &Role) -> bool
    ensures { result ≡ hides role.now }
{
    if role.home.is_some() && role.is_private {
        role.symbol.is_some()
    } else {
        false
    }
}

/// Returns whether an operation has a name and defines no symbol.
fn names(role: &Role) -> bool
    ensures { result ≡ names role.now }
{
    !defines(role) && role.name.is_some()
}

/// Returns whether a role contributes nothing to a report, and no reference resolves through the operation.
fn is_plain(role: &Role) -> bool
    ensures { result ≡ true → IsPlain (role_numbers role.now) }
{
    if role.is_table || role.symbol.is_some() || role.name.is_some() {
        return false;
    }
    !refers(role) && role.call.is_none() && role.function.is_none()
}

/// Returns whether there is a role and it satisfies `concerns_symbols`. No contract depends on it, because the set may have more.
fn role_concerns_symbols(role: Option<&Role>) -> bool {
    match role {
        Some(role) => concerns_symbols(role),
        None => false,
    }
}

/// Returns whether there is a role and it satisfies `hides`. No contract depends on it.
fn hides_of(role: Option<&Role>) -> bool {
    match role {
        Some(role) => hides(role),
        None => false,
    }
}

/// Returns whether there is a role and it satisfies `names`. No contract depends on it.
fn names_of(role: Option<&Role>) -> bool {
    match role {
        Some(role) => names(role),
        None => false,
    }
}

/// Adds an operation to a set if `holds`. No operation is removed, also if memory runs out.
fn add_if(set: &mut BTreeSet<OpId>, op: OpId, holds: bool) -> Result<(), AllocError>
    ensures added { OnOk result (holds ≡ true → contains nat_cmp set.new op ≡ true) }
    ensures remains { (x : ℕ) → contains nat_cmp set.old x ≡ true → contains nat_cmp set.new x ≡ true }
{
    if holds {
        set.insert(op)?;
    }
    Ok(())
}

/// Removes an operation from a set unless `holds`.
fn drop_unless(set: &mut BTreeSet<OpId>, op: OpId, holds: bool)
    ensures kept { holds ≡ true → set.new ≡ set.old }
    ensures others { (x : ℕ) → eqb op x ≡ false → contains nat_cmp set.old x ≡ true → contains nat_cmp set.new x ≡ true }
{
    if !holds {
        set.remove(&op);
    }
}
