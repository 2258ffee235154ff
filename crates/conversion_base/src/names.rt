//! The names of a target's list.
ghost use Rattle.std.specs.Prelude.{◌≡◌, ◌++◌, [], ◌∷◌, eqb, OnOk, OnErr};
ghost use Rattle.std.specs.List.{list_any};
ghost use Rattle.conversion_base.specs.Repeats.{has_duplicates};

use ir_event::types::ids::NameId;
use std::alloc::{AllocError, Global};
use std::collections::BTreeSet;
use std::marker::Model;

/// The names of a target's list, in the order of the list. In contracts it is the list of the interned names.
#[derive(Drop)]
pub struct Names {
    list: Vec<NameId>,
    /// The set of the names in the list.
    known: BTreeSet<NameId>,
    /// Whether the list has a duplicate.
    repeats: bool,
}

impl Model for Names {
    ghost use Rattle.std.specs.Prelude.{List, ℕ};

    ghost Value = { List ℕ };

    ghost use Rattle.conversion_base.specs.Repeats.{AreKnown};

    ghost view = { λ n. n.list.items };

    ghost invariant = { λ n. AreKnown n.list.items n.known n.repeats };
}

impl Names {
    /// Returns an empty list.
    pub fn new(alloc: Global) -> Names
        ensures { result ≡ [] }
    {
        Names {
            list: Vec::new(alloc),
            known: BTreeSet::new(alloc),
            repeats: false,
        }
    }

    /// Appends a name.
    pub fn push(&mut self, name: NameId) -> Result<(), AllocError>
        ensures added { OnOk result (self.new ≡ self.old ++ name ∷ []) }
        ensures kept { OnErr result (self.new ≡ self.old) }
    {
        match self.list.push(name) {
            Ok(()) => {}
            Err(_) => return Err(AllocError),
        }
        match self.known.insert(name) {
            Ok(true) => Ok(()),
            Ok(false) => {
                self.repeats = true;
                Ok(())
            }
            Err(_) => {
                let _name = self.list.pop();
                Err(AllocError)
            }
        }
    }

    /// Returns the names, in the order of the list.
    pub fn list(&self) -> &[NameId]
        ensures { result.now ≡ self.now }
    {
        &self.list
    }

    /// Returns whether `name` is in the list.
    pub fn has(&self, name: NameId) -> bool
        ensures { result ≡ list_any (eqb name) self.now }
    {
        self.known.contains(&name)
    }

    /// Returns whether the list has a duplicate.
    pub fn repeats(&self) -> bool
        ensures { result ≡ has_duplicates self.now }
    {
        self.repeats
    }
}
