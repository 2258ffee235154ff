//! The ids of operations, names, types and attributes.
ghost use Rattle.std.specs.Prelude.{ℕ, ◌≡◌};

use std::marker::Model;

/// The id of an operation, unique in its module and never used again.
#[derive(Clone, Copy, Debug, PartialEq, Eq, PartialOrd, Ord, Hash)]
pub struct OpId(u32);

impl Model for OpId {
    ghost Value = { ℕ };

    ghost view = { λ id. id.0 };

    ghost inverse = { λ n. record { 0 = n } };
}

impl OpId {
    /// Returns the id with this number.
    pub fn new(number: u32) -> OpId
        ensures { result ≡ number }
    {
        OpId(number)
    }

    /// Returns the number of the id.
    pub fn number(self) -> u32
        ensures { result ≡ self }
    {
        self.0
    }
}

/// The id of a name: an operation's name, a key, a component of a symbol, or a string. The default id is a placeholder
/// for unused entries of lists.
#[derive(Clone, Copy, Debug, Default, PartialEq, Eq, PartialOrd, Ord, Hash)]
pub struct NameId(u32);

impl Model for NameId {
    ghost Value = { ℕ };

    ghost view = { λ id. id.0 };

    ghost inverse = { λ n. record { 0 = n } };
}

impl NameId {
    /// Returns the id with this number.
    pub fn new(number: u32) -> NameId
        ensures { result ≡ number }
    {
        NameId(number)
    }

    /// Returns the number of the id.
    pub fn number(self) -> u32
        ensures { result ≡ self }
    {
        self.0
    }
}

/// The id of a type. The default id is a placeholder for unused entries of lists.
#[derive(Clone, Copy, Debug, Default, PartialEq, Eq, PartialOrd, Ord, Hash)]
pub struct TypeId(u32);

impl Model for TypeId {
    ghost Value = { ℕ };

    ghost view = { λ id. id.0 };

    ghost inverse = { λ n. record { 0 = n } };
}

impl TypeId {
    /// Returns the id with this number.
    pub fn new(number: u32) -> TypeId
        ensures { result ≡ number }
    {
        TypeId(number)
    }

    /// Returns the number of the id.
    pub fn number(self) -> u32
        ensures { result ≡ self }
    {
        self.0
    }
}

/// The id of an attribute. The default id is a placeholder for unused entries of lists.
#[derive(Clone, Copy, Debug, Default, PartialEq, Eq, PartialOrd, Ord, Hash)]
pub struct AttrId(u32);

impl Model for AttrId {
    ghost Value = { ℕ };

    ghost view = { λ id. id.0 };

    ghost inverse = { λ n. record { 0 = n } };
}

impl AttrId {
    /// Returns the id with this number.
    pub fn new(number: u32) -> AttrId
        ensures { result ≡ number }
    {
        AttrId(number)
    }

    /// Returns the number of the id.
    pub fn number(self) -> u32
        ensures { result ≡ self }
    {
        self.0
    }
}
