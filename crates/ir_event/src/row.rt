//! The rows of reports.
ghost use Rattle.std.specs.Prelude.{ℕ, ◌≡◌};

use ir_store::trees::value::Value;
use op_registry::types::bits::Bits;
use op_registry::types::ids::{AttrId, NameId, OpId};
use std::marker::Model;
use thiserror::Error;

/// One cell of a row.
#[derive(Clone, Copy, Debug, PartialEq, Eq)]
pub enum Cell {
    /// An operation.
    Op(OpId),
    /// A value.
    Val(Value),
    /// A number.
    Num(u32),
    /// A name.
    Name(NameId),
    /// A symbol reference.
    Path(AttrId),
    /// A constant.
    Bits(Bits),
    /// A rule of the verifier, by its number.
    Rule(u8),
    /// A word, by its number as a `Tag`.
    Tag(u8),
}

/// A row of a report.
#[derive(Drop)]
pub struct Row {
    pub cells: Vec<Cell>,
}

/// The kind of an analysis, as a number.
#[derive(Clone, Copy, Debug, PartialEq, Eq)]
pub struct Kind(pub u8);

impl Model for Kind {
    ghost Value = { ℕ };

    ghost view = { λ kind. kind.0 };

    ghost inverse = { λ n. record { 0 = n } };
}

impl Kind {
    /// The uses of values.
    pub const USES: Kind = Kind(1);

    /// The symbols of a module.
    pub const SYMBOLS: Kind = Kind(2);

    /// The verifier's diagnostics of operations.
    pub const DIAGNOSTICS: Kind = Kind(3);

    /// The effects of operations.
    pub const EFFECTS: Kind = Kind(4);

    /// The operations that are dead.
    pub const DEAD: Kind = Kind(5);

    /// The values that are constants.
    pub const CONSTANTS: Kind = Kind(6);

    /// The private symbols that aren't reachable.
    pub const UNREACHED: Kind = Kind(7);

    /// Returns the kind with this number.
    pub fn new(number: u8) -> Kind
        ensures { result ≡ number }
    {
        Kind(number)
    }

    /// Returns the number of the kind.
    pub fn number(self) -> u8
        ensures { result ≡ self }
    {
        self.0
    }
}

/// The error of a call that ran out of memory.
#[derive(Clone, Copy, Debug, PartialEq, Eq, Error)]
#[error("memory was refused")]
pub struct Memory;

/// The reason that there is no report.
#[derive(Clone, Copy, Debug, PartialEq, Eq, Error)]
pub enum ReportFault {
    /// The analysis is stale.
    #[error("the analysis no longer follows the module")]
    Stale,
    /// Memory was refused.
    #[error("memory was refused")]
    Memory,
}
