//! The rows of the operation table.
ghost use Rattle.std.specs.Prelude.{◌≡◌};
ghost use Rattle.op_registry.specs.Registry.{is_among};

use crate::own::Own;
use ir_types::word::Word;

/// A constraint on the type of an operand, of a result or of a block argument.
#[derive(Clone, Copy)]
pub enum TypeRule {
    /// Any type.
    Any,
    /// A signless integer type or index, the same at every occurrence in the row.
    Number,
    /// Another signless integer type or index.
    OtherNumber,
    /// A signless integer type.
    Integer,
    /// `i1`.
    Boolean,
    /// `index`.
    Index,
    /// A memref.
    Memref,
    /// The element type of the memref.
    Element,
    /// The type of the first operand whose constraint is `Any`.
    Same,
    /// The type of the variadic operand at the same index; there are as many items as variadic operands.
    Initial,
    /// The type of the result at the same index; there are as many items as results.
    Result,
    /// The type of the function type's input at the same index; there are as many items as inputs.
    Input,
}

/// The types of operands, of results or of arguments: fixed ones, then any number of others.
#[derive(Clone, Copy)]
pub struct Types {
    pub first: &'static [TypeRule],
    /// The constraint on the types after the fixed ones, or `None` if there must be none.
    pub more: Option<TypeRule>,
}

/// A region of an operation (Language Reference, "Regions").
#[derive(Clone, Copy)]
pub struct RegionRule {
    /// The arguments of the region's block.
    pub arguments: Types,
    /// Whether the region may have no block.
    pub may_be_empty: bool,
}

/// A property of an operation (Language Reference, "Properties").
#[derive(Clone, Copy)]
pub struct Property {
    pub key: Word,
    /// Whether the property is required.
    pub required: bool,
}

/// A trait of an operation (Traits).
#[derive(Clone, Copy)]
pub enum Trait {
    /// The operation terminates a block ("Terminator").
    Terminator,
    /// No value from outside is visible inside the operation ("IsolatedFromAbove").
    Isolated,
    /// The operation has a symbol table ("SymbolTable").
    SymbolTable,
    /// The operation defines a symbol (Symbols and Symbol Tables, "Symbol").
    Symbol,
    /// The effects are those of the operations directly inside it ("RecursiveMemoryEffects").
    Recursive,
}

/// The traits of an operation.
#[derive(Clone, Copy)]
pub struct Traits {
    pub terminator: bool,
    pub isolated: bool,
    pub symbol_table: bool,
    pub symbol: bool,
    pub recursive: bool,
}

impl Traits {
    /// Returns whether the operation has a trait.
    pub fn has(&self, wanted: Trait) -> bool
        ensures { result ≡ is_among wanted self.now }
    {
        match wanted {
            Trait::Terminator => self.terminator,
            Trait::Isolated => self.isolated,
            Trait::SymbolTable => self.symbol_table,
            Trait::Symbol => self.symbol,
            Trait::Recursive => self.recursive,
        }
    }
}

/// The row of a registered operation.
#[derive(Clone, Copy)]
pub struct OpDef {
    pub operands: Types,
    pub results: Types,
    pub regions: &'static [RegionRule],
    pub properties: &'static [Property],
    pub effects: Own,
    pub traits: Traits,
    /// The operations in which a terminator may be.
    pub parents: &'static [Word],
}
