//! The predefined words of every context, as an enum.
ghost use Rattle.std.specs.Prelude.{◌==◌, ◌≡◌};
ghost use Rattle.std.specs.Str.{bytes_eq};
ghost use Rattle.ir_types.specs.Things.{ContextModel};
ghost use Rattle.ir_types.specs.Terms.{name_term};
ghost use Rattle.ir_types.specs.Sound.{IsSound};
ghost use Rattle.ir_types.specs.WordNames.{word_bytes, word_number};

use crate::ids::NameId;

/// A predefined word: a registered operation of MLIR's dialects, the key of a property, or a visibility.
#[derive(Clone, Copy)]
pub enum Word {
    /// `builtin.module`.
    BuiltinModule = 0,
    /// `builtin.unrealized_conversion_cast`.
    BuiltinUnrealizedConversionCast = 1,
    /// `func.func`.
    FuncFunc = 2,
    /// `func.call`.
    FuncCall = 3,
    /// `func.return`.
    FuncReturn = 4,
    /// `arith.constant`.
    ArithConstant = 5,
    /// `arith.addi`.
    ArithAddi = 6,
    /// `arith.subi`.
    ArithSubi = 7,
    /// `arith.muli`.
    ArithMuli = 8,
    /// `arith.shli`.
    ArithShli = 9,
    /// `arith.divsi`.
    ArithDivsi = 10,
    /// `arith.divui`.
    ArithDivui = 11,
    /// `arith.remsi`.
    ArithRemsi = 12,
    /// `arith.remui`.
    ArithRemui = 13,
    /// `arith.andi`.
    ArithAndi = 14,
    /// `arith.ori`.
    ArithOri = 15,
    /// `arith.xori`.
    ArithXori = 16,
    /// `arith.shrsi`.
    ArithShrsi = 17,
    /// `arith.shrui`.
    ArithShrui = 18,
    /// `arith.maxsi`.
    ArithMaxsi = 19,
    /// `arith.maxui`.
    ArithMaxui = 20,
    /// `arith.minsi`.
    ArithMinsi = 21,
    /// `arith.minui`.
    ArithMinui = 22,
    /// `arith.cmpi`.
    ArithCmpi = 23,
    /// `arith.select`.
    ArithSelect = 24,
    /// `arith.extsi`.
    ArithExtsi = 25,
    /// `arith.extui`.
    ArithExtui = 26,
    /// `arith.trunci`.
    ArithTrunci = 27,
    /// `arith.index_cast`.
    ArithIndexCast = 28,
    /// `arith.index_castui`.
    ArithIndexCastui = 29,
    /// `scf.for`.
    ScfFor = 30,
    /// `scf.if`.
    ScfIf = 31,
    /// `scf.while`.
    ScfWhile = 32,
    /// `scf.yield`.
    ScfYield = 33,
    /// `scf.condition`.
    ScfCondition = 34,
    /// `memref.alloc`.
    MemrefAlloc = 35,
    /// `memref.dealloc`.
    MemrefDealloc = 36,
    /// `memref.load`.
    MemrefLoad = 37,
    /// `memref.store`.
    MemrefStore = 38,
    /// `sym_name`.
    SymName = 39,
    /// `sym_visibility`.
    SymVisibility = 40,
    /// `function_type`.
    FunctionType = 41,
    /// `arg_attrs`.
    ArgAttrs = 42,
    /// `res_attrs`.
    ResAttrs = 43,
    /// `callee`.
    Callee = 44,
    /// `value`.
    Value = 45,
    /// `overflowFlags`.
    OverflowFlags = 46,
    /// `predicate`.
    Predicate = 47,
    /// `operandSegmentSizes`.
    OperandSegmentSizes = 48,
    /// `alignment`.
    Alignment = 49,
    /// `nontemporal`.
    Nontemporal = 50,
    /// `public`.
    Public = 51,
    /// `private`.
    Private = 52,
    /// `nested`.
    Nested = 53,
}

impl Word {
    /// Returns the id that the word has in every context.
    pub fn id(self) -> NameId
        ensures { result ≡ word_number self }
    {
        NameId::new(self as u32)
    }
}

/// Returns whether a name is a word, by its id.
#[tactic(auto, using(crate::proofs::WordPlaces::word_is))]
pub fn is_word_number(name: NameId, word: Word) -> bool
    ensures number { result ≡ (name == word_number word) }
    ensures name { (c : ContextModel) → IsSound c → result ≡ bytes_eq (name_term c name) (word_bytes word) }
{
    name == word.id()
}
