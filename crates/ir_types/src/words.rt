//! The predefined words of every context, at fixed ids.
ghost use Rattle.std.specs.Prelude.{◌==◌, ◌≡◌, ◌<◌, length, map, slice_get, Some};
ghost use Rattle.std.specs.List.{list_any};
ghost use Rattle.ir_types.specs.Things.{ContextModel};
ghost use Rattle.ir_types.specs.Terms.{name_term};
ghost use Rattle.ir_types.specs.Sound.{IsSound};
ghost use Rattle.ir_types.specs.Words.{words, row_keys, is_listed, is_table, is_isolated, is_inherent, is_listed_number, is_table_number, is_isolated_number, is_inherent_number};

use crate::ids::NameId;

/// The number of names of registered operations. They are the first words.
pub const OPERATIONS: u32 = 39;

/// The number of words.
pub const WORDS: u32 = 54;

/// The id of `builtin.module`.
pub const BUILTIN_MODULE: u32 = 0;

/// The id of `func.func`.
pub const FUNC_FUNC: u32 = 2;

/// Returns a word by its id: a registered operation of MLIR's dialects, the key of a property, or a visibility.
pub fn word(index: u32) -> &'static [u8]
    requires { index < 54 }
    ensures { slice_get words index ≡ Some result.now }
{
    const TABLE: [&[u8]; 54] = [
        b"builtin.module",
        b"builtin.unrealized_conversion_cast",
        b"func.func",
        b"func.call",
        b"func.return",
        b"arith.constant",
        b"arith.addi",
        b"arith.subi",
        b"arith.muli",
        b"arith.shli",
        b"arith.divsi",
        b"arith.divui",
        b"arith.remsi",
        b"arith.remui",
        b"arith.andi",
        b"arith.ori",
        b"arith.xori",
        b"arith.shrsi",
        b"arith.shrui",
        b"arith.maxsi",
        b"arith.maxui",
        b"arith.minsi",
        b"arith.minui",
        b"arith.cmpi",
        b"arith.select",
        b"arith.extsi",
        b"arith.extui",
        b"arith.trunci",
        b"arith.index_cast",
        b"arith.index_castui",
        b"scf.for",
        b"scf.if",
        b"scf.while",
        b"scf.yield",
        b"scf.condition",
        b"memref.alloc",
        b"memref.dealloc",
        b"memref.load",
        b"memref.store",
        b"sym_name",
        b"sym_visibility",
        b"function_type",
        b"arg_attrs",
        b"res_attrs",
        b"callee",
        b"value",
        b"overflowFlags",
        b"predicate",
        b"operandSegmentSizes",
        b"alignment",
        b"nontemporal",
        b"public",
        b"private",
        b"nested",
    ];
    entry(&TABLE, index as usize)
}

/// Returns an entry of a table.
fn entry<'a, T>(table: &[&'a [T]], index: usize) -> &'a [T]
    requires { index < length table.now }
    ensures { slice_get (map (λ b. b.now) table.now) index ≡ Some result.now }
{
    table[index]
}

/// Returns whether an id is that of a registered operation's name.
#[tactic(auto, using(crate::proofs::WordNumbers::listed_is))]
pub fn listed_number(name: NameId) -> bool
    ensures number { result ≡ is_listed_number name }
    ensures name { (c : ContextModel) → IsSound c → result ≡ is_listed (name_term c name) }
{
    name.number() < OPERATIONS
}

/// Returns whether an id is that of the name of an operation with a symbol table ("Symbols and Symbol Tables", "Symbol
/// Table").
#[tactic(auto, using(crate::proofs::WordNumbers::table_is))]
pub fn table_number(name: NameId) -> bool
    ensures number { result ≡ is_table_number name }
    ensures name { (c : ContextModel) → IsSound c → result ≡ is_table (name_term c name) }
{
    name.number() == BUILTIN_MODULE
}

/// Returns whether an id is that of the name of an isolated operation ("Traits", "IsolatedFromAbove").
#[tactic(auto, using(crate::proofs::WordNumbers::isolated_is))]
pub fn isolated_number(name: NameId) -> bool
    ensures number { result ≡ is_isolated_number name }
    ensures name { (c : ContextModel) → IsSound c → result ≡ is_isolated (name_term c name) }
{
    name.number() == BUILTIN_MODULE || name.number() == FUNC_FUNC
}

/// Returns whether a key is inherent to an operation, by their ids.
#[tactic(auto, using(crate::proofs::WordNumbers::inherent_is, crate::proofs::WordNumbers::no_row), unfolding(crate::specs::Words::is_inherent_number))]
pub fn inherent_number(op: NameId, key: NameId) -> bool
    ensures number { result ≡ is_inherent_number op key }
    ensures name { (c : ContextModel) → IsSound c → result ≡ is_inherent (name_term c op) (name_term c key) }
{
    op.number() < OPERATIONS && contains(row(op.number()), key.number())
}

fn contains(keys: &[u32], key: u32) -> bool
    ensures { result ≡ list_any (λ k. k == key) keys.now }
{
    keys.contains(&key)
}

/// Returns the keys of the properties of a registered operation.
fn row(op: u32) -> &'static [u32]
    requires { op < 39 }
    ensures { slice_get row_keys op ≡ Some result.now }
{
    const ROWS: [&[u32]; 39] = [
        &[39, 40],
        &[],
        &[41, 39, 40, 42, 43],
        &[44, 42, 43],
        &[],
        &[45],
        &[46],
        &[46],
        &[46],
        &[46],
        &[],
        &[],
        &[],
        &[],
        &[],
        &[],
        &[],
        &[],
        &[],
        &[],
        &[],
        &[],
        &[],
        &[47],
        &[],
        &[],
        &[],
        &[46],
        &[],
        &[],
        &[],
        &[],
        &[],
        &[],
        &[],
        &[48, 49],
        &[],
        &[50, 49],
        &[50, 49],
    ];
    entry(&ROWS, op as usize)
}
