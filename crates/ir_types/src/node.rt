//! The nodes of types and attributes, with their components as ids.
use crate::ids::{AttrId, NameId, TypeId};
use ir_types_interner::lists::Items;

/// The signedness of an integer type.
#[derive(Clone, Copy, PartialEq, Eq, Hash)]
pub enum Sign {
    /// `iN`.
    Signless,
    /// `siN`.
    Signed,
    /// `uiN`.
    Unsigned,
}

/// A type, whose components are types of the context (Builtin Dialect, "Types").
#[derive(Drop, PartialEq, Eq, Hash)]
pub enum TypeNode {
    /// An integer type of 1 to 128 bits: `i32`, `si8`, `ui128`.
    Int {
        sign: Sign,
        width: u32,
    },
    /// `index`, a signed integer of 64 bits.
    Index,
    /// A function type: `(i32, i32) -> i1`.
    Func {
        inputs: Items<TypeId>,
        outputs: Items<TypeId>,
    },
    /// A ranked memref without layout and memory space: `memref<4x?xi32>`. `None` is `?`.
    Memref {
        dims: Items<Option<u64>>,
        elem: TypeId,
    },
    /// A type that is known only by its text: `tensor<4xf32>`, `!llvm.ptr`. It is no integer type, index, function or
    /// memref (Builtin Dialect, "OpaqueType").
    Opaque(Items<u8>),
}

/// An attribute, whose components are names, types and attributes of the context (Builtin Dialect, "Attributes").
#[derive(Drop, PartialEq, Eq, Hash)]
pub enum AttrNode {
    /// An integer of an integer type or of index, given by its bits, a number below 2^w: `-1 : i8` and `255 : i8` are
    /// 255 of `i8`, and `true` is 1 of `i1`.
    Int { ty: TypeId, value: u128 },
    /// A string.
    Str(NameId),
    /// A type.
    Ty(TypeId),
    /// `unit`.
    Unit,
    /// An array: `[1 : i8, unit]`.
    Array(Items<AttrId>),
    /// A dictionary: `{a = 1 : i8, b}`.
    Dict(Items<(NameId, AttrId)>),
    /// A symbol reference, with its components: `@a::@b`.
    Sym(Items<NameId>),
    /// A dense array of integers: `array<i32: 0, 1>`.
    Dense { elem: TypeId, values: Items<i64> },
    /// The flags of an integer operation: `#arith.overflow<nsw, nuw>`.
    Overflow { nsw: bool, nuw: bool },
    /// An attribute that is known only by its text, with its type if the text has one: `#d.a<x>`, `1.0 : f32` (Builtin
    /// Dialect, "OpaqueAttr").
    Opaque { text: Items<u8>, ty: Option<TypeId> },
}
