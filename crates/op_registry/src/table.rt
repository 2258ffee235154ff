//! The rows, in the order of the words' ids.
ghost use Rattle.std.specs.Prelude.{◌≡◌, ℕ, List, map};
ghost use Rattle.op_registry.specs.Rows.{Row, rows};
ghost use Rattle.op_registry.specs.Registry.{row_from};

use crate::definition::{OpDef, Property, RegionRule, Traits, TypeRule, Types};
use crate::own::{EffectSet, Own};
use ir_types::word::Word;
use ir_types::words::OPERATIONS;

/// No type.
const NONE: Types = Types {
    first: &[],
    more: None,
};

/// Any number of operands or results, of any types.
const ANY: Types = Types {
    first: &[],
    more: Some(TypeRule::Any),
};

const NUMBER: Types = Types {
    first: &[TypeRule::Number],
    more: None,
};

const INTEGER: Types = Types {
    first: &[TypeRule::Integer],
    more: None,
};

const BOOLEAN: Types = Types {
    first: &[TypeRule::Boolean],
    more: None,
};

const MEMREF: Types = Types {
    first: &[TypeRule::Memref],
    more: None,
};

const INITIAL: Types = Types {
    first: &[],
    more: Some(TypeRule::Initial),
};

const NO_EFFECT: EffectSet = EffectSet {
    allocate: false,
    free: false,
    read: false,
    write: false,
};

const NO_TRAIT: Traits = Traits {
    terminator: false,
    isolated: false,
    symbol_table: false,
    symbol: false,
    recursive: false,
};

/// A row without operands, results, regions, properties, effects and traits.
const BARE: OpDef = OpDef {
    operands: NONE,
    results: NONE,
    regions: &[],
    properties: &[],
    effects: Own::Pure,
    traits: NO_TRAIT,
    parents: &[],
};

/// Two operands and one result, all of the same number type.
const ARITHMETIC: OpDef = OpDef {
    operands: Types {
        first: &[TypeRule::Number, TypeRule::Number],
        more: None,
    },
    results: NUMBER,
    ..BARE
};

/// Two operands and one result, all of the same number type, with overflow flags.
const FLAGGED: OpDef = OpDef {
    properties: &[OVERFLOW],
    ..ARITHMETIC
};

/// A cast from an integer type to one of another width.
const RESIZE: OpDef = OpDef {
    operands: INTEGER,
    results: INTEGER,
    ..BARE
};

/// A cast from a number type to another.
const INDEX_CAST: OpDef = OpDef {
    operands: NUMBER,
    results: Types {
        first: &[TypeRule::OtherNumber],
        more: None,
    },
    ..BARE
};

/// An operation that terminates blocks.
const ENDING: OpDef = OpDef {
    operands: ANY,
    traits: Traits {
        terminator: true,
        ..NO_TRAIT
    },
    ..BARE
};

/// An operation that has the effects of the operations directly inside it.
const AROUND: OpDef = OpDef {
    effects: Own::Recursive,
    traits: Traits {
        recursive: true,
        ..NO_TRAIT
    },
    ..BARE
};

/// A region that must have a block without arguments.
const PLAIN_REGION: RegionRule = RegionRule {
    arguments: NONE,
    may_be_empty: false,
};

const SYM_NAME: Property = Property {
    key: Word::SymName,
    required: false,
};

const NEEDED_NAME: Property = Property {
    required: true,
    ..SYM_NAME
};

const SYM_VISIBILITY: Property = Property {
    key: Word::SymVisibility,
    required: false,
};

const ARG_ATTRS: Property = Property {
    key: Word::ArgAttrs,
    required: false,
};

const RES_ATTRS: Property = Property {
    key: Word::ResAttrs,
    required: false,
};

const OVERFLOW: Property = Property {
    key: Word::OverflowFlags,
    required: false,
};

const ALIGNMENT: Property = Property {
    key: Word::Alignment,
    required: false,
};

const NONTEMPORAL: Property = Property {
    key: Word::Nontemporal,
    required: false,
};

/// The row of each registered operation, at the id of its name.
static ROWS: [OpDef; OPERATIONS as usize] = [
    // builtin.module
    OpDef {
        regions: &[PLAIN_REGION],
        properties: &[SYM_NAME, SYM_VISIBILITY],
        effects: Own::Unknown,
        traits: Traits {
            isolated: true,
            symbol_table: true,
            symbol: true,
            ..NO_TRAIT
        },
        ..BARE
    },
    // builtin.unrealized_conversion_cast
    OpDef {
        operands: ANY,
        results: Types {
            first: &[TypeRule::Any],
            more: Some(TypeRule::Any),
        },
        ..BARE
    },
    // func.func
    OpDef {
        regions: &[RegionRule {
            arguments: Types {
                first: &[],
                more: Some(TypeRule::Input),
            },
            may_be_empty: true,
        }],
        properties: &[
            Property {
                key: Word::FunctionType,
                required: true,
            },
            NEEDED_NAME,
            SYM_VISIBILITY,
            ARG_ATTRS,
            RES_ATTRS,
        ],
        effects: Own::Unknown,
        traits: Traits {
            isolated: true,
            symbol: true,
            ..NO_TRAIT
        },
        ..BARE
    },
    // func.call
    OpDef {
        operands: ANY,
        results: ANY,
        properties: &[
            Property {
                key: Word::Callee,
                required: true,
            },
            ARG_ATTRS,
            RES_ATTRS,
        ],
        effects: Own::Unknown,
        ..BARE
    },
    // func.return
    OpDef {
        parents: &[Word::FuncFunc],
        ..ENDING
    },
    // arith.constant
    OpDef {
        results: NUMBER,
        properties: &[Property {
            key: Word::Value,
            required: true,
        }],
        ..BARE
    },
    // arith.addi, subi, muli, shli
    FLAGGED,
    FLAGGED,
    FLAGGED,
    FLAGGED,
    // arith.divsi, divui, remsi, remui
    ARITHMETIC,
    ARITHMETIC,
    ARITHMETIC,
    ARITHMETIC,
    // arith.andi, ori, xori
    ARITHMETIC,
    ARITHMETIC,
    ARITHMETIC,
    // arith.shrsi, shrui
    ARITHMETIC,
    ARITHMETIC,
    // arith.maxsi, maxui, minsi, minui
    ARITHMETIC,
    ARITHMETIC,
    ARITHMETIC,
    ARITHMETIC,
    // arith.cmpi
    OpDef {
        results: BOOLEAN,
        properties: &[Property {
            key: Word::Predicate,
            required: true,
        }],
        ..ARITHMETIC
    },
    // arith.select
    OpDef {
        operands: Types {
            first: &[TypeRule::Boolean, TypeRule::Any, TypeRule::Same],
            more: None,
        },
        results: Types {
            first: &[TypeRule::Same],
            more: None,
        },
        ..BARE
    },
    // arith.extsi, extui
    RESIZE,
    RESIZE,
    // arith.trunci
    OpDef {
        properties: &[OVERFLOW],
        ..RESIZE
    },
    // arith.index_cast, index_castui
    INDEX_CAST,
    INDEX_CAST,
    // scf.for
    OpDef {
        operands: Types {
            first: &[TypeRule::Number, TypeRule::Number, TypeRule::Number],
            more: Some(TypeRule::Any),
        },
        results: INITIAL,
        regions: &[RegionRule {
            arguments: Types {
                first: &[TypeRule::Number],
                more: Some(TypeRule::Initial),
            },
            may_be_empty: false,
        }],
        ..AROUND
    },
    // scf.if
    OpDef {
        operands: BOOLEAN,
        results: ANY,
        regions: &[
            PLAIN_REGION,
            RegionRule {
                may_be_empty: true,
                ..PLAIN_REGION
            },
        ],
        ..AROUND
    },
    // scf.while
    OpDef {
        operands: ANY,
        results: ANY,
        regions: &[
            RegionRule {
                arguments: INITIAL,
                may_be_empty: false,
            },
            RegionRule {
                arguments: Types {
                    first: &[],
                    more: Some(TypeRule::Result),
                },
                may_be_empty: false,
            },
        ],
        ..AROUND
    },
    // scf.yield
    OpDef {
        parents: &[Word::ScfFor, Word::ScfIf, Word::ScfWhile],
        ..ENDING
    },
    // scf.condition
    OpDef {
        operands: Types {
            first: &[TypeRule::Boolean],
            more: Some(TypeRule::Any),
        },
        parents: &[Word::ScfWhile],
        ..ENDING
    },
    // memref.alloc
    OpDef {
        operands: Types {
            first: &[],
            more: Some(TypeRule::Index),
        },
        results: MEMREF,
        properties: &[
            Property {
                key: Word::OperandSegmentSizes,
                required: false,
            },
            ALIGNMENT,
        ],
        effects: Own::Only(EffectSet {
            allocate: true,
            ..NO_EFFECT
        }),
        ..BARE
    },
    // memref.dealloc
    OpDef {
        operands: MEMREF,
        effects: Own::Only(EffectSet {
            free: true,
            ..NO_EFFECT
        }),
        ..BARE
    },
    // memref.load
    OpDef {
        operands: Types {
            first: &[TypeRule::Memref],
            more: Some(TypeRule::Index),
        },
        results: Types {
            first: &[TypeRule::Element],
            more: None,
        },
        properties: &[NONTEMPORAL, ALIGNMENT],
        effects: Own::Only(EffectSet {
            read: true,
            ..NO_EFFECT
        }),
        ..BARE
    },
    // memref.store
    OpDef {
        operands: Types {
            first: &[TypeRule::Element, TypeRule::Memref],
            more: Some(TypeRule::Index),
        },
        properties: &[NONTEMPORAL, ALIGNMENT],
        effects: Own::Only(EffectSet {
            write: true,
            ..NO_EFFECT
        }),
        ..BARE
    },
];

/// Returns the rows: the index of a row is the id of the operation's name.
pub(crate) fn table() -> &'static [OpDef]
    ensures { map row_from result.now ≡ map (λ (row : List ℕ × Row). row.1) rows }
{
    &ROWS
}
