//! The inputs of a fold: kinds of types, constant operands, and properties.
ghost use Rattle.std.specs.Prelude.{◌≡◌, ◌<◌, ◌≤◌, ◌^◌, IfSome, Some, List, map, true, codes};
ghost use Rattle.std.specs.List.{All, list_all};
ghost use Rattle.std.specs.Option.{option_map};
ghost use Rattle.std.specs.Str.{bytes_eq};
ghost use Rattle.ir_types.specs.Bits.{width_of};
ghost use Rattle.ir_types.specs.Limits.{most_width};
ghost use Rattle.ir_types.specs.Readings.{is_bits_of};
ghost use Rattle.ir_types.specs.Things.{IsAttr, IsType};
ghost use Rattle.ir_types.specs.Terms.{TypeTerm, name_term, type_from, type_term};
ghost use Rattle.ir_types.specs.WordNames.{word_bytes};
ghost use Rattle.op_registry.specs.Properties.{is_and};
ghost use Rattle.dialects_int.specs.Folds as folds;
ghost use Rattle.dialects_int.specs.Folds.{entries_of, known_of, is_property, property_of};

use ir_types::bits::{Bits, BitsKind};
use ir_types::context::Context;
use ir_types::ids::{AttrId, NameId, TypeId};
use ir_types::node::{Sign, TypeNode};
use ir_types::word::Word;
use op_registry::property::{allows, integer_of};
use op_registry::things::type_of;

/// Returns the kind of a type's constants, or `None` if the type isn't a signless integer type or index.
pub(crate) fn kind_of(ctx: &Context, ty: TypeId) -> Option<BitsKind>
    requires { IsType ctx.now ty }
    ensures kind { result ≡ folds.kind_of (type_term ctx.now ty) }
    ensures low { IfSome result (λ k. 1 ≤ width_of k) }
    ensures high { IfSome result (λ k. width_of k ≤ most_width) }
{
    ctx.sound();
    kind_in(type_of(ctx, ty))
}

/// Returns the kind of the constants of a type's node, or `None` if it has none.
fn kind_in(node: &TypeNode) -> Option<BitsKind>
    ensures { (known : List TypeTerm) → result ≡ folds.kind_of (type_from known node.now) }
{
    match node {
        TypeNode::Int { sign, width } => match sign {
            Sign::Signless => Some(BitsKind::Int(*width)),
            Sign::Signed => None,
            Sign::Unsigned => None,
        },
        TypeNode::Index => Some(BitsKind::Index),
        TypeNode::Func { .. } => None,
        TypeNode::Memref { .. } => None,
        TypeNode::Opaque(_) => None,
    }
}

/// Returns whether two kinds are equal.
pub(crate) fn same_kind(a: BitsKind, b: BitsKind) -> bool
    ensures { result ≡ folds.same_kind a b }
{
    match (a, b) {
        (BitsKind::Int(v), BitsKind::Int(w)) => v == w,
        (BitsKind::Int(_), BitsKind::Index) => false,
        (BitsKind::Index, BitsKind::Int(_)) => false,
        (BitsKind::Index, BitsKind::Index) => true,
    }
}

/// Returns the bits of an operand if it is a constant of the kind, and otherwise `None`.
pub(crate) fn bits_at(kind: BitsKind, operand: &Option<Bits>) -> Option<u128>
    ensures value { result ≡ folds.bits_at kind (known_of operand.now) }
    ensures below { IfSome result (λ v. v < 2 ^ width_of kind) }
{
    match operand {
        Some(bits) => {
            if same_kind(bits.kind, kind) {
                Some(bits.value)
            } else {
                None
            }
        }
        None => None,
    }
}

/// Returns whether all entries are allowed properties of an operation.
pub(crate) fn are_properties(ctx: &Context, name: NameId, props: &[(NameId, AttrId)]) -> bool
    requires { All (λ e. IsAttr ctx.now e.1) props.now }
    ensures { result ≡ list_all (is_property (name_term ctx.now name)) (entries_of ctx.now props.now) }
{
    let mut rest = props;
    while let [(key, attr), tail @ ..] = rest {
        if !ctx.inherent(name, *key) || !allows(ctx, *key, *attr) {
            return false;
        }
        rest = tail;
    }
    true
}

/// Returns the type and the bits of the integer property of a key, or `None` if there is none.
pub(crate) fn property_of(
    ctx: &Context,
    key: Word,
    props: &[(NameId, AttrId)],
) -> Option<(TypeId, u128)>
    requires { All (λ e. IsAttr ctx.now e.1) props.now }
    ensures value { option_map (λ i. (type_term ctx.now i.0, i.1)) result ≡ property_of (word_bytes key) (entries_of ctx.now props.now) }
    ensures ty { IfSome result (λ i. IsType ctx.now i.0) }
    ensures fits { IfSome result (λ i. is_bits_of (type_term ctx.now i.0) i.1 ≡ true) }
{
    let mut rest = props;
    while let [(name, attr), tail @ ..] = rest {
        if is_key(ctx, *name, key) {
            return integer_of(ctx, *attr);
        }
        rest = tail;
    }
    None
}

/// Returns whether a name is a key.
fn is_key(ctx: &Context, name: NameId, key: Word) -> bool
    ensures { result ≡ bytes_eq (word_bytes key) (name_term ctx.now name) }
{
    ctx.is_word(name, key)
}
