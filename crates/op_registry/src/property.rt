//! Constraints on the attributes of properties.
ghost use Rattle.std.specs.Prelude.{◌≡◌, ℕ, List, is_some, Some, map, slice_get, unwrap_or, IfSome, true};
ghost use Rattle.std.specs.Option.{option_map};
ghost use Rattle.ir_types.specs.Things.{ContextModel, IsAttr, IsType, AttrIsOf};
ghost use Rattle.ir_types.specs.Terms.{AttrTerm, TypeTerm, attr_from, attr_node_term, attr_term, name_term, type_at, type_from, type_term};
ghost use Rattle.ir_types.specs.Readings.{is_bits_of};
ghost use Rattle.ir_types.specs.Sound.{IsSound};
ghost use Rattle.op_registry.specs.Properties as properties;
ghost use Rattle.op_registry.specs.Properties.{property_kinds};

use ir_types::context::Context;
use ir_types::ids::{AttrId, NameId, TypeId};
use ir_types::node::{AttrNode, Sign, TypeNode};
use ir_types::things::{attr_of, type_of};
use ir_types::word::Word;
use ir_types::words::OPERATIONS;

/// A constraint on the attribute of a property.
#[derive(Clone, Copy)]
pub enum PropertyKind {
    /// Any attribute.
    Any,
    /// An integer attribute.
    Integer,
    /// `0 : i64` to `9 : i64`.
    Predicate,
    /// The flags `#arith.overflow`.
    Overflow,
    /// A function type.
    Function,
    /// A string.
    Text,
    /// The string `public`, `private` or `nested`.
    Visibility,
    /// A symbol reference with one component.
    Symbol,
    /// An `array<i32>`.
    Segments,
}

/// The kinds of the keys, from the id of the first key on.
static KINDS: [PropertyKind; 12] = [
    // sym_name, sym_visibility
    PropertyKind::Text,
    PropertyKind::Visibility,
    // function_type, arg_attrs, res_attrs
    PropertyKind::Function,
    PropertyKind::Any,
    PropertyKind::Any,
    // callee
    PropertyKind::Symbol,
    // value, overflowFlags, predicate
    PropertyKind::Integer,
    PropertyKind::Overflow,
    PropertyKind::Predicate,
    // operandSegmentSizes, alignment, nontemporal
    PropertyKind::Segments,
    PropertyKind::Any,
    PropertyKind::Any,
];

/// Returns the constraint on the attribute of a key. For a key of no row, any attribute is allowed.
pub fn property_kind(key: NameId) -> PropertyKind
    ensures { (c : ContextModel) → IsSound c → result ≡ properties.kind_of (name_term c key) }
{
    let number = key.number();
    if number < OPERATIONS {
        return PropertyKind::Any;
    }
    kind_at((number - OPERATIONS) as usize)
}

/// Returns the kind of the key at an index among the keys.
fn kind_at(place: usize) -> PropertyKind
    ensures { result ≡ unwrap_or (slice_get (map (λ (row : List ℕ × PropertyKind). row.1) property_kinds) place) PropertyKind.Any }
{
    entry(&KINDS, place)
}

fn entry(table: &[PropertyKind], place: usize) -> PropertyKind
    ensures { result ≡ unwrap_or (slice_get table.now place) PropertyKind.Any }
{
    if place < table.len() {
        table[place]
    } else {
        PropertyKind::Any
    }
}

/// Returns whether an attribute is allowed as the property of a key, following the documentation of each operation's
/// attributes.
pub fn allows(ctx: &Context, key: NameId, attr: AttrId) -> bool
    requires { IsAttr ctx.now attr }
    ensures { result ≡ properties.is_allowed (name_term ctx.now key) (attr_term ctx.now attr) }
{
    ctx.sound();
    is_of_kind(ctx, property_kind(key), attr_of(ctx, attr))
}

/// Returns whether an attribute is of a kind.
#[tactic(auto, unfolding(crate::specs::Properties::is_of_kind))]
fn is_of_kind(ctx: &Context, kind: PropertyKind, node: &AttrNode) -> bool
    requires { AttrIsOf ctx.now node.now }
    ensures { result ≡ properties.is_of_kind kind (attr_node_term ctx.now node.now) }
{
    match kind {
        PropertyKind::Any => true,
        PropertyKind::Integer => is_integer(node),
        PropertyKind::Predicate => is_predicate(ctx, node),
        PropertyKind::Overflow => is_overflow(node),
        PropertyKind::Function => is_function(ctx, node),
        PropertyKind::Text => is_string(node),
        PropertyKind::Visibility => is_visibility(ctx, node),
        PropertyKind::Symbol => is_symbol_of_one_part(node),
        PropertyKind::Segments => is_segments(ctx, node),
    }
}

/// Returns whether an attribute is an integer.
fn is_integer(node: &AttrNode) -> bool
    ensures { (names : List (List ℕ)) (types : List TypeTerm) (attrs : List AttrTerm) → result ≡ is_some (properties.integer_of (attr_from names types attrs node.now)) }
{
    match node {
        AttrNode::Int { .. } => true,
        _ => false,
    }
}

/// Returns whether an attribute is a string.
fn is_string(node: &AttrNode) -> bool
    ensures { (names : List (List ℕ)) (types : List TypeTerm) (attrs : List AttrTerm) → result ≡ is_some (properties.string_of (attr_from names types attrs node.now)) }
{
    match node {
        AttrNode::Str(_) => true,
        _ => false,
    }
}

/// Returns whether an attribute is the flags of an operation.
fn is_overflow(node: &AttrNode) -> bool
    ensures { (names : List (List ℕ)) (types : List TypeTerm) (attrs : List AttrTerm) → result ≡ properties.is_overflow (attr_from names types attrs node.now) }
{
    match node {
        AttrNode::Overflow { .. } => true,
        _ => false,
    }
}

/// Returns whether an attribute is a symbol reference with one component.
fn is_symbol_of_one_part(node: &AttrNode) -> bool
    ensures { (names : List (List ℕ)) (types : List TypeTerm) (attrs : List AttrTerm) → result ≡ properties.is_symbol_of_one_part (attr_from names types attrs node.now) }
{
    match node {
        AttrNode::Sym(parts) => parts.len() == 1,
        _ => false,
    }
}

/// Returns the type and the bits of an integer, or `None` for any other attribute.
fn integer_in(node: &AttrNode) -> Option<(TypeId, u128)>
    ensures integer { (names : List (List ℕ)) (types : List TypeTerm) (attrs : List AttrTerm) → option_map (λ i. (type_at types i.0, i.1)) result ≡ properties.integer_of (attr_from names types attrs node.now) }
    ensures ty { (c : ContextModel) → AttrIsOf c node.now → IfSome result (λ i. IsType c i.0) }
{
    match node {
        AttrNode::Int { ty, value } => Some((*ty, *value)),
        _ => None,
    }
}

/// Returns whether an attribute is the string `public`, `private` or `nested`.
fn is_visibility(ctx: &Context, node: &AttrNode) -> bool
    requires { AttrIsOf ctx.now node.now }
    ensures { result ≡ properties.is_visibility (properties.string_of (attr_node_term ctx.now node.now)) }
{
    match node {
        AttrNode::Str(name) => names_visibility(ctx, *name),
        _ => false,
    }
}

/// Returns whether an attribute is a function type.
fn is_function(ctx: &Context, node: &AttrNode) -> bool
    requires { AttrIsOf ctx.now node.now }
    ensures { result ≡ properties.is_and properties.is_function (properties.type_of (attr_node_term ctx.now node.now)) }
{
    match node {
        AttrNode::Ty(ty) => is_function_type(type_of(ctx, *ty)),
        _ => false,
    }
}

/// Returns whether an attribute is an `array<i32>`.
fn is_segments(ctx: &Context, node: &AttrNode) -> bool
    requires { AttrIsOf ctx.now node.now }
    ensures { result ≡ properties.is_and (properties.is_signless 32) (properties.element_of (attr_node_term ctx.now node.now)) }
{
    match node {
        AttrNode::Dense { elem, .. } => is_signless(type_of(ctx, *elem), 32),
        _ => false,
    }
}

/// Returns whether an attribute is `0 : i64` to `9 : i64`.
fn is_predicate(ctx: &Context, node: &AttrNode) -> bool
    requires { AttrIsOf ctx.now node.now }
    ensures { result ≡ properties.is_predicate (properties.integer_of (attr_node_term ctx.now node.now)) }
{
    match node {
        AttrNode::Int { ty, value } => is_signless(type_of(ctx, *ty), 64) && *value <= 9,
        _ => false,
    }
}

/// Returns whether a name is a visibility.
fn names_visibility(ctx: &Context, name: NameId) -> bool
    ensures { result ≡ properties.is_visibility (Some (name_term ctx.now name)) }
{
    ctx.is_word(name, Word::Public)
        || ctx.is_word(name, Word::Private)
        || ctx.is_word(name, Word::Nested)
}

/// Returns whether a type is the signless integer type of this width.
fn is_signless(node: &TypeNode, bits: u32) -> bool
    ensures { (known : List TypeTerm) → result ≡ properties.is_signless bits (type_from known node.now) }
{
    match node {
        TypeNode::Int { sign, width } => match sign {
            Sign::Signless => *width == bits,
            Sign::Signed => false,
            Sign::Unsigned => false,
        },
        TypeNode::Index => false,
        TypeNode::Func { .. } => false,
        TypeNode::Memref { .. } => false,
        TypeNode::Opaque(_) => false,
    }
}

fn is_function_type(node: &TypeNode) -> bool
    ensures { (known : List TypeTerm) → result ≡ properties.is_function (type_from known node.now) }
{
    match node {
        TypeNode::Int { .. } => false,
        TypeNode::Index => false,
        TypeNode::Func { .. } => true,
        TypeNode::Memref { .. } => false,
        TypeNode::Opaque(_) => false,
    }
}

/// Returns the type and the bits of an integer attribute, or `None` for any other attribute (Builtin Dialect,
/// "IntegerAttr").
pub fn integer_of(ctx: &Context, attr: AttrId) -> Option<(TypeId, u128)>
    requires { IsAttr ctx.now attr }
    ensures integer { option_map (λ i. (type_term ctx.now i.0, i.1)) result ≡ properties.integer_of (attr_term ctx.now attr) }
    ensures ty { IfSome result (λ i. IsType ctx.now i.0) }
    ensures fits { IfSome result (λ i. is_bits_of (type_term ctx.now i.0) i.1 ≡ true) }
{
    ctx.sound();
    integer_in(attr_of(ctx, attr))
}
