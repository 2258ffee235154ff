//! Reads what an operation says of blocks: whether it is a scope, its label, and the labels of its successors.
ghost use Rattle.std.specs.Prelude.{◌≡◌, codes, pos, is_some, map, option_map};
ghost use Rattle.std.specs.Str.{bytes_eq};
ghost use Rattle.ir_types.specs.Things.{IsType, AttrIsOf};
ghost use Rattle.ir_types.specs.Terms.{attr_node_term, attr_term, name_term, type_term};
ghost use Rattle.ir_tree.specs.Tree.{head};
ghost use Rattle.ir_tree.specs.Maps.{map_entry};
ghost use Rattle.ir_tree.specs.Meaning.{key_before, meaning};
ghost use Rattle.ir_tree.specs.Edits.{entry_at, same_key};
ghost use Rattle.ir_tree_blocks.specs.Scopes as scopes;
ghost use Rattle.ir_tree_blocks.specs.Scopes.{i32_numbers, label_of, naturals, numbers_in, number_in, order_of, or_none, successors_of};

use ir_tree::tree::TreeOp;
use ir_types::context::Context;
use ir_types::ids::{AttrId, NameId, TypeId};
use ir_types::node::{AttrNode, Sign, TypeNode};
use ir_types::things::{attr_of, type_of};

/// Returns the bytes of a name, or no bytes if the name isn't of the context.
fn bytes_or_none(ctx: &Context, name: NameId) -> &[u8]
    ensures { result.now ≡ name_term ctx.now name }
{
    if ctx.has_name(name) {
        ctx.name_bytes(name)
    } else {
        &[]
    }
}

/// Returns whether a name has these bytes.
pub fn has_bytes(ctx: &Context, name: NameId, bytes: &[u8]) -> bool
    ensures { result ≡ bytes_eq (name_term ctx.now name) bytes.now }
{
    bytes_or_none(ctx, name) == bytes
}

/// Returns whether a name is a key.
#[tactic(auto, using(crate::proofs::Keyed::key_is))]
fn is_key(ctx: &Context, name: NameId, key: &[u8]) -> bool
    ensures { result ≡ same_key key_before key.now (name_term ctx.now name) }
{
    has_bytes(ctx, name, key)
}

/// Returns the attribute at a key of a dictionary, if there is one.
fn entry(ctx: &Context, entries: &[(NameId, AttrId)], key: &[u8]) -> Option<AttrId>
    ensures { option_map (attr_term ctx.now) result
        ≡ entry_at key_before key.now (map (map_entry (name_term ctx.now) (attr_term ctx.now)) entries.now) }
{
    let mut rest = entries;
    'entries: while let [(name, attr), tail @ ..] = rest {
        if is_key(ctx, *name, key) {
            return Some(*attr);
        }
        rest = tail;
    }
    None
}

/// Returns whether an operation is a scope.
#[tactic(auto, unfolding(crate::specs::Scopes::is_scope))]
pub fn is_scope(ctx: &Context, op: &TreeOp) -> bool
    ensures { result ≡ scopes.is_scope (head (meaning ctx.now op.now)) }
{
    has_bytes(ctx, op.name, b"cf.block")
}

/// Returns whether a type is i32.
fn is_i32(ctx: &Context, ty: TypeId) -> bool
    requires { IsType ctx.now ty }
    ensures { result ≡ scopes.is_i32 (type_term ctx.now ty) }
{
    match type_of(ctx, ty) {
        TypeNode::Int { sign, width } => is_signless(*sign) && *width == 32,
        TypeNode::Index => false,
        TypeNode::Func { .. } => false,
        TypeNode::Memref { .. } => false,
        TypeNode::Opaque(_) => false,
    }
}

/// Returns whether integers of a sign are signless.
fn is_signless(sign: Sign) -> bool
    ensures { result ≡ scopes.is_signless sign }
{
    match sign {
        Sign::Signless => true,
        Sign::Signed => false,
        Sign::Unsigned => false,
    }
}

/// Returns the number of an attribute `N : i32`, or `None` for any other attribute.
pub fn number(ctx: &Context, attr: AttrId) -> Option<u128>
    ensures { result ≡ number_in (attr_term ctx.now attr) }
{
    if !ctx.has_attr(attr) {
        return None;
    }
    number_of_node(ctx, attr_of(ctx, attr))
}

/// Returns the number of a node `N : i32`, or `None` for any other node.
#[tactic(auto, unfolding(crate::specs::Scopes::number_in))]
fn number_of_node(ctx: &Context, node: &AttrNode) -> Option<u128>
    requires { AttrIsOf ctx.now node.now }
    ensures { result ≡ number_in (attr_node_term ctx.now node.now) }
{
    match node {
        AttrNode::Int { ty, value } => { if is_i32(ctx, *ty) { Some(*value) } else { None } }
        AttrNode::Str(_) => None,
        AttrNode::Ty(_) => None,
        AttrNode::Unit => None,
        AttrNode::Array(_) => None,
        AttrNode::Dict(_) => None,
        AttrNode::Sym(_) => None,
        AttrNode::Dense { .. } => None,
        AttrNode::Overflow { .. } => None,
        AttrNode::Opaque { .. } => None,
    }
}

/// Returns the integers of an attribute `array<i32: N, ..>`, or `None` for any other attribute.
fn integers<'a>(ctx: &'a Context, attr: AttrId) -> Option<&'a [i64]>
    ensures { option_map (λ ns. ns.now) result ≡ i32_numbers (attr_term ctx.now attr) }
{
    if !ctx.has_attr(attr) {
        return None;
    }
    integers_of_node(ctx, attr_of(ctx, attr))
}

/// Returns the integers of a node `array<i32: N, ..>`, or `None` for any other node.
fn integers_of_node<'a>(ctx: &'a Context, node: &'a AttrNode) -> Option<&'a [i64]>
    requires { AttrIsOf ctx.now node.now }
    ensures { option_map (λ ns. ns.now) result ≡ i32_numbers (attr_node_term ctx.now node.now) }
{
    match node {
        AttrNode::Int { .. } => None,
        AttrNode::Str(_) => None,
        AttrNode::Ty(_) => None,
        AttrNode::Unit => None,
        AttrNode::Array(_) => None,
        AttrNode::Dict(_) => None,
        AttrNode::Sym(_) => None,
        AttrNode::Dense { elem, values } => {
            if is_i32(ctx, *elem) {
                Some(values.as_slice())
            } else {
                None
            }
        }
        AttrNode::Overflow { .. } => None,
        AttrNode::Opaque { .. } => None,
    }
}

/// Returns the label of the block of a scope, if the operation has one.
#[tactic(auto, unfolding(crate::specs::Scopes::order_of))]
pub fn order(ctx: &Context, op: &TreeOp) -> Option<u128>
    ensures { result ≡ order_of (head (meaning ctx.now op.now)) }
{
    let Some(attr) = entry(ctx, &op.attrs, b"order") else {
        return None;
    };
    number(ctx, attr)
}

/// Returns whether an operation has the mark of unreachable scopes.
#[tactic(auto, unfolding(crate::specs::Scopes::is_unreachable))]
pub fn is_unreachable(ctx: &Context, op: &TreeOp) -> bool
    ensures { result ≡ scopes.is_unreachable (head (meaning ctx.now op.now)) }
{
    entry(ctx, &op.attrs, b"unreachable").is_some()
}

/// Returns the label of a scope, or 0 if it has none.
pub fn label(ctx: &Context, op: &TreeOp) -> u128
    ensures { result ≡ label_of (head (meaning ctx.now op.now)) }
{
    match order(ctx, op) {
        Some(label) => label,
        None => 0,
    }
}

/// Returns the labels of the successors of an operation. There are none if it has no attribute for them, or one of its
/// integers is negative.
#[tactic(auto, unfolding(crate::specs::Scopes::successors_in))]
pub fn successors<'a>(ctx: &'a Context, op: &'a TreeOp) -> &'a [i64]
    ensures { map (λ n. pos n) (successors_of (head (meaning ctx.now op.now))) ≡ result.now }
{
    match successors_attr(ctx, op) {
        Some(attr) => naturals_or_none(ctx, attr),
        None => &[],
    }
}

/// Returns the attribute for successors of an operation, if there is one.
fn successors_attr(ctx: &Context, op: &TreeOp) -> Option<AttrId>
    ensures { option_map (attr_term ctx.now) result ≡ entry_at key_before (codes "cf.successors") (head (meaning ctx.now op.now)).attributes }
{
    entry(ctx, &op.attrs, b"cf.successors")
}

/// Returns the integers of an attribute `array<i32: N, ..>`, if none of them is negative, and otherwise no integers.
#[tactic(auto, using(crate::proofs::Naturals::numbers_is))]
fn naturals_or_none<'a>(ctx: &'a Context, attr: AttrId) -> &'a [i64]
    ensures { map (λ n. pos n) (or_none (numbers_in (attr_term ctx.now attr))) ≡ result.now }
{
    match integers(ctx, attr) {
        Some(numbers) => all_or_none(numbers),
        None => &[],
    }
}

/// Returns the integers if none of them is negative, and otherwise no integers.
#[tactic(auto, using(crate::proofs::Naturals::natural_all, crate::proofs::Naturals::natural_none))]
fn all_or_none(numbers: &[i64]) -> &[i64]
    ensures { map (λ n. pos n) (or_none (naturals numbers.now)) ≡ result.now }
{
    if are_natural(numbers) { numbers } else { &[] }
}

/// Returns whether none of some integers is negative.
fn are_natural(numbers: &[i64]) -> bool
    ensures { result ≡ is_some (naturals numbers.now) }
{
    let mut rest = numbers;
    'numbers: while let [number, tail @ ..] = rest {
        if *number < 0 {
            return false;
        }
        rest = tail;
    }
    true
}
