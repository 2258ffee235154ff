//! Operations with one result, by their number of operands.
ghost use Rattle.std.specs.Prelude.{◌≡◌, IfSome, option_map};
ghost use Rattle.ir_event.specs.types.Things.{IsName, IsType, ContextModel};
ghost use Rattle.patterns_base.specs.events.Modules.{NodeIsOf};
ghost use Rattle.patterns_base.specs.Looks.{one, two, three};
ghost use Rattle.patterns_matchers.specs.Reads.{header_of_node, one_in, two_in, three_in};

use ir_event::store::node::Node;
use ir_event::trees::value::Value;
use ir_event::types::ids::{NameId, TypeId};

/// An operation with one operand and one result.
#[derive(Clone, Copy)]
pub struct UnaryOp {
    pub name: NameId,
    pub first: Value,
    pub ty: TypeId,
}

/// An operation with two operands and one result.
#[derive(Clone, Copy)]
pub struct BinaryOp {
    pub name: NameId,
    pub first: Value,
    pub second: Value,
    pub ty: TypeId,
}

/// An operation with three operands and one result.
#[derive(Clone, Copy)]
pub struct TernaryOp {
    pub name: NameId,
    pub first: Value,
    pub second: Value,
    pub third: Value,
    pub ty: TypeId,
}

/// Returns the node as a unary operation, or `None` unless it has one operand and one result.
pub fn unary_op(node: &Node<'_>) -> Option<UnaryOp>
    ensures shaped_as { (c : ContextModel) → option_map (one_in c) result ≡ one (header_of_node c node.now) }
    ensures name { (c : ContextModel) → NodeIsOf c node.now → IfSome result (λ p. IsName c p.name) }
    ensures of { (c : ContextModel) → NodeIsOf c node.now → IfSome result (λ p. IsType c p.ty) }
{
    let [first] = node.operands() else {
        return None;
    };
    let [ty] = node.results() else {
        return None;
    };
    Some(UnaryOp {
        name: node.name(),
        first: *first,
        ty: *ty,
    })
}

/// Returns the node as a binary operation, or `None` unless it has two operands and one result.
pub fn binary_op(node: &Node<'_>) -> Option<BinaryOp>
    ensures shaped_as { (c : ContextModel) → option_map (two_in c) result ≡ two (header_of_node c node.now) }
    ensures name { (c : ContextModel) → NodeIsOf c node.now → IfSome result (λ p. IsName c p.name) }
    ensures of { (c : ContextModel) → NodeIsOf c node.now → IfSome result (λ p. IsType c p.ty) }
{
    let [first, second] = node.operands() else {
        return None;
    };
    let [ty] = node.results() else {
        return None;
    };
    Some(BinaryOp {
        name: node.name(),
        first: *first,
        second: *second,
        ty: *ty,
    })
}

/// Returns the node as a ternary operation, or `None` unless it has three operands and one result.
pub fn ternary_op(node: &Node<'_>) -> Option<TernaryOp>
    ensures shaped_as { (c : ContextModel) → option_map (three_in c) result ≡ three (header_of_node c node.now) }
    ensures of { (c : ContextModel) → NodeIsOf c node.now → IfSome result (λ p. IsType c p.ty) }
{
    let [first, second, third] = node.operands() else {
        return None;
    };
    let [ty] = node.results() else {
        return None;
    };
    Some(TernaryOp {
        name: node.name(),
        first: *first,
        second: *second,
        third: *third,
        ty: *ty,
    })
}
