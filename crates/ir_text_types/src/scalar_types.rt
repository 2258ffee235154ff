//! Types of one word that are among the first types of a context. Most types of a text are.
ghost use Rattle.std.specs.Prelude.{◌≡◌, ◌∷◌, [], ℕ, Bool, IsTrue, IfSome, true, suc, slice_get, Some};
ghost use Rattle.ir_text_tokens.specs.Bodies.{begins};
ghost use Rattle.ir_text_types.specs.Outcomes.{Read};
ghost use Rattle.ir_text_types.specs.PlainTypes.{plain_node, plain_width};
ghost use Rattle.ir_text_types.specs.Scalars.{scalar_of, width_of};
ghost use Rattle.ir_text_types.specs.TypeReading.{type_at};

use crate::scalars::width_of;
use ir_text_tokens::lexer;
use ir_types::context::Context;
use ir_types::ids::TypeId;
use ir_types::node::{Sign, TypeNode};

/// The number of types at the start of a context that are compared one by one.
const FIRST: u32 = 4;

/// A type of one word: a signless integer type, or `index`.
#[derive(Clone, Copy)]
pub(crate) enum ScalarType {
    Integer(u32),
    Index,
}

/// Returns the width that two digits denote, or `None` if it is no width. Most widths have two digits.
#[inline(always)]
#[tactic(auto, using(crate::proofs::Widths::two_width))]
fn two_width(tens: u8, ones: u8) -> Option<u32>
    ensures { IfSome result (λ w. width_of (tens ∷ ones ∷ []) ≡ Some w) }
{
    if tens == b'0' || !tens.is_ascii_digit() || !ones.is_ascii_digit() {
        return None;
    }
    let width = (tens - b'0') * 10 + (ones - b'0');
    Some(width as u32)
}

/// Returns the width that a digit denotes, or `None` if it is no width.
#[inline(always)]
#[tactic(auto, using(crate::proofs::Widths::one_width))]
fn one_width(digit: u8) -> Option<u32>
    ensures { IfSome result (λ w. width_of (digit ∷ []) ≡ Some w) }
{
    if digit == b'0' || !digit.is_ascii_digit() {
        return None;
    }
    Some((digit - b'0') as u32)
}

/// Returns the width that the digits denote, or `None` if it is no width.
#[inline(always)]
fn digits_width(digits: &[u8]) -> Option<u32>
    ensures { IfSome result (λ w. width_of digits.now ≡ Some w) }
{
    match digits {
        [tens, ones] => two_width(*tens, *ones),
        [digit] => one_width(*digit),
        _ => width_of(digits),
    }
}

/// Returns the width of the signless integer type that the word names.
#[inline(always)]
fn plain_width(word: &[u8]) -> Option<u32>
    ensures { IfSome result (λ w. plain_width word.now ≡ Some w) }
{
    let [first, digits @ ..] = word else {
        return None;
    };
    if *first != b'i' {
        return None;
    }
    digits_width(digits)
}

/// Returns the signless integer type or `index` that the word names.
#[inline(always)]
#[tactic(auto, using(crate::proofs::PlainSteps::integer_scalar, crate::proofs::PlainSteps::integer_begins), unfolding(crate::specs::Scalars::scalar_of))]
fn plain_of(word: &[u8]) -> Option<ScalarType>
    ensures scalar { IfSome result (λ p. scalar_of word.now ≡ Some (plain_node p)) }
    ensures begins { IfSome result (λ _. begins 105 word.now ≡ true) }
{
    if let [b'i', b'n', b'd', b'e', b'x'] = word {
        return Some(ScalarType::Index);
    }
    match plain_width(word) {
        Some(width) => Some(ScalarType::Integer(width)),
        None => None,
    }
}

/// Returns whether a node is this scalar type.
#[inline(always)]
fn is_plain(node: &TypeNode, dimension_or_any: ScalarType) -> bool
    ensures { IsTrue result → node.now ≡ plain_node dimension_or_any }
{
    match node {
        TypeNode::Int {
            sign: Sign::Signless,
            width,
        } => match dimension_or_any {
            ScalarType::Integer(other) => *width == other,
            ScalarType::Index => false,
        },
        TypeNode::Index => match dimension_or_any {
            ScalarType::Integer(_) => false,
            ScalarType::Index => true,
        },
        _ => false,
    }
}

/// Returns the id of the scalar type, if it is among the first types of the context.
#[inline(always)]
fn place_of(ctx: &Context, dimension_or_any: ScalarType) -> Option<TypeId>
    ensures { IfSome result (λ n. slice_get ctx.now.types n ≡ Some (plain_node dimension_or_any)) }
{
    'places: for number in 0..FIRST {
        let id = TypeId::new(number);
        if !ctx.has_type(id) {
            return None;
        }
        if is_plain(ctx.type_node(id), dimension_or_any) {
            return Some(id);
        }
    }
    None
}

/// Returns the scalar type at the start of the text, if it is among the first types of the context, and the rest of
/// the text. No hash is computed.
#[inline(always)]
pub fn known<'a>(ctx: &Context, bytes: &'a [u8]) -> Option<(TypeId, &'a [u8])>
    ensures { IfSome result (λ x. (o : Bool) (depth : ℕ) → type_at o (suc depth) (bytes.now, ctx.now) ≡ Read (x.0, (x.1.now, ctx.now))) }
{
    ctx.sound();
    let Some((word, rest)) = lexer::word(bytes) else {
        return None;
    };
    let Some(dimension_or_any) = plain_of(word) else {
        return None;
    };
    match place_of(ctx, dimension_or_any) {
        Some(id) => Some((id, rest)),
        None => None,
    }
}

/// Returns the rest of the text after the type with this id, if the text begins with its name and it is a signless
/// integer type or `index` of the context. No hash is computed.
#[inline(always)]
pub fn after_type<'a>(ctx: &Context, ty: TypeId, bytes: &'a [u8]) -> Option<&'a [u8]>
    ensures { IfSome result (λ r. (o : Bool) (depth : ℕ) → type_at o (suc depth) (bytes.now, ctx.now) ≡ Read (ty, (r.now, ctx.now))) }
{
    ctx.sound();
    let Some((word, rest)) = lexer::word(bytes) else {
        return None;
    };
    let Some(scalar) = plain_of(word) else {
        return None;
    };
    if ctx.has_type(ty) && is_plain(ctx.type_node(ty), scalar) {
        Some(rest)
    } else {
        None
    }
}
