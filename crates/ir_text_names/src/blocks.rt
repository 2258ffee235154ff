//! Parses a region up to the operations of its block. Language Reference, "Blocks".
ghost use Rattle.std.specs.Prelude.{◌≡◌, ◌≤◌, ◌+◌, [], length, option_map, OnOk};
ghost use Rattle.ir_types.specs.Things.{IsExtendedBy};
ghost use Rattle.ir_tree.specs.Limits.{most_items};
ghost use Rattle.ir_text_types.specs.Outcomes.{Returns, of_option};
ghost use Rattle.ir_text_names.specs.Alike.{IsAlike};
ghost use Rattle.ir_text_types.specs.Marks.{after};
ghost use Rattle.ir_text_tokens.specs.declared.token.Mark.TheVariants.{CloseRound, Comma};
ghost use Rattle.ir_text_names.specs.States.{after_in, state_of};
ghost use Rattle.ir_text_names.specs.ListSteps.{IsAfter, Steps};
ghost use Rattle.ir_text_names.specs.BlockReading.{colon_type_at, arg_at, args_at, some_args_at, label_args_at, head_at, region_head_at};

use crate::binding::bind;
use crate::bound::TypedValue;
use crate::lists::AfterItem;
use crate::pack::ValueGroup;
use crate::scope::Scope;
use crate::value_names::{name, one_too_many};
use ir_text_tokens::lexer::{self, skip};
use ir_text_tokens::refusal::TextRefusal;
use ir_text_tokens::token::{Mark, Token};
use ir_text_types::error::{ReadError, wrong};
use ir_text_types::steps::{after, expect, token};
use ir_text_types::types::ty;
use ir_tree::limits::MOST_ITEMS;
use ir_tree::value::Value;
use ir_types::context::Context;
use ir_types::ids::{OpId, TypeId};
use ir_types::limits::MOST_DEPTH;
use std::alloc::Global;

/// Returns the error of an argument: `Redefined` at its name if `error` is a refusal and the name is bound already,
/// otherwise `error`.
fn sooner<'a>(scope: &Scope<'a>, name: &'a [u8], bytes: &'a [u8], error: ReadError) -> ReadError
    ensures { IsAlike error result }
{
    match error {
        ReadError::Refused(_) if scope.names.find(name).is_some() => {
            ReadError::Refused(wrong(TextRefusal::Redefined, bytes))
        }
        _ => error,
    }
}

/// Returns why a token can't follow a type: `LeftOut` for a location, otherwise `Unexpected`.
pub fn location_refusal(bytes: &[u8]) -> TextRefusal {
    match lexer::token(bytes) {
        Ok((Token::Bare(word), _)) if word == b"loc".as_slice() => TextRefusal::LeftOut,
        _ => TextRefusal::Unexpected,
    }
}

/// Returns the rest of the text after the comma that follows an argument.
fn next_argument(bytes: &[u8]) -> Result<&[u8], ReadError>
    ensures { Returns (λ r. r.now) result (of_option (after Comma bytes.now)) }
{
    match after(bytes, Mark::Comma) {
        Some(rest) => Ok(rest),
        None => Err(ReadError::Refused(wrong(location_refusal(bytes), bytes))),
    }
}

/// Returns what follows an argument: the closing parenthesis or a comma.
fn after_argument(bytes: &[u8]) -> Result<AfterItem<'_>, ReadError>
    ensures { IsAfter CloseRound bytes.now result }
{
    if let Some(rest) = after(bytes, Mark::CloseRound) {
        return Ok(AfterItem::End(rest));
    }
    match next_argument(bytes) {
        Ok(rest) => Ok(AfterItem::More(rest)),
        Err(e) => Err(e),
    }
}

/// Parses a colon and a type.
#[tactic(auto, using(ir_types::proofs::Growth::grows_refl, ir_types::proofs::Growth::grows_trans), unfolding(crate::specs::BlockReading::colon_type_at))]
fn colon_type<'a>(
    alloc: Global,
    ctx: &mut Context,
    bytes: &'a [u8],
) -> Result<(TypeId, &'a [u8]), ReadError>
    ensures reads { Returns (λ x. (x.0, (x.1.now, ctx.new))) result (colon_type_at (bytes.now, ctx.old)) }
    ensures grows { IsExtendedBy ctx.old ctx.new }
{
    let opaque = ctx.is_opaque();
    match expect(bytes, Mark::Colon) {
        Ok(rest) => ty(alloc, ctx, rest, opaque, MOST_DEPTH),
        Err(e) => Err(e),
    }
}

/// Parses an argument after the arguments of `before`, and binds its name.
#[tactic(auto, using(ir_types::proofs::Growth::grows_refl, ir_types::proofs::Growth::grows_trans))]
fn argument<'a>(
    alloc: Global,
    scope: &mut Scope<'a>,
    ctx: &mut Context,
    id: u32,
    region: u32,
    before: &[TypeId],
    bytes: &'a [u8],
) -> Result<(TypeId, &'a [u8]), ReadError>
    requires { length before.now ≤ most_items }
    ensures reads { Returns (λ x. (x.0, state_of x.1.now scope.new ctx.new)) result (arg_at id region before.now (state_of bytes.now scope.old ctx.old)) }
    ensures grows { IsExtendedBy ctx.old ctx.new }
{
    let (name, rest) = match name(bytes) {
        Ok(found) => found,
        Err(e) => return Err(e),
    };
    let (ty, rest) = match colon_type(alloc, ctx, rest) {
        Ok(found) => found,
        Err(e) => return Err(sooner(scope, name, bytes, e)),
    };
    let value = Value::Arg(OpId::new(id), region, before.len() as u32);
    let pack = ValueGroup::one(TypedValue { value, ty });
    match bind(&mut scope.names, name, pack, skip(bytes).len()) {
        Ok(()) => Ok((ty, rest)),
        Err(e) => Err(e),
    }
}

/// Parses an argument, appends its type to `items`, and returns what follows it.
#[tactic(auto, using(ir_types::proofs::Growth::grows_refl, ir_types::proofs::Growth::grows_trans))]
fn push_argument<'a>(
    alloc: Global,
    scope: &mut Scope<'a>,
    ctx: &mut Context,
    id: u32,
    region: u32,
    items: &mut Vec<TypeId>,
    bytes: &'a [u8],
) -> Result<AfterItem<'a>, ReadError>
    requires { length items.old.items ≤ most_items }
    ensures steps { Steps after_in CloseRound (arg_at id region) items.old.items (state_of bytes.now scope.old ctx.old) result items.new.items (λ rest. state_of rest scope.new ctx.new) }
    ensures one { OnOk result (length items.new.items ≡ length items.old.items + 1) }
    ensures grows { IsExtendedBy ctx.old ctx.new }
{
    let (item, rest) = match argument(alloc, scope, ctx, id, region, items, bytes) {
        Ok(found) => found,
        Err(e) => return Err(e),
    };
    items.push(item)?;
    after_argument(rest)
}

/// Parses arguments up to the closing parenthesis, at most as many as a block may have, and appends their types to
/// `items`.
#[tactic(auto, using(ir_types::proofs::Growth::grows_refl, ir_types::proofs::Growth::grows_trans), unfolding(ir_text_types::specs::Lists::list_at, crate::specs::BlockReading::args_at))]
fn push_arguments<'a>(
    alloc: Global,
    scope: &mut Scope<'a>,
    ctx: &mut Context,
    id: u32,
    region: u32,
    items: &mut Vec<TypeId>,
    bytes: &'a [u8],
) -> Result<&'a [u8], ReadError>
    requires { items.old.items ≡ [] }
    ensures reads { Returns (λ r. (items.new.items, state_of r.now scope.new ctx.new)) result (args_at id region (state_of bytes.now scope.old ctx.old)) }
    ensures grows { IsExtendedBy ctx.old ctx.new }
{
    if let Some(rest) = after(bytes, Mark::CloseRound) {
        return Ok(rest);
    }
    let mut rest = bytes;
    'items: for _ in 0..MOST_ITEMS {
        match push_argument(alloc, scope, ctx, id, region, items, rest) {
            Ok(AfterItem::More(more)) => rest = more,
            Ok(AfterItem::End(end)) => return Ok(end),
            Err(e) => return Err(e),
        }
    }
    Err(ReadError::Refused(one_too_many(rest)))
}

/// Parses arguments up to the closing parenthesis, at most as many as a block may have.
#[tactic(auto, using(ir_types::proofs::Growth::grows_refl, ir_types::proofs::Growth::grows_trans))]
fn arguments<'a>(
    alloc: Global,
    scope: &mut Scope<'a>,
    ctx: &mut Context,
    id: u32,
    region: u32,
    bytes: &'a [u8],
) -> Result<(Vec<TypeId>, &'a [u8]), ReadError>
    ensures reads { Returns (λ x. (x.0.items, state_of x.1.now scope.new ctx.new)) result (args_at id region (state_of bytes.now scope.old ctx.old)) }
    ensures grows { IsExtendedBy ctx.old ctx.new }
{
    let mut items = Vec::new(alloc);
    match push_arguments(alloc, scope, ctx, id, region, &mut items, bytes) {
        Ok(rest) => Ok((items, rest)),
        Err(e) => Err(e),
    }
}

/// Parses arguments in parentheses, or none.
#[tactic(auto, using(ir_types::proofs::Growth::grows_refl, ir_types::proofs::Growth::grows_trans))]
fn some_arguments<'a>(
    alloc: Global,
    scope: &mut Scope<'a>,
    ctx: &mut Context,
    id: u32,
    region: u32,
    bytes: &'a [u8],
) -> Result<(Vec<TypeId>, &'a [u8]), ReadError>
    ensures reads { Returns (λ x. (x.0.items, state_of x.1.now scope.new ctx.new)) result (some_args_at id region (state_of bytes.now scope.old ctx.old)) }
    ensures grows { IsExtendedBy ctx.old ctx.new }
{
    if let Some(rest) = after(bytes, Mark::OpenRound) {
        return arguments(alloc, scope, ctx, id, region, rest);
    }
    Ok((Vec::new(alloc), bytes))
}

/// Parses the arguments after a label, and the colon.
#[tactic(auto, using(ir_types::proofs::Growth::grows_refl, ir_types::proofs::Growth::grows_trans), unfolding(crate::specs::BlockReading::label_args_at))]
fn label_arguments<'a>(
    alloc: Global,
    scope: &mut Scope<'a>,
    ctx: &mut Context,
    id: u32,
    region: u32,
    bytes: &'a [u8],
) -> Result<(Vec<TypeId>, &'a [u8]), ReadError>
    ensures reads { Returns (λ x. (x.0.items, state_of x.1.now scope.new ctx.new)) result (label_args_at id region (state_of bytes.now scope.old ctx.old)) }
    ensures grows { IsExtendedBy ctx.old ctx.new }
{
    match some_arguments(alloc, scope, ctx, id, region, bytes) {
        Ok((args, rest)) => match expect(rest, Mark::Colon) {
            Ok(rest) => Ok((args, rest)),
            Err(e) => Err(e),
        },
        Err(e) => Err(e),
    }
}

/// Parses a label with the arguments of its block, if a label comes first.
#[tactic(auto, using(ir_types::proofs::Growth::grows_refl, ir_types::proofs::Growth::grows_trans), unfolding(crate::specs::BlockReading::head_at))]
fn head<'a>(
    alloc: Global,
    scope: &mut Scope<'a>,
    ctx: &mut Context,
    id: u32,
    region: u32,
    bytes: &'a [u8],
) -> Result<(Option<Vec<TypeId>>, &'a [u8]), ReadError>
    ensures reads { Returns (λ x. (option_map (λ v. v.items) x.0, state_of x.1.now scope.new ctx.new)) result (head_at id region (state_of bytes.now scope.old ctx.old)) }
    ensures grows { IsExtendedBy ctx.old ctx.new }
{
    match token(bytes) {
        Ok((Token::Label(_), rest)) => {
            match label_arguments(alloc, scope, ctx, id, region, rest) {
                Ok((args, rest)) => Ok((Some(args), rest)),
                Err(e) => Err(e),
            }
        }
        Ok(_) => Ok((None, bytes)),
        Err(e) => Err(e),
    }
}

/// Parses the opening brace of a region and the label of its block. The region's names go out of scope at its end,
/// and in a region of an isolated operation no outer name is visible. Traits, "IsolatedFromAbove".
#[tactic(auto, using(ir_types::proofs::Growth::grows_refl, ir_types::proofs::Growth::grows_trans), unfolding(crate::specs::BlockReading::region_head_at))]
pub fn region_head<'a>(
    alloc: Global,
    scope: &mut Scope<'a>,
    ctx: &mut Context,
    id: u32,
    region: u32,
    isolated: bool,
    bytes: &'a [u8],
) -> Result<(Option<Vec<TypeId>>, &'a [u8]), ReadError>
    ensures reads { Returns (λ x. (option_map (λ v. v.items) x.0, state_of x.1.now scope.new ctx.new)) result (region_head_at id region isolated (state_of bytes.now scope.old ctx.old)) }
    ensures grows { IsExtendedBy ctx.old ctx.new }
{
    match expect(bytes, Mark::OpenCurly) {
        Ok(rest) => {
            scope.names.enter(isolated)?;
            head(alloc, scope, ctx, id, region, rest)
        }
        Err(e) => Err(e),
    }
}
