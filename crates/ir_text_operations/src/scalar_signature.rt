//! Function types of scalar types that the context has. Most function types of operations are such types.
ghost use Rattle.std.specs.Prelude.{◌≡◌, ◌∷◌, [], Bool, IfSome, IfOk};
ghost use Rattle.ir_types.specs.Things.{ContextModel};
ghost use Rattle.ir_text_types.specs.Outcomes.{Read};
ghost use Rattle.ir_text_types.specs.TypeReading.{function_type_at};
ghost use Rattle.ir_text_operations.specs.OpReading.{bound_types};
ghost use Rattle.ir_text_operations.specs.ScalarSignatures.{AreInputsAt, AreMoreInputsAt, AreOutputsAt, HasInputs};

use ir_text_names::bound::TypedValue;
use ir_text_tokens::token::Mark;
use ir_text_types::scalar_types::{after_type, known};
use ir_text_types::steps::after;
use ir_tree::limits::MOST_ITEMS;
use ir_types::context::Context;
use ir_types::ids::TypeId;
use std::alloc::{AllocError, Global};

/// Returns the rest of the text after the inputs of a function type, if they have the operands' types. There is at
/// least one operand.
fn after_more_inputs<'a>(
    ctx: &Context,
    operands: &[TypedValue],
    bytes: &'a [u8],
) -> Option<&'a [u8]>
    ensures { IfSome result (λ r. AreMoreInputsAt ctx.now bytes.now (bound_types operands.now) r.now) }
{
    let [operand, tail @ ..] = operands else {
        return None;
    };
    let Some(rest) = after_type(ctx, operand.ty, bytes) else {
        return None;
    };
    if let Some(end) = after(rest, Mark::CloseRound) {
        return if tail.is_empty() { Some(end) } else { None };
    }
    let Some(rest) = after(rest, Mark::Comma) else {
        return None;
    };
    after_more_inputs(ctx, tail, rest)
}

/// Returns the rest of the text after the inputs of a function type, if they have the operands' types.
fn after_inputs<'a>(ctx: &Context, operands: &[TypedValue], bytes: &'a [u8]) -> Option<&'a [u8]>
    ensures { IfSome result (λ r. AreInputsAt ctx.now bytes.now (bound_types operands.now) r.now) }
{
    if let Some(end) = after(bytes, Mark::CloseRound) {
        return if operands.is_empty() { Some(end) } else { None };
    }
    if operands.len() > MOST_ITEMS {
        return None;
    }
    after_more_inputs(ctx, operands, bytes)
}

/// Returns the type of the only output of a function type, if it is among the first types of the context, and the rest
/// of the text.
fn output<'a>(ctx: &Context, bytes: &'a [u8]) -> Option<(TypeId, &'a [u8])>
    ensures { IfSome result (λ x. AreOutputsAt ctx.now bytes.now (x.0 ∷ []) x.1.now) }
{
    match after(bytes, Mark::OpenRound) {
        Some(_) => None,
        None => known(ctx, bytes),
    }
}

/// Returns the rest of the text after the outputs of a function type, if they are an empty list.
#[tactic(auto, using(crate::proofs::ScalarTypes::no_output))]
fn after_no_outputs(bytes: &[u8]) -> Option<&[u8]>
    ensures { IfSome result (λ r. (c : ContextModel) → AreOutputsAt c bytes.now [] r.now) }
{
    let Some(rest) = after(bytes, Mark::OpenRound) else {
        return None;
    };
    after(rest, Mark::CloseRound)
}

/// Returns the rest of the text after the arrow of a function type, if the text begins with a function type whose
/// inputs have the operands' types, and these are scalar types of the context.
fn after_arrow<'a>(ctx: &Context, operands: &[TypedValue], bytes: &'a [u8]) -> Option<&'a [u8]>
    ensures { IfSome result (λ r. HasInputs ctx.now bytes.now (bound_types operands.now) r.now) }
{
    let Some(rest) = after(bytes, Mark::OpenRound) else {
        return None;
    };
    let Some(rest) = after_inputs(ctx, operands, rest) else {
        return None;
    };
    after(rest, Mark::Arrow)
}

fn one(alloc: Global, item: TypeId) -> Result<Vec<TypeId>, AllocError>
    ensures { IfOk result (λ v. v.items ≡ item ∷ []) }
{
    let mut items = Vec::with_capacity(alloc, 1)?;
    items.push(item)?;
    Ok(items)
}

/// Returns the types of the results of an operation and the rest of the text, if the text begins with a function type
/// from the operands' types to at most one type, and all of them are scalar types of the context. No list of the inputs
/// is made.
pub(crate) fn scalar_signature<'a>(
    alloc: Global,
    ctx: &Context,
    operands: &[TypedValue],
    bytes: &'a [u8],
) -> Result<Option<(Vec<TypeId>, &'a [u8])>, AllocError>
    ensures { IfOk result (λ found. IfSome found (λ x. (o : Bool) → function_type_at o (bytes.now, ctx.now) ≡ Read ((bound_types operands.now, x.0.items), (x.1.now, ctx.now)))) }
{
    let Some(rest) = after_arrow(ctx, operands, bytes) else {
        return Ok(None);
    };
    if let Some(rest) = after_no_outputs(rest) {
        return Ok(Some((Vec::new(alloc), rest)));
    }
    let (ty, rest) = match output(ctx, rest) {
        Some(found) => found,
        None => return Ok(None),
    };
    let results = one(alloc, ty)?;
    Ok(Some((results, rest)))
}
