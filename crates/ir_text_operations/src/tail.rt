//! Parses an operation after its regions. Language Reference, "Operations".
ghost use Rattle.std.specs.Prelude.{◌≡◌, map, IfOk};
ghost use Rattle.ir_tree.specs.View.{region_view};
ghost use Rattle.ir_types.specs.Things.{IsExtendedBy};
ghost use Rattle.ir_text_types.specs.Outcomes.{Returns};
ghost use Rattle.ir_text_names.specs.States.{state_of};
ghost use Rattle.ir_text_operations.specs.PrecedingReading.{start_view};
ghost use Rattle.ir_text_operations.specs.Openings.{AreDictionaries, result_types_at, finished_at};
ghost use Rattle.ir_text_operations.specs.OpReading.{bound_types, op_of, tail_at};

use crate::dictionaries::{attributes_of, properties_of};
use crate::entries::attributes;
use crate::op_header::OpHeader;
use crate::opening::Opening;
use crate::operands::{agrees, values_of};
use crate::places::placed;
use crate::scalar_signature::scalar_signature;
use ir_text_attributes::dictionaries::Entry;
use ir_text_names::bound::TypedValue;
use ir_text_names::results::finish;
use ir_text_names::scope::Scope;
use ir_text_names::spares::Spares;
use ir_text_tokens::lexer::skip;
use ir_text_tokens::refusal::TextRefusal;
use ir_text_tokens::token::Mark;
use ir_text_types::error::{ReadError, wrong};
use ir_text_types::steps::expect;
use ir_text_types::types::function_type;
use ir_tree::tree::{TreeOp, TreeRegion};
use ir_types::context::Context;
use ir_types::ids::{NameId, OpId, TypeId};
use std::alloc::{AllocError, Global};

/// Parses a colon and a function type, and returns the types of the results. Refuses operands whose types differ from
/// the inputs with `TypeMismatch` at the colon.
#[tactic(auto, using(ir_types::proofs::Growth::grows_refl, ir_types::proofs::Growth::grows_trans, crate::proofs::ScalarTypes::are_result_types), unfolding(crate::specs::Openings::result_types_at))]
fn outputs<'a>(
    alloc: Global,
    ctx: &mut Context,
    operands: &[TypedValue],
    bytes: &'a [u8],
) -> Result<(Vec<TypeId>, &'a [u8]), ReadError>
    ensures reads { Returns (λ x. (x.0.items, (x.1.now, ctx.new))) result (result_types_at (bound_types operands.now) (bytes.now, ctx.old)) }
    ensures grows { IsExtendedBy ctx.old ctx.new }
{
    let rest = match expect(bytes, Mark::Colon) {
        Ok(rest) => rest,
        Err(e) => return Err(e),
    };
    match scalar_signature(alloc, ctx, operands, rest) {
        Ok(Some(found)) => return Ok(found),
        Ok(None) => {}
        Err(_) => return Err(ReadError::Memory),
    }
    let opaque = ctx.is_opaque();
    let ((inputs, results), rest) = match function_type(alloc, ctx, rest, opaque) {
        Ok(found) => found,
        Err(e) => return Err(e),
    };
    if !agrees(operands, &inputs) {
        return Err(ReadError::Refused(wrong(TextRefusal::TypeMismatch, bytes)));
    }
    Ok((results, rest))
}

/// Parses the function type, binds the names of the results, and returns their types.
#[tactic(auto, using(ir_types::proofs::Growth::grows_refl, ir_types::proofs::Growth::grows_trans))]
fn finished<'a>(
    alloc: Global,
    scope: &mut Scope<'a>,
    ctx: &mut Context,
    id: u32,
    preceding: &OpHeader<'a>,
    bytes: &'a [u8],
) -> Result<(Vec<TypeId>, &'a [u8]), ReadError>
    ensures reads { Returns (λ x. (x.0.items, state_of x.1.now scope.new ctx.new)) result (finished_at id (start_view preceding.now) (state_of bytes.now scope.old ctx.old)) }
    ensures grows { IsExtendedBy ctx.old ctx.new }
{
    let (results, rest) = match outputs(alloc, ctx, &preceding.operands, bytes) {
        Ok(found) => found,
        Err(e) => return Err(e),
    };
    let left = skip(bytes).len();
    match finish(
        alloc,
        &mut scope.names,
        id,
        &preceding.results,
        &results,
        left,
    ) {
        Ok(()) => Ok((results, rest)),
        Err(e) => Err(e),
    }
}

/// Returns the properties and the other attributes of an operation, each sorted. A single property is returned
/// without sorting.
fn dictionaries(
    alloc: Global,
    ctx: &Context,
    name: NameId,
    written: Vec<Entry>,
    others: &[Entry],
) -> Result<(Vec<Entry>, Vec<Entry>), AllocError>
    ensures { IfOk result (λ d. AreDictionaries ctx.now name written.items others.now d.0.items d.1.items) }
{
    if others.len() == 0 && written.len() <= 1 {
        return Ok((written, Vec::new(alloc)));
    }
    let props = match properties_of(alloc, ctx, name, &written, others) {
        Ok(props) => props,
        Err(e) => return Err(e),
    };
    match attributes_of(alloc, ctx, name, others) {
        Ok(attrs) => Ok((props, attrs)),
        Err(e) => Err(e),
    }
}

/// Builds an operation from its parts. Returns its header, too, whose lists aren't used again.
fn made<'a>(
    alloc: Global,
    ctx: &Context,
    id: u32,
    opening: Opening<'a>,
    others: &[Entry],
    results: Vec<TypeId>,
    regions: Vec<TreeRegion>,
) -> Result<(TreeOp, OpHeader<'a>), AllocError>
    ensures { IfOk result (λ x. x.0 ≡ op_of ctx.now id opening.entry.name opening.entry.preceding.operands.items opening.entry.written.items others.now results.items (map region_view regions.items)) }
{
    let Opening {
        preceding,
        name,
        written,
        ..
    } = opening;
    let (props, attrs) = match dictionaries(alloc, ctx, name, written, others) {
        Ok(found) => found,
        Err(e) => return Err(e),
    };
    let operands = match values_of(alloc, &preceding.operands) {
        Ok(operands) => operands,
        Err(e) => return Err(e),
    };
    let op = TreeOp {
        id: OpId::new(id),
        name,
        operands,
        results,
        props,
        attrs,
        regions,
    };
    Ok((op, preceding))
}

/// Keeps the lists of an operation's header for the next operation.
fn keep<'a>(spares: &mut Spares<'a>, header: OpHeader<'a>) {
    let OpHeader {
        results,
        name: _name,
        operands,
    } = header;
    spares.operands = operands;
    if let Some(names) = results {
        spares.names = names;
    }
}

/// Parses the attributes and the function type of an operation, and binds the names of its results.
#[tactic(auto, using(ir_types::proofs::Growth::grows_refl, ir_types::proofs::Growth::grows_trans))]
fn tail<'a>(
    alloc: Global,
    scope: &mut Scope<'a>,
    ctx: &mut Context,
    id: u32,
    opening: Opening<'a>,
    regions: Vec<TreeRegion>,
    bytes: &'a [u8],
) -> Result<(TreeOp, &'a [u8]), ReadError>
    ensures reads { Returns (λ x. (x.0, state_of x.1.now scope.new ctx.new)) result (tail_at id opening.entry.name (start_view opening.entry.preceding) opening.entry.written.items (map region_view regions.items) (state_of bytes.now scope.old ctx.old)) }
    ensures grows { IsExtendedBy ctx.old ctx.new }
{
    let (others, rest) = match attributes(alloc, ctx, opening.name, &opening.written, bytes) {
        Ok(found) => found,
        Err(e) => return Err(e),
    };
    let (results, rest) = match finished(alloc, scope, ctx, id, &opening.preceding, rest) {
        Ok(found) => found,
        Err(e) => return Err(e),
    };
    match made(alloc, ctx, id, opening, &others, results, regions) {
        Ok((op, header)) => {
            keep(&mut scope.spares, header);
            Ok((op, rest))
        }
        Err(_) => Err(ReadError::Memory),
    }
}

/// Parses the attributes and the function type of the operation that begins at `start`, and binds the names of its
/// results. Successors after the operands are refused with `Successors` at their place, and a name that is bound
/// already with `Redefined` at the name.
#[tactic(auto, using(ir_types::proofs::Growth::grows_refl, ir_types::proofs::Growth::grows_trans))]
pub(crate) fn closing<'a>(
    alloc: Global,
    scope: &mut Scope<'a>,
    ctx: &mut Context,
    id: u32,
    opening: Opening<'a>,
    regions: Vec<TreeRegion>,
    start: &'a [u8],
    bytes: &'a [u8],
) -> Result<(TreeOp, &'a [u8]), ReadError>
    ensures reads { Returns (λ x. (x.0, state_of x.1.now scope.new ctx.new)) result (tail_at id opening.entry.name (start_view opening.entry.preceding) opening.entry.written.items (map region_view regions.items) (state_of bytes.now scope.old ctx.old)) }
    ensures grows { IsExtendedBy ctx.old ctx.new }
{
    let trailing = opening.trailing;
    match tail(alloc, scope, ctx, id, opening, regions, bytes) {
        Ok(found) => Ok(found),
        Err(ReadError::Refused(fault)) => {
            let fault = placed(&scope.names, id, start, trailing, fault);
            Err(ReadError::Refused(fault))
        }
        Err(e) => Err(e),
    }
}
