//! One operation as a whole text, for use in an outer module. Language Reference, "Operations".
ghost use Rattle.std.specs.Prelude.{◌≡◌, ℕ, IfOk, IfSome, Err};
ghost use Rattle.ir_types.specs.Things.{IsType, IsExtendedBy};
ghost use Rattle.ir_tree.specs.declared.value.Value.{Value as TreeValue};
ghost use Rattle.ir_tree.specs.Meaning.{IsSoundIn};
ghost use Rattle.ir_text_tokens.specs.declared.fault.Fault.{Fault as TextFault};
ghost use Rattle.ir_text_operations.specs.Free.{free_bound, free_term};
ghost use Rattle.ir_text_types.specs.Laws.{IsFull};
ghost use Rattle.ir_text_types.specs.Outcomes.{Returns};
ghost use Rattle.ir_text_names.specs.States.{fresh};
ghost use Rattle.ir_text_operations.specs.SingleReading.{single_op_at};
ghost use Rattle.ir_text_operations.specs.Spelling.{last_from, SpellsOp};
ghost use Rattle.ir_text_operations.specs.Claims.{IsOnly, IsNone, IsLoneTree};

use crate::limits::{MOST_LEVELS, MOST_OPS};
use crate::module::fault_of_label;
use crate::ops::op;
use crate::outer_names::OuterScope;
use ir_text_names::blocks::location_refusal;
use ir_text_names::scope::Scope;
use ir_text_names::spares::Spares;
use ir_text_tokens::fault::Fault;
use ir_text_tokens::names::ScopedNames;
use ir_text_tokens::refusal::TextRefusal;
use ir_text_tokens::token::Mark;
use ir_text_types::error::{ReadError, within_limits, wrong};
use ir_text_types::full::check_full;
use ir_text_types::steps::after;
use ir_tree::count::depth;
use ir_tree::limits::{MOST_AROUND, counts_are_within};
use ir_tree::numbered::numbered;
use ir_tree::outer::Outer;
use ir_tree::sound::sound;
use ir_tree::tree::TreeOp;
use ir_types::context::Context;
use std::alloc::Global;
use thiserror::Error;

/// No operation has this id or a greater one.
const MOST_ID: u32 = u32::MAX;

/// Why the text of an operation isn't parsed.
#[derive(Clone, Copy, Debug, PartialEq, Eq, Error)]
pub enum OpError {
    /// An error of the text, the context or memory.
    #[error(transparent)]
    Text(ReadError),
    /// The ids of the outer module are exhausted.
    #[error("no operation id is left")]
    IdsExhausted,
}

/// Returns the first id that no operation may have, given the next id.
fn last_from(next: u32) -> u32
    ensures { result ≡ last_from next }
{
    if next <= MOST_ID - MOST_OPS {
        next + MOST_OPS
    } else {
        MOST_ID
    }
}

/// Parses an operation that is followed by the end of the text. Its ids are `next`, `next + 1`, .., each less than
/// `last`.
#[tactic(auto, using(ir_types::proofs::Growth::grows_refl, ir_types::proofs::Growth::grows_trans), unfolding(crate::specs::SingleReading::single_op_at))]
fn single<O: Outer>(
    alloc: Global,
    ctx: &mut Context,
    bytes: &[u8],
    outer: &O,
    next: u32,
    last: u32,
) -> Result<TreeOp, ReadError>
    ensures reads { Returns (λ t. (t, ctx.new)) result (single_op_at (free_bound (O.types outer.now)) last (fresh next bytes.now ctx.old)) }
    ensures grows { IsExtendedBy ctx.old ctx.new }
{
    let mut scope = Scope {
        names: ScopedNames::new(alloc, ctx.hasher()),
        next,
        spares: Spares::new(alloc),
    };
    let around = OuterScope { outer, last };
    match op(alloc, &mut scope, ctx, &around, bytes, MOST_LEVELS) {
        Ok((tree, rest)) => match after(rest, Mark::End) {
            Some(_) => Ok(tree),
            None => Err(ReadError::Refused(wrong(location_refusal(rest), rest))),
        },
        Err(e) => Err(e),
    }
}

/// Returns the fault of a text that was refused with ids from `next` on. If the ids may have run out, the text is
/// parsed again with ids from 0 on, so any other fault takes precedence over `IdsExhausted`.
#[tactic(auto, using(ir_types::proofs::Growth::grows_refl, ir_types::proofs::Growth::grows_trans))]
fn before_ids<O: Outer>(
    alloc: Global,
    ctx: &mut Context,
    bytes: &[u8],
    outer: &O,
    next: u32,
    fault: Fault,
) -> Result<Fault, OpError>
    ensures { IsExtendedBy ctx.old ctx.new }
{
    if next <= MOST_ID - MOST_OPS || fault.refusal != TextRefusal::TooMany {
        return Ok(fault);
    }
    match single(alloc, ctx, bytes, outer, 0, MOST_OPS) {
        Ok(_) => Err(OpError::IdsExhausted),
        Err(ReadError::Refused(fault)) => Ok(fault),
        Err(e) => Err(OpError::Text(e)),
    }
}

/// Checks an operation that was parsed: it is within all limits, its ids are `next`, `next + 1`, .., and its
/// dictionaries are sorted.
fn looked_at(ctx: &Context, tree: &TreeOp, next: u32) -> Result<(), ReadError>
    ensures ok { IfOk result (λ _. IsLoneTree next ctx.now tree.now) }
    ensures refused { (f : TextFault) → result ≡ Err (ReadError.Refused f) → IsLoneTree next ctx.now tree.now → ⊥ }
{
    if depth(tree) > MOST_AROUND {
        return Err(ReadError::Refused(Fault {
            refusal: TextRefusal::TooDeep,
            left: 0,
        }));
    }
    if !counts_are_within(tree) {
        return Err(ReadError::Refused(Fault {
            refusal: TextRefusal::TooMany,
            left: 0,
        }));
    }
    if !numbered(tree, next) || !sound(ctx, tree) {
        return Err(ReadError::Refused(Fault {
            refusal: TextRefusal::Unexpected,
            left: 0,
        }));
    }
    Ok(())
}

/// Parses the operation of a text. The error may be `Full` even if the context isn't full.
#[tactic(auto, using(ir_types::proofs::Growth::grows_refl, ir_types::proofs::Growth::grows_trans))]
fn op_of_text<O: Outer>(
    alloc: Global,
    ctx: &mut Context,
    bytes: &[u8],
    outer: &O,
) -> Result<TreeOp, OpError>
    requires { (v : TreeValue) → IfSome (O.types outer.now v) (λ ty. IsType ctx.old ty) }
    ensures read { IfOk result (λ t. IsOnly (SpellsOp ctx.old.opaque (free_term (O.types outer.now) ctx.old) (O.next outer.now) bytes.now) ctx.new t) }
    ensures sound { IfOk result (λ t. IsSoundIn ctx.new t) }
    ensures refused { (f : TextFault) → result ≡ Err (OpError.Text (ReadError.Refused f)) → IsNone (SpellsOp ctx.old.opaque (free_term (O.types outer.now) ctx.old) (O.next outer.now) bytes.now) }
    ensures exhausted { result ≡ Err OpError.IdsExhausted → IsNone (SpellsOp ctx.old.opaque (free_term (O.types outer.now) ctx.old) (O.next outer.now) bytes.now) }
    ensures grows { IsExtendedBy ctx.old ctx.new }
{
    match within_limits(bytes) {
        Ok(()) => {}
        Err(error) => return Err(OpError::Text(error)),
    }
    ctx.sound();
    let next = outer.next_id();
    let last = last_from(next);
    let tree = match single(alloc, ctx, bytes, outer, next, last) {
        Ok(tree) => tree,
        Err(ReadError::Refused(fault)) => {
            return match before_ids(alloc, ctx, bytes, outer, next, fault) {
                Ok(fault) => {
                    let fault = fault_of_label(bytes, fault);
                    Err(OpError::Text(ReadError::Refused(fault)))
                }
                Err(e) => Err(e),
            };
        }
        Err(e) => return Err(OpError::Text(e)),
    };
    match looked_at(ctx, &tree, next) {
        Ok(()) => Ok(tree),
        Err(e) => Err(OpError::Text(e)),
    }
}

/// Parses the operation of a text, which has nothing after the operation. The ids are in pre-order from the outer
/// module's next id on, each less than 4,294,967,295. Names, types and attributes are interned; the context only
/// grows, on success and on errors. An unbound name of the form `%v12.0` or `%a12.0.1` denotes that value of the
/// outer module, also inside an isolated operation.
///
/// Refusals: those of `read` except those of a root, and `IdsExhausted` if there is no other. `Full` is returned if
/// the context fills up.
pub fn read_op<O: Outer>(
    alloc: Global,
    ctx: &mut Context,
    bytes: &[u8],
    outer: &O,
) -> Result<TreeOp, OpError>
    requires { (v : TreeValue) → IfSome (O.types outer.now v) (λ ty. IsType ctx.old ty) }
    ensures read { IfOk result (λ t. IsOnly (SpellsOp ctx.old.opaque (free_term (O.types outer.now) ctx.old) (O.next outer.now) bytes.now) ctx.new t) }
    ensures sound { IfOk result (λ t. IsSoundIn ctx.new t) }
    ensures refused { (f : TextFault) → result ≡ Err (OpError.Text (ReadError.Refused f)) → IsNone (SpellsOp ctx.old.opaque (free_term (O.types outer.now) ctx.old) (O.next outer.now) bytes.now) }
    ensures exhausted { result ≡ Err OpError.IdsExhausted → IsNone (SpellsOp ctx.old.opaque (free_term (O.types outer.now) ctx.old) (O.next outer.now) bytes.now) }
    ensures grows { IsExtendedBy ctx.old ctx.new }
    ensures full { (left : ℕ) → result ≡ Err (OpError.Text (ReadError.Full left)) → IsFull ctx.new }
{
    match op_of_text(alloc, ctx, bytes, outer) {
        Ok(tree) => Ok(tree),
        Err(OpError::Text(e)) => Err(OpError::Text(check_full(ctx, e))),
        Err(OpError::IdsExhausted) => Err(OpError::IdsExhausted),
    }
}
