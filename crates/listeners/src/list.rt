//! The private symbols that nothing reaches, without a listener.
ghost use Rattle.std.specs.Prelude.{◌≡◌, ◌++◌, ◌∷◌, [], if◌then◌else◌, OnOk, IfOk, IfErr, filter, is_some};
ghost use Rattle.ir_event.specs.types.declared.refusal.Refusal.TheVariants.{Memory};
ghost use Rattle.ir_event.specs.Modules.{module_in};
ghost use Rattle.listeners.specs.Marks.{left_at};
ghost use Rattle.listeners.specs.Unreached.{unreached_of};

use crate::marking;
use ir_event::types::ids::OpId;
use ir_event::types::refusal::Refusal;
use ir_event::world::World;
use listeners_symbols::table::tabulate;
use std::alloc::{AllocError, Global};
use std::collections::BTreeMap;

/// Appends an operation if it isn't reached.
fn push_left(
    left: &BTreeMap<OpId, Vec<OpId>>,
    op: OpId,
    out: &mut Vec<OpId>,
) -> Result<(), AllocError>
    ensures { OnOk result (out.new.items ≡ out.old.items ++ (if is_some (left_at left.now op) then op ∷ [] else [])) }
{
    if left.contains_key(&op) {
        out.push(op)?;
    }
    Ok(())
}

/// Returns the operations of a list that aren't reached.
fn those_left(
    alloc: Global,
    left: &BTreeMap<OpId, Vec<OpId>>,
    ops: &[OpId],
) -> Result<Vec<OpId>, AllocError>
    ensures { IfOk result (λ v. v.items ≡ filter (λ x. is_some (left_at left.now x)) ops.now) }
{
    let mut out = Vec::new(alloc);
    let mut rest = ops;
    while let [op, more @ ..] = rest {
        push_left(left, *op, &mut out)?;
        rest = more;
    }
    Ok(out)
}

/// Returns the private definitions of the module that nothing reaches, in pre-order.
fn listed(alloc: Global, world: &World) -> Result<Vec<OpId>, AllocError>
    ensures { IfOk result (λ v. v.items ≡ unreached_of (module_in world.now).tree) }
{
    world.ctx.sound();
    let roles = tabulate(alloc, world)?;
    roles.ordered();
    let left = marking::unreached(alloc, &roles)?;
    let Ok(ops) = world.store.operations() else {
        return Err(AllocError);
    };
    those_left(alloc, &left, &ops)
}

/// Returns the private definitions of the module that nothing reaches, in pre-order (Symbols and Symbol Tables, "Symbol
/// Visibility").
///
/// Refusals: `Memory`.
pub fn unreached(alloc: Global, world: &World) -> Result<Vec<OpId>, Refusal>
    ensures ok { IfOk result (λ v. v.items ≡ unreached_of (module_in world.now).tree) }
    ensures refused { IfErr result (λ refusal. refusal ≡ Memory) }
{
    match listed(alloc, world) {
        Ok(ops) => Ok(ops),
        Err(_) => Err(Refusal::Memory),
    }
}
