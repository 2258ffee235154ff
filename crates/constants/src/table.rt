//! The table of known values.
ghost use Rattle.std.specs.Prelude.{◌≡◌, ℕ, Some, None, false, IfOk, map};
ghost use Rattle.std.specs.Bool.{OnTrue};
ghost use Rattle.dialects_int.specs.Folds.{known_of};
ghost use Rattle.constants.specs.Facts.{known, knowns};
ghost use Rattle.constants.specs.Walk.{with_fact};
ghost use Rattle.constants.specs.Tables.{known_in};

use crate::packed::PackedBits;
use ir_event::trees::value::Value;
use ir_event::types::bits::Bits;
use ir_event::types::ids::OpId;
use listeners_support::IdMap;
use smallvec::SmallVec;
use std::alloc::{AllocError, Global};

/// Returns the known value of an operation's result, if there is one.
pub(crate) fn fact(table: &IdMap<PackedBits>, op: OpId) -> Option<Bits>
    ensures { known_of result ≡ known_in table.now op }
{
    match table.get(op.number()) {
        None => None,
        Some(packed) => Some(packed.bits()),
    }
}

/// Forgets the known value of an operation's result. Needs no memory.
pub(crate) fn drop_fact(table: &mut IdMap<PackedBits>, op: OpId)
    ensures { (y : ℕ) → known_in table.new y ≡ with_fact op None (known_in table.old) y }
{
    table.remove(op.number());
}

/// Writes the known value of an operation's result. Returns `false` if memory ran out.
pub(crate) fn note(table: &mut IdMap<PackedBits>, op: OpId, bits: &Bits) -> bool
    ensures noted { OnTrue result
        ((y : ℕ) → known_in table.new y ≡ with_fact op (known_of (Some bits.now)) (known_in table.old) y) }
    ensures refused { result ≡ false → (y : ℕ) → known_in table.new y ≡ known_in table.old y }
{
    match table.insert(op.number(), PackedBits::new(bits)) {
        Ok(_) => true,
        Err(_) => false,
    }
}

/// Returns the known value of a value, if there is one.
pub(crate) fn value_fact(table: &IdMap<PackedBits>, value: &Value) -> Option<Bits>
    ensures { known_of result ≡ known (known_in table.now) value.now }
{
    match *value {
        Value::Result(op, place) if place == 0 => fact(table, op),
        Value::Result(_, _) => None,
        Value::Arg(_, _, _) => None,
    }
}

/// Returns the known value of each of these values, if it has one. Up to two values need no memory.
pub(crate) fn value_facts(
    alloc: Global,
    table: &IdMap<PackedBits>,
    values: &[Value],
) -> Result<SmallVec<Option<Bits>, 2>, AllocError>
    ensures { IfOk result (λ r. map known_of r.items ≡ knowns (known_in table.now) values.now) }
{
    let mut facts = SmallVec::new(alloc);
    for value in values {
        facts.push(value_fact(table, value))?;
    }
    Ok(facts)
}
