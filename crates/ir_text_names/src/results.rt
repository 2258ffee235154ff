//! Binds the names of results. Language Reference, "Operations".
ghost use Rattle.std.specs.Prelude.{◌≡◌, ◌+◌, ◌≤◌, ◌==◌, map, option_map, length, IfOk};
ghost use Rattle.ir_text_types.specs.Outcomes.{Returns};
ghost use Rattle.ir_tree.specs.Limits.{most_items};
ghost use Rattle.ir_text_names.specs.Packs.{counts, named_view};
ghost use Rattle.ir_text_names.specs.BlockReading.{results_of, bind_results, finish};

use crate::binding::bind;
use crate::bound::TypedValue;
use crate::pack::ValueGroup;
use crate::value_names::ResultName;
use ir_text_tokens::fault::Fault;
use ir_text_tokens::names::ScopedNames;
use ir_text_tokens::refusal::TextRefusal;
use ir_text_types::error::ReadError;
use ir_tree::value::Value;
use ir_types::ids::{OpId, TypeId};
use std::alloc::{AllocError, Global};

/// Returns the results of an operation from index `place` on, with their types.
#[tactic(auto, unfolding(crate::specs::BlockReading::results_of))]
fn many_results(
    alloc: Global,
    id: u32,
    place: u32,
    types: &[TypeId],
) -> Result<Vec<TypedValue>, AllocError>
    requires { place + length types.now ≤ most_items }
    ensures { IfOk result (λ v. v.items ≡ results_of id place types.now) }
{
    let mut values = Vec::with_capacity(alloc, types.len())?;
    let mut rest = types;
    let mut next = place;
    'types: while let [ty, tail @ ..] = rest {
        let value = Value::Result(OpId::new(id), next);
        values.push(TypedValue { value, ty: *ty })?;
        next += 1;
        rest = tail;
    }
    Ok(values)
}

/// Returns the pack of the results of an operation from index `place` on. A pack of one result isn't allocated.
#[tactic(auto, unfolding(crate::specs::BlockReading::results_of))]
fn results_of(
    alloc: Global,
    id: u32,
    place: u32,
    types: &[TypeId],
) -> Result<ValueGroup, AllocError>
    requires { place + length types.now ≤ most_items }
    ensures { IfOk result (λ p. p ≡ results_of id place types.now) }
{
    if let [ty] = types {
        let value = Value::Result(OpId::new(id), place);
        return Ok(ValueGroup::one(TypedValue { value, ty: *ty }));
    }
    let values = many_results(alloc, id, place, types)?;
    Ok(ValueGroup::many(values))
}

/// Binds the names of the results, each to as many results as its count. `left` is the number of bytes left at the
/// function type.
#[tactic(auto, unfolding(crate::specs::BlockReading::bind_results))]
fn bind_results<'a>(
    alloc: Global,
    names: &mut ScopedNames<'a, ValueGroup>,
    id: u32,
    results: &[ResultName<'a>],
    types: &[TypeId],
    left: usize,
) -> Result<(), ReadError>
    requires few { length types.now ≤ most_items }
    requires counted { counts (map named_view results.now) ≡ length types.now }
    ensures { Returns (λ _. names.new) result (bind_results id 0 (map named_view results.now) types.now names.old) }
{
    let mut rest = results;
    let mut others = types;
    let mut place = 0u32;
    'names: while let [item, more @ ..] = rest {
        let (mine, tail) = others.split_at(item.count as usize);
        let pack = results_of(alloc, id, place, mine)?;
        match bind(names, item.name, pack, left) {
            Ok(()) => {}
            Err(e) => return Err(e),
        }
        place += item.count;
        rest = more;
        others = tail;
    }
    Ok(())
}

/// Returns whether the counts of the names sum up to `wanted`.
fn is_total(results: &[ResultName<'_>], wanted: usize) -> bool
    ensures { result ≡ (counts (map named_view results.now) == wanted) }
{
    let mut rest = results;
    let mut left = wanted;
    'names: while let [item, tail @ ..] = rest {
        let count = item.count as usize;
        if count > left {
            return false;
        }
        left -= count;
        rest = tail;
    }
    left == 0
}

/// Binds the names of the results, if they are written. Refuses counts that don't sum up to the number of results
/// with `TypeMismatch` at the function type.
pub fn finish<'a>(
    alloc: Global,
    names: &mut ScopedNames<'a, ValueGroup>,
    id: u32,
    results: &Option<Vec<ResultName<'a>>>,
    types: &[TypeId],
    left: usize,
) -> Result<(), ReadError>
    requires { length types.now ≤ most_items }
    ensures { Returns (λ _. names.new) result (finish id (option_map (λ v. map named_view v.items) results.now) types.now names.old) }
{
    match results {
        None => Ok(()),
        Some(results) => {
            if !is_total(results, types.len()) {
                return Err(ReadError::Refused(Fault {
                    refusal: TextRefusal::TypeMismatch,
                    left,
                }));
            }
            bind_results(alloc, names, id, results, types, left)
        }
    }
}
