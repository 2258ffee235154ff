//! New operations, and their operands as values of the module.
ghost use Rattle.std.specs.Prelude.{◌≡◌, ◌+◌, IfOk, IfSome, map};
ghost use Rattle.ir_event.specs.types.WordNames.{word_bytes};
ghost use Rattle.patterns_base.specs.Words.{among, flagged};
ghost use Rattle.patterns.specs.New.{entries, new_op};
ghost use Rattle.user_patterns_apply.specs.Built.{operand_in};

use crate::rewrite_plan::Operand;
use ir_event::trees::tree::TreeOp;
use ir_event::trees::value::Value;
use ir_event::types::ids::{AttrId, NameId, OpId, TypeId};
use ir_event::types::word::Word;
use std::alloc::{AllocError, Global};

/// Returns whether operations named `word` have overflow flags.
#[tactic(auto, unfolding(patterns_laws::specs::Words::flagged))]
pub(crate) fn is_flagged(word: Word) -> bool
    ensures { result ≡ among flagged (word_bytes word) }
{
    matches!(word, Word::ArithAddi | Word::ArithSubi | Word::ArithMuli)
}

/// Returns the value of `operand`, given the next free id, or `None` if the id of its operation is too large.
fn value_of(next: u32, operand: &Operand) -> Option<Value>
    ensures { IfSome result (λ v. v ≡ operand_in next operand.now) }
{
    match operand {
        Operand::Existing(value) => Some(*value),
        Operand::New(number) => {
            let id = next as u128 + *number as u128;
            if id < 4_294_967_296 {
                Some(Value::Result(OpId::new(id as u32), 0))
            } else {
                None
            }
        }
    }
}

/// Returns the values of `operands`, given the next free id.
fn values_of(alloc: Global, next: u32, operands: &[Operand]) -> Result<Vec<Value>, AllocError>
    ensures { IfOk result (λ vs. vs.items ≡ map (operand_in next) operands.now) }
{
    let mut values = Vec::new(alloc);
    let mut rest = operands;
    'operands: while let [first, tail @ ..] = rest {
        let Some(value) = value_of(next, first) else {
            return Err(AllocError);
        };
        values.push(value)?;
        rest = tail;
    }
    Ok(values)
}

/// Returns a dictionary with `entry`, or an empty dictionary.
fn entries(
    alloc: Global,
    entry: &Option<(NameId, AttrId)>,
) -> Result<Vec<(NameId, AttrId)>, AllocError>
    ensures { IfOk result (λ es. es.items ≡ entries entry.now) }
{
    let mut entries = Vec::new(alloc);
    if let Some(entry) = entry {
        entries.push(*entry)?;
    }
    Ok(entries)
}

/// Returns a new operation with one result and at most one property, given the next free id.
pub(crate) fn new_op(
    alloc: Global,
    next: u32,
    name: NameId,
    operands: &[Operand],
    ty: TypeId,
    entry: &Option<(NameId, AttrId)>,
) -> Result<TreeOp, AllocError>
    ensures { IfOk result (λ o. o ≡ new_op name (map (operand_in next) operands.now) ty entry.now) }
{
    let operands = values_of(alloc, next, operands)?;
    let mut results = Vec::new(alloc);
    results.push(ty)?;
    let props = entries(alloc, entry)?;
    Ok(TreeOp {
        id: OpId::new(0),
        name,
        operands,
        results,
        props,
        attrs: Vec::new(alloc),
        regions: Vec::new(alloc),
    })
}

/// Returns the value that replaces the result of the root, given the next free id.
pub(crate) fn given(next: u32, operand: &Operand) -> Result<Value, AllocError>
    ensures { IfOk result (λ v. v ≡ operand_in next operand.now) }
{
    match value_of(next, operand) {
        Some(value) => Ok(value),
        None => Err(AllocError),
    }
}
