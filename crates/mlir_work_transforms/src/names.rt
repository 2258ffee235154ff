//! The lists of names of a command. The names are interned.
ghost use Rattle.std.specs.Prelude.{◌≡◌, ◌∷◌, [], ◌++◌, List, ℕ, Result as Named, Err, IfOk, IfErr, OnOk};
ghost use Rattle.std.specs.Option.{option_copied};
ghost use Rattle.ir_event.specs.types.Reasons.{IsRefusedFor, name_reason};
ghost use Rattle.ir_event.specs.types.Things.{ContextModel};
ghost use Rattle.ir_event.specs.types.declared.refusal.Refusal.{Refusal as Reason};
ghost use Rattle.mlir_work_script_base.specs.Items.{items_after};
ghost use Rattle.conversion.specs.States.{IsOutOfCapacity};
ghost use Rattle.mlir_work_transforms.specs.Interned.{AreNumbers, Interned};

use conversion::names::Names;
use conversion::rewriter::Bench;
use ir_event::analysis::Analysis;
use ir_event::types::ids::NameId;
use ir_event::types::refusal::Refusal;
use mlir_work_script_base::items::split_item;
use std::alloc::Global;

/// Returns the refusal of a conversion if a name can't be interned: `Full` if the context is full, or `Memory`.
fn wanting(refusal: Refusal) -> Refusal
    ensures { (bytes : List ℕ) (c : ContextModel) (named : Named ℕ Reason) → named ≡ Err refusal
        → IsRefusedFor (name_reason bytes c) named → IsOutOfCapacity c result }
{
    if refusal == Refusal::TooMany {
        return Refusal::Full;
    }
    Refusal::Memory
}

/// Interns a name in the context and returns its number.
fn intern<L: Analysis>(bench: &mut Bench<L>, bytes: &[u8]) -> Result<NameId, Refusal>
    ensures named { IfOk result (λ n. AreNumbers bench.new.transaction.ctx (n ∷ []) (bytes.now ∷ [])) }
    ensures want { IfErr result (IsOutOfCapacity bench.new.transaction.ctx) }
    ensures interned { Interned L.meaning bench.old bench.new }
{
    let named = bench.name(bytes);
    bench.is_wellformed();
    match named {
        Ok(name) => Ok(name),
        Err(refusal) => Err(wanting(refusal)),
    }
}

/// Interns a name and appends its number.
fn intern_onto<L: Analysis>(
    bench: &mut Bench<L>,
    numbers: &mut Names,
    bytes: &[u8],
) -> Result<(), Refusal>
    ensures named { OnOk result
        ((names : List (List ℕ)) → AreNumbers bench.old.transaction.ctx numbers.old names
        → AreNumbers bench.new.transaction.ctx numbers.new (names ++ bytes.now ∷ [])) }
    ensures want { IfErr result (IsOutOfCapacity bench.new.transaction.ctx) }
    ensures interned { Interned L.meaning bench.old bench.new }
{
    let name = match intern(bench, bytes) {
        Ok(name) => name,
        Err(refusal) => return Err(refusal),
    };
    match numbers.push(name) {
        Ok(()) => Ok(()),
        Err(_) => Err(Refusal::Memory),
    }
}

/// Interns the names of a list and returns their numbers. An absent list has none.
pub(crate) fn names_in<L: Analysis>(
    alloc: Global,
    bench: &mut Bench<L>,
    names: Option<&[u8]>,
) -> Result<Names, Refusal>
    ensures named { IfOk result (λ v. AreNumbers bench.new.transaction.ctx v (items_after (option_copied names.entry))) }
    ensures want { IfErr result (IsOutOfCapacity bench.new.transaction.ctx) }
    ensures interned { Interned L.meaning bench.old bench.new }
{
    let mut numbers = Names::new(alloc);
    let mut rest = names;
    'items: while let Some(items) = rest {
        let (item, trailing) = split_item(items);
        match intern_onto(bench, &mut numbers, item) {
            Ok(()) => {}
            Err(refusal) => return Err(refusal),
        }
        rest = trailing;
    }
    Ok(numbers)
}
