//! The theorem about refused sweeps, as the contract of a function with an empty body.
ghost use Rattle.std.specs.Prelude.{◌≡◌, Err};
ghost use Rattle.ir_event.specs.Modules.{Module};
ghost use Rattle.ir_event.specs.trees.Ids.{HasDistinctIds};
ghost use Rattle.ir_event.specs.types.declared.refusal.Refusal.TheVariants.{HasUses};
ghost use Rattle.conversion.specs.rewriter.Machine.{Fault};
ghost use Rattle.mlir_work_transforms.specs.Sweep.{sweep_of};

/// If all ids are distinct, a sweep is refused for one reason only: a result of a swept operation is used outside it.
pub fn sweeps_are_refused_for_uses()
    ensures { (m : Module) (fault : Fault) → HasDistinctIds m.tree → sweep_of m ≡ Err fault → fault.refusal ≡ HasUses }
{}
