//! Theorems about journals. Each is a function that does nothing; its contract is the theorem.
ghost use Rattle.std.specs.Prelude.{◌≡◌, ◌≤◌, ℕ, List, [], ◌∷◌, ◌++◌, length, drop, Bool, true, Option, Some, None};
ghost use Rattle.ir_event.specs.types.Things.{ContextModel, IsExtendedBy};
ghost use Rattle.ir_event.specs.types.Sound.{IsSound};
ghost use Rattle.ir_event.specs.trees.declared.place.Part.{Part as Dictionary};
ghost use Rattle.ir_event.specs.trees.declared.place.Place.{Place as Point};
ghost use Rattle.ir_event.specs.trees.declared.value.Value.{Value as TreeValue};
ghost use Rattle.ir_event.specs.trees.Tree.{Op};
ghost use Rattle.ir_event.specs.trees.Meaning.{IsSoundIn, key_before_in};
ghost use Rattle.ir_event.specs.trees.WellFormed.{IsWellFormed};
ghost use Rattle.ir_event.specs.tree_laws.Reasons.{holds_none, set_entry_reason};
ghost use Rattle.ir_event.specs.store.Stored.{Stored};
ghost use Rattle.ir_event.specs.store.Calls.{Loaded, Releases, after_entry, after_operand, after_put, after_shift};
ghost use Rattle.ir_event.specs.store.Calls.{after_take};
ghost use Rattle.ir_event.specs.declared.event.Event.{Event as Edit};
ghost use Rattle.ir_event.specs.declared.world.World.{World as Whole};
ghost use Rattle.ir_event.specs.Modules.{Module, module_meaning};
ghost use Rattle.ir_event.specs.Step.{IsOperandStep, Steps, inverse_of};
ghost use Rattle.ir_event.specs.Edits.{IsEntryStep, IsPutStep, IsShiftStep, IsTakeStep};
ghost use Rattle.ir_event.specs.Undoing.{CameFrom, undone};
ghost use Rattle.rewriter_machine.specs.Journals.{IsForward, IsJournal, TracksRemovedKeys, IsStoreOf, HasNoStaleIds, Noted, before};
ghost use Rattle.rewriter_machine.specs.Journals.{inverses, undone_all};

/// The store of an IR state satisfies the invariant of a store in its context. Undoing an event, extending the context
/// and releasing held operations keep the invariant.
pub fn stores_are_of_contexts()
    ensures world { (w : Whole) → IsSound w.ctx → IsStoreOf w.ctx w.store }
    ensures undone { (c : ContextModel) (e : Edit) (p : Module) (s : Stored) → IsStoreOf c s → CameFrom c e p s
        → IsStoreOf c (undone c e s) }
    ensures grown { (c d : ContextModel) (s : Stored) → IsStoreOf c s → IsSound d → IsExtendedBy c d → IsStoreOf d s }
    ensures released { (c : ContextModel) (from : ℕ) (s u : Stored) → IsStoreOf c s → Releases from s u → IsStoreOf c u }
{}

/// An edit of a store appends its event to the journal. The modules before the older events are unchanged.
pub fn edits_are_noted()
    ensures put { (c : ContextModel) (place : Point) (o : Op) (e : Edit) (es : List Edit) (s u : Stored) → IsStoreOf c s
        → IsJournal c es s → IsSoundIn c o → u ≡ after_put place o s
        → IsPutStep place e c (module_meaning c s.module_of) (module_meaning c u.module_of) → Noted c es e s u }
    ensures take { (c : ContextModel) (x : ℕ) (e : Edit) (es : List Edit) (s u : Stored) → IsStoreOf c s → IsJournal c es s
        → u ≡ after_take x s
        → IsTakeStep x e c (module_meaning c s.module_of) (module_meaning c u.module_of) → Noted c es e s u }
    ensures operand { (c : ContextModel) (x k : ℕ) (v : TreeValue) (e : Edit) (es : List Edit) (s u : Stored) → IsStoreOf c s
        → IsJournal c es s → u ≡ after_operand x k v s
        → IsOperandStep x k v e c (module_meaning c s.module_of) (module_meaning c u.module_of) → Noted c es e s u }
    ensures entry { (c : ContextModel) (x : ℕ) (part : Dictionary) (k : ℕ) (a : Option ℕ) (e : Edit) (es : List Edit)
        (s u : Stored) → IsStoreOf c s → TracksRemovedKeys s → IsJournal c es s
        → set_entry_reason (key_before_in c) x part k a s.module_of.tree ≡ None
        → u ≡ after_entry (key_before_in c) x part k a s
        → IsEntryStep x part k a e c (module_meaning c s.module_of) (module_meaning c u.module_of) → Noted c es e s u }
    ensures shift { (c : ContextModel) (x : ℕ) (place : Point) (e : Edit) (es : List Edit) (s u : Stored) → IsStoreOf c s
        → IsJournal c es s → u ≡ after_shift x place s
        → IsShiftStep x place e c (module_meaning c s.module_of) (module_meaning c u.module_of) → Noted c es e s u }
{}

/// A journal in a context is a journal in an extended context, with the same modules before its events.
pub fn journals_stay_where_contexts_grow()
    ensures journal { (c d : ContextModel) (es : List Edit) (s : Stored) → IsStoreOf c s → IsSound d → IsExtendedBy c d
        → IsJournal c es s → IsJournal d es s }
    ensures modules { (c d : ContextModel) (es : List Edit) (s : Stored) → IsStoreOf c s → IsSound d → IsExtendedBy c d
        → IsJournal c es s → (k : ℕ) → before d (drop k es) s ≡ before c (drop k es) s }
{}

/// Releasing the operations held under ids that aren't given out yet keeps a journal a journal, with the same modules
/// before its events.
pub fn journals_outlive_release()
    ensures journal { (c : ContextModel) (from : ℕ) (es : List Edit) (s u : Stored) → IsStoreOf c s → IsJournal c es s
        → Releases from s u → s.module_of.next ≤ from → 1 ≤ from → IsJournal c es u }
    ensures modules { (c : ContextModel) (from : ℕ) (es : List Edit) (s u : Stored) → IsStoreOf c s → IsJournal c es s
        → Releases from s u → s.module_of.next ≤ from → 1 ≤ from → (k : ℕ)
        → before c (drop k es) u ≡ before c (drop k es) s }
{}

/// The last event of a journal led to the module. After it is undone, the events before it are a journal, with the same
/// modules before them.
pub fn newest_is_undone()
    ensures forward { (c : ContextModel) (es : List Edit) (e : Edit) (s : Stored) → IsJournal c (es ++ e ∷ []) s
        → IsForward e }
    ensures came { (c : ContextModel) (es : List Edit) (e : Edit) (s : Stored) → IsJournal c (es ++ e ∷ []) s
        → CameFrom c e (before c (e ∷ []) s) s }
    ensures journal { (c : ContextModel) (es : List Edit) (e : Edit) (s : Stored) → IsJournal c (es ++ e ∷ []) s
        → IsJournal c es (undone c e s) }
    ensures modules { (c : ContextModel) (es : List Edit) (e : Edit) (s : Stored)
        → before c (es ++ e ∷ []) s ≡ before c es (undone c e s) }
    ensures next { (c : ContextModel) (es : List Edit) (e : Edit) (s : Stored) → IsJournal c (es ++ e ∷ []) s
        → (undone c e s).module_of.next ≤ s.module_of.next }
{}

/// The newest events of a journal are a journal, and the older events are a journal of the store before the newer ones.
/// The events of a journal lead from the oldest module to the current one. Their inverses, newest first, lead back.
pub fn journals_are_steps()
    ensures newer { (c : ContextModel) (es : List Edit) (s : Stored) → IsJournal c es s → (k : ℕ)
        → IsJournal c (drop k es) s }
    ensures older { (c : ContextModel) (es fs : List Edit) (s : Stored) → IsJournal c (es ++ fs) s
        → IsJournal c es (undone_all c fs s) }
    ensures steps { (c : ContextModel) (es : List Edit) (s : Stored) → IsJournal c es s
        → Steps c es (before c es s) (module_meaning c s.module_of) }
    ensures back { (c : ContextModel) (es : List Edit) (s : Stored) → IsJournal c es s
        → Steps c (inverses es) (module_meaning c s.module_of) (before c es s) }
    ensures first { (es : List Edit) (e : Edit) → inverses (es ++ e ∷ []) ≡ inverse_of e ∷ inverses es }
{}

/// If nothing is held under ids that aren't given out yet, no edit changes that. Releasing what is held under them
/// establishes it.
pub fn stores_stay_tidy()
    ensures loaded { (t : Op) (free : ℕ) (s : Stored) → Loaded t free s → HasNoStaleIds s }
    ensures put { (place : Point) (o : Op) (s : Stored) → HasNoStaleIds s → HasNoStaleIds (after_put place o s) }
    ensures take { (isolated : ℕ → Bool) (x : ℕ) (s : Stored) → IsWellFormed isolated s.module_of → HasNoStaleIds s
        → HasNoStaleIds (after_take x s) }
    ensures operand { (x k : ℕ) (v : TreeValue) (s : Stored) → HasNoStaleIds s → HasNoStaleIds (after_operand x k v s) }
    ensures entry { (order : ℕ → ℕ → Bool) (x : ℕ) (part : Dictionary) (k : ℕ) (a : Option ℕ) (s : Stored) → HasNoStaleIds s
        → HasNoStaleIds (after_entry order x part k a s) }
    ensures shift { (x : ℕ) (place : Point) (s : Stored) → HasNoStaleIds s → HasNoStaleIds (after_shift x place s) }
    ensures released { (from : ℕ) (s u : Stored) → Releases from s u → from ≤ s.module_of.next → HasNoStaleIds u }
{}

/// Each operation of a loaded module has a list of removed keys. Edits, undone events and releases keep one for each
/// known operation.
pub fn stores_stay_slotted()
    ensures loaded { (t : Op) (free : ℕ) (s : Stored) → Loaded t free s → TracksRemovedKeys s }
    ensures put { (place : Point) (o : Op) (s : Stored) → holds_none (Some o) ≡ true → TracksRemovedKeys s
        → TracksRemovedKeys (after_put place o s) }
    ensures take { (x : ℕ) (s : Stored) → TracksRemovedKeys s → TracksRemovedKeys (after_take x s) }
    ensures operand { (x k : ℕ) (v : TreeValue) (s : Stored) → TracksRemovedKeys s → TracksRemovedKeys (after_operand x k v s) }
    ensures entry { (order : ℕ → ℕ → Bool) (x : ℕ) (part : Dictionary) (k : ℕ) (a : Option ℕ) (s : Stored) → TracksRemovedKeys s
        → TracksRemovedKeys (after_entry order x part k a s) }
    ensures shift { (x : ℕ) (place : Point) (s : Stored) → TracksRemovedKeys s → TracksRemovedKeys (after_shift x place s) }
    ensures undone { (c : ContextModel) (e : Edit) (p : Module) (s : Stored) → IsStoreOf c s → CameFrom c e p s → TracksRemovedKeys s
        → TracksRemovedKeys (undone c e s) }
    ensures released { (from : ℕ) (s u : Stored) → Releases from s u → TracksRemovedKeys s → TracksRemovedKeys u }
{}
