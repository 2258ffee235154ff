//! Theorems about edits of several events. Each is a function that does nothing; its contract is the theorem.
ghost use Rattle.std.specs.Prelude.{◌≡◌, ℕ, true, false, List, ◌∷◌, ◌++◌, length, None};
ghost use Rattle.ir_event.specs.types.Things.{ContextModel};
ghost use Rattle.ir_event.specs.trees.declared.place.Place.{Place as Point};
ghost use Rattle.ir_event.specs.trees.declared.value.Value.{Value as TreeValue};
ghost use Rattle.ir_event.specs.trees.Tree.{Op, OpOf, head, regions};
ghost use Rattle.ir_event.specs.trees.Ids.{HasDistinctIds, IsNumberedFrom, op_count};
ghost use Rattle.ir_event.specs.trees.Uses.{same_value, uses_of};
ghost use Rattle.ir_event.specs.trees.Meaning.{IsSoundIn, isolated_in};
ghost use Rattle.ir_event.specs.trees.WellFormed.{IsWellFormed, Module as Numbered, ModuleOf};
ghost use Rattle.ir_event.specs.tree_laws.Reasons.{hold_none, put_reason, set_operand_reason, take_reason};
ghost use Rattle.ir_event.specs.declared.event.Event.{Event as Change};
ghost use Rattle.ir_event.specs.Modules.{module_meaning};
ghost use Rattle.ir_event.specs.Step.{Steps};
ghost use Rattle.rewriter_machine.specs.Contents.{EditIsOf, NumberedEdit, edit_meaning, edited, tests_in};
ghost use Rattle.rewriter_machine.specs.Edits.{Erase, Insert, Replace, TestsOf, edited_by, reason_by};
ghost use Rattle.rewriter_machine.specs.Erasing.{all_taken, erase_order};
ghost use Rattle.rewriter_machine.specs.Events.{event_count};
ghost use Rattle.rewriter_machine.specs.Inserting.{all_made, headers};
ghost use Rattle.rewriter_machine.specs.Replacing.{all_set};

/// Replacing a value sets each of its uses to the other value, in order. After the uses `us`, with `vs` left and the
/// two values different, the old value has the uses `vs`. If the value can be replaced, the module is then well-formed
/// and the next use can be set.
pub fn replacing_is_setting<N, T, A>()
    ensures parts { (v : TreeValue) (us vs : List (ℕ × ℕ)) (t : OpOf N T A)
        → all_set v (us ++ vs) t ≡ all_set v vs (all_set v us t) }
    ensures whole { (w : TestsOf N T) (old new : TreeValue) (m : ModuleOf N T A) → HasDistinctIds m.tree
        → record m { tree = all_set new (uses_of old m.tree) m.tree } ≡ edited_by w (Replace old new) m }
    ensures left { (old new : TreeValue) (us vs : List (ℕ × ℕ)) (t : OpOf N T A) → HasDistinctIds t
        → same_value old new ≡ false → us ++ vs ≡ uses_of old t → uses_of old (all_set new us t) ≡ vs }
    ensures wellformed { (w : TestsOf N T) (old new : TreeValue) (us vs : List (ℕ × ℕ)) (m : ModuleOf N T A)
        → IsWellFormed w.isolated m → reason_by w (Replace old new) m ≡ None → us ++ vs ≡ uses_of old m.tree
        → IsWellFormed w.isolated (record m { tree = all_set new us m.tree }) }
    ensures reason { (w : TestsOf N T) (old new : TreeValue) (us vs : List (ℕ × ℕ)) (u : ℕ × ℕ) (m : ModuleOf N T A)
        → IsWellFormed w.isolated m → reason_by w (Replace old new) m ≡ None → us ++ u ∷ vs ≡ uses_of old m.tree
        → set_operand_reason w.isolated u.0 u.1 new (all_set new us m.tree) ≡ None }
{}

/// Erasing an operation that can be erased takes out the operation and those inside it, the last in pre-order first.
/// After the operations `ys`, with `zs` left, `zs` are the operations of the erased one that are still in the tree. The
/// module is well-formed, and the next operation can be taken out.
pub fn erasing_is_taking<N, T, A>()
    ensures parts { (ys zs : List ℕ) (t : OpOf N T A) → all_taken (ys ++ zs) t ≡ all_taken zs (all_taken ys t) }
    ensures whole { (w : TestsOf N T) (x : ℕ) (m : ModuleOf N T A) → IsWellFormed w.isolated m → reason_by w (Erase x) m
        ≡ None → record m { tree = all_taken (erase_order x m.tree) m.tree } ≡ edited_by w (Erase x) m }
    ensures left { (w : TestsOf N T) (x : ℕ) (ys zs : List ℕ) (m : ModuleOf N T A) → IsWellFormed w.isolated m
        → reason_by w (Erase x) m ≡ None → ys ++ zs ≡ erase_order x m.tree → erase_order x (all_taken ys m.tree) ≡ zs }
    ensures wellformed { (w : TestsOf N T) (x : ℕ) (ys zs : List ℕ) (m : ModuleOf N T A) → IsWellFormed w.isolated m
        → reason_by w (Erase x) m ≡ None → ys ++ zs ≡ erase_order x m.tree
        → IsWellFormed w.isolated (record m { tree = all_taken ys m.tree }) }
    ensures reason { (w : TestsOf N T) (x : ℕ) (ys zs : List ℕ) (y : ℕ) (m : ModuleOf N T A) → IsWellFormed w.isolated m
        → reason_by w (Erase x) m ≡ None → ys ++ y ∷ zs ≡ erase_order x m.tree
        → take_reason y (all_taken ys m.tree) ≡ None }
{}

/// Inserting an operation that can be inserted, and whose ids are the next free ones, inserts its header and those of
/// the operations inside it, in pre-order, each at the end of its block. After the headers `us`, with `vs` left, the
/// module is well-formed, the next header can be inserted, and its id is the next free one.
pub fn inserting_is_making<N, T, A>()
    ensures parts { (w : TestsOf N T) (us vs : List (Point × OpOf N T A)) (m : ModuleOf N T A)
        → all_made w (us ++ vs) m ≡ all_made w vs (all_made w us m) }
    ensures whole { (w : TestsOf N T) (place : Point) (o : OpOf N T A) (m : ModuleOf N T A) → IsWellFormed w.isolated m
        → IsNumberedFrom m.next o → reason_by w (Insert place o) m ≡ None
        → all_made w (headers place o) m ≡ edited_by w (Insert place o) m }
    ensures wellformed { (w : TestsOf N T) (place : Point) (o : OpOf N T A) (us vs : List (Point × OpOf N T A))
        (m : ModuleOf N T A) → IsWellFormed w.isolated m → IsNumberedFrom m.next o
        → reason_by w (Insert place o) m ≡ None → us ++ vs ≡ headers place o
        → IsWellFormed w.isolated (all_made w us m) }
    ensures reason { (w : TestsOf N T) (place : Point) (o : OpOf N T A) (us vs : List (Point × OpOf N T A))
        (u : Point × OpOf N T A) (m : ModuleOf N T A) → IsWellFormed w.isolated m → IsNumberedFrom m.next o
        → reason_by w (Insert place o) m ≡ None
        → us ++ u ∷ vs ≡ headers place o
        → put_reason w.isolated u.0 u.1 (all_made w us m).next (all_made w us m).tree ≡ None }
    ensures id { (w : TestsOf N T) (place : Point) (o : OpOf N T A) (us vs : List (Point × OpOf N T A))
        (u : Point × OpOf N T A) (m : ModuleOf N T A) → IsWellFormed w.isolated m → IsNumberedFrom m.next o
        → reason_by w (Insert place o) m ≡ None
        → us ++ u ∷ vs ≡ headers place o → (head u.1).id ≡ (all_made w us m).next }
{}

/// An operation has as many headers as operations. The headers have empty blocks, and are of a context if the operation
/// is.
pub fn headers_are_bare()
    ensures count { (place : Point) (o : Op) → length (headers place o) ≡ op_count o }
    ensures empty { (place : Point) (o : Op) (us vs : List (Point × Op)) (u : Point × Op) → us ++ u ∷ vs ≡ headers place o
        → hold_none (regions u.1) ≡ true }
    ensures sound { (c : ContextModel) (place : Point) (o : Op) (us vs : List (Point × Op)) (u : Point × Op) → IsSoundIn c o
        → us ++ u ∷ vs ≡ headers place o → IsSoundIn c u.1 }
{}

/// An accepted edit of a module of a context is a list of consecutive steps: one for each operation that is inserted or
/// erased, one for each use that is replaced, and one for any other edit.
pub fn edits_are_lists_of_steps()
    ensures { (c : ContextModel) (e : NumberedEdit) (m : Numbered) → IsWellFormed (isolated_in c) m → IsSoundIn c m.tree
        → EditIsOf c m e → reason_by (tests_in c) e m ≡ None
        → (what : List Change) × (length what ≡ event_count e m)
        × Steps c what (module_meaning c m) (edited (edit_meaning c e) (module_meaning c m)) }
{}
