//! Theorems about edits made one use, one operation or one header at a time, in whatever order the next one is found.
ghost use Rattle.std.specs.Prelude.{◌≡◌, ℕ, suc, eqb, Bool, true, false, List, [], ◌∷◌, ◌++◌, length, None, Some};
ghost use Rattle.ir_event.specs.types.declared.refusal.Refusal.{Refusal};
ghost use Rattle.ir_event.specs.types.declared.refusal.Refusal.TheVariants.{NotVisible};
ghost use Rattle.ir_event.specs.types.Reasons.{first_reason};
ghost use Rattle.ir_event.specs.types.Things.{ContextModel};
ghost use Rattle.ir_event.specs.trees.declared.place.Place.{Place as Point};
ghost use Rattle.ir_event.specs.trees.declared.value.Value.{Value as TreeValue};
ghost use Rattle.ir_event.specs.trees.Edits.{with_operand};
ghost use Rattle.ir_event.specs.trees.Ids.{IsNumberedFrom, find};
ghost use Rattle.ir_event.specs.trees.Places.{put, without};
ghost use Rattle.ir_event.specs.trees.Sites.{operands_visible};
ghost use Rattle.ir_event.specs.trees.Tree.{OpOf};
ghost use Rattle.ir_event.specs.trees.Uses.{same_value, uses_of};
ghost use Rattle.ir_event.specs.trees.WellFormed.{IsWellFormed, ModuleOf};
ghost use Rattle.ir_event.specs.tree_laws.Reasons.{put_reason, set_operand_reason, take_reason, unless};
ghost use Rattle.ir_event.specs.tree_laws.Values.{has_value};
ghost use Rattle.ir_event.specs.store.Using.{is_use};
ghost use Rattle.rewriter_machine.specs.Contents.{tests_in};
ghost use Rattle.rewriter_machine.specs.Edits.{Erase, Insert, Replace, TestsOf, edited_by, insert_reason, reason_by};
ghost use Rattle.rewriter_machine.specs.Erasing.{ids_in};
ghost use Rattle.rewriter_machine.specs.Inserting.{all_made, headers, insert_fault};

/// If a value can be replaced by another, any one of its uses can be set. Afterwards the value has one use fewer, the
/// module is well-formed, the value can still be replaced, and the replacement leads to the same module. Replacing a
/// value without uses changes nothing. Replacing a value of the module by itself is possible, and changes nothing.
pub fn replacing_by_uses<N, T, A>()
    ensures reason { (w : TestsOf N T) (old new : TreeValue) (x k : ℕ) (m : ModuleOf N T A) → IsWellFormed w.isolated m
        → reason_by w (Replace old new) m ≡ None → is_use x k (uses_of old m.tree) ≡ true
        → set_operand_reason w.isolated x k new m.tree ≡ None }
    ensures still { (w : TestsOf N T) (old new : TreeValue) (x k : ℕ) (m : ModuleOf N T A) → IsWellFormed w.isolated m
        → reason_by w (Replace old new) m ≡ None → same_value old new ≡ false → is_use x k (uses_of old m.tree) ≡ true
        → reason_by w (Replace old new) (record m { tree = with_operand x k new m.tree }) ≡ None }
    ensures same { (w : TestsOf N T) (old new : TreeValue) (x k : ℕ) (m : ModuleOf N T A) → IsWellFormed w.isolated m
        → is_use x k (uses_of old m.tree) ≡ true
        → edited_by w (Replace old new) (record m { tree = with_operand x k new m.tree })
        ≡ edited_by w (Replace old new) m }
    ensures fewer { (w : TestsOf N T) (old new : TreeValue) (x k : ℕ) (m : ModuleOf N T A) → IsWellFormed w.isolated m
        → same_value old new ≡ false → is_use x k (uses_of old m.tree) ≡ true
        → suc (length (uses_of old (with_operand x k new m.tree))) ≡ length (uses_of old m.tree) }
    ensures wellformed { (w : TestsOf N T) (old new : TreeValue) (x k : ℕ) (m : ModuleOf N T A) → IsWellFormed w.isolated m
        → reason_by w (Replace old new) m ≡ None → is_use x k (uses_of old m.tree) ≡ true
        → IsWellFormed w.isolated (record m { tree = with_operand x k new m.tree }) }
    ensures done { (w : TestsOf N T) (old new : TreeValue) (m : ModuleOf N T A) → uses_of old m.tree ≡ []
        → edited_by w (Replace old new) m ≡ m }
    ensures equal { (w : TestsOf N T) (old new : TreeValue) (m : ModuleOf N T A) → same_value old new ≡ true
        → edited_by w (Replace old new) m ≡ m }
    ensures equal_seen { (w : TestsOf N T) (old new : TreeValue) (m : ModuleOf N T A)
        → ((t : T) → w.same_type t t ≡ true) → IsWellFormed w.isolated m → same_value old new ≡ true
        → has_value old m.tree ≡ true
        → reason_by w (Replace old new) m ≡ None }
{}

/// Each type of a context equals itself.
pub fn types_are_themselves()
    ensures { (c : ContextModel) (t : ℕ) → (tests_in c).same_type t t ≡ true }
{}

/// If an operation can be erased, its last operation in pre-order can be taken out. Afterwards the module is
/// well-formed and the earlier operations remain. If the operation itself remains, it can still be erased, and that
/// leads to the same module. Otherwise it is erased.
pub fn erasing_by_last<N, T, A>()
    ensures reason { (w : TestsOf N T) (x y : ℕ) (ys : List ℕ) (m : ModuleOf N T A) → IsWellFormed w.isolated m
        → reason_by w (Erase x) m ≡ None → ids_in (find x m.tree) ≡ ys ++ y ∷ [] → take_reason y m.tree ≡ None }
    ensures still { (w : TestsOf N T) (x y : ℕ) (ys : List ℕ) (m : ModuleOf N T A) → IsWellFormed w.isolated m
        → reason_by w (Erase x) m ≡ None → ids_in (find x m.tree) ≡ ys ++ y ∷ [] → eqb y x ≡ false
        → reason_by w (Erase x) (record m { tree = without y m.tree }) ≡ None }
    ensures same { (w : TestsOf N T) (x y : ℕ) (ys : List ℕ) (m : ModuleOf N T A) → IsWellFormed w.isolated m
        → reason_by w (Erase x) m ≡ None → ids_in (find x m.tree) ≡ ys ++ y ∷ [] → eqb y x ≡ false
        → edited_by w (Erase x) (record m { tree = without y m.tree }) ≡ edited_by w (Erase x) m }
    ensures last { (w : TestsOf N T) (x y : ℕ) (m : ModuleOf N T A) → eqb y x ≡ true
        → edited_by w (Erase x) m ≡ record m { tree = without y m.tree } }
    ensures fewer { (w : TestsOf N T) (x y : ℕ) (ys : List ℕ) (m : ModuleOf N T A) → IsWellFormed w.isolated m
        → reason_by w (Erase x) m ≡ None → ids_in (find x m.tree) ≡ ys ++ y ∷ []
        → ids_in (find x (without y m.tree)) ≡ ys }
    ensures wellformed { (w : TestsOf N T) (x y : ℕ) (ys : List ℕ) (m : ModuleOf N T A) → IsWellFormed w.isolated m
        → reason_by w (Erase x) m ≡ None → ids_in (find x m.tree) ≡ ys ++ y ∷ []
        → IsWellFormed w.isolated (record m { tree = without y m.tree }) }
{}

/// Inserting an operation whose ids are the next free ones is refused by the first of two reasons: one against its
/// place or size, or an operand that isn't visible. If the first doesn't apply, inserting the headers in order leads to
/// the same module as inserting the operation. The insertion is accepted if that module is well-formed. An operand
/// isn't visible if one of the headers is refused.
pub fn inserts_are_tried<N, T, A>()
    ensures split { (isolated : N → Bool) (place : Point) (o : OpOf N T A) (free : ℕ) (t : OpOf N T A)
        → insert_reason isolated place o free t ≡ first_reason (insert_fault place o free t)
        (unless (operands_visible isolated (put place o t)) NotVisible None) }
    ensures failed { (w : TestsOf N T) (place : Point) (o : OpOf N T A) (us vs : List (Point × OpOf N T A))
        (u : Point × OpOf N T A) (r : Refusal) (m : ModuleOf N T A) → IsWellFormed w.isolated m → IsNumberedFrom m.next o
        → insert_fault place o m.next m.tree ≡ None → us ++ u ∷ vs ≡ headers place o
        → put_reason w.isolated u.0 u.1 (all_made w us m).next (all_made w us m).tree ≡ Some r
        → reason_by w (Insert place o) m ≡ Some NotVisible }
    ensures whole { (w : TestsOf N T) (place : Point) (o : OpOf N T A) (m : ModuleOf N T A) → IsWellFormed w.isolated m
        → IsNumberedFrom m.next o → insert_fault place o m.next m.tree ≡ None
        → all_made w (headers place o) m ≡ edited_by w (Insert place o) m }
    ensures through { (w : TestsOf N T) (place : Point) (o : OpOf N T A) (m : ModuleOf N T A) → IsWellFormed w.isolated m
        → IsNumberedFrom m.next o → insert_fault place o m.next m.tree ≡ None
        → IsWellFormed w.isolated (all_made w (headers place o) m) → reason_by w (Insert place o) m ≡ None }
{}
