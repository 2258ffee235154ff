//! Theorems about trees. Each is a function that does nothing; its contract is the theorem.
ghost use Rattle.std.specs.Prelude.{◌≡◌, ◌+◌, ◌↔◌, ℕ, Bool, true, false, [], length, Option, Some, None, option_map, eqb};
ghost use Rattle.ir_types.specs.Things.{ContextModel, IsExtendedBy, IsName, IsAttr};
ghost use Rattle.ir_types.specs.Terms.{name_term, attr_term};
ghost use Rattle.ir_types.specs.Sound.{Holds, IsSound};
ghost use Rattle.ir_types.specs.Words.{is_isolated};
ghost use Rattle.ir_tree.specs.declared.place.Part.{Part as Dictionary};
ghost use Rattle.ir_tree.specs.declared.place.Place.{Place as Point};
ghost use Rattle.ir_tree.specs.declared.value.Value.{Value as TreeValue};
ghost use Rattle.ir_tree.specs.Tree.{Op, head};
ghost use Rattle.ir_tree.specs.Ids.{HasDistinctIds, find, has_id, ids};
ghost use Rattle.ir_tree.specs.Uses.{same_value, uses_of};
ghost use Rattle.ir_tree.specs.Sites.{operands_visible, visible};
ghost use Rattle.ir_tree.specs.Limits.{counts_fit, depth};
ghost use Rattle.ir_tree.specs.WellFormed.{IsValidTree, fault};
ghost use Rattle.ir_tree.specs.Edits.{with_entry, with_operand, with_value_replaced};
ghost use Rattle.ir_tree.specs.Places.{place_of, put, shifted, without};
ghost use Rattle.ir_tree.specs.Meaning.{IsSoundIn, isolated_in, key_before, key_before_in, meaning};

/// A tree that is sound in a context is sound in an extended context, and has the same meaning.
pub fn meaning_stays()
    ensures sound { (c d : ContextModel) (t : Op) → IsExtendedBy c d → IsSoundIn c t → IsSoundIn d t }
    ensures meaning { (c d : ContextModel) (t : Op) → Holds c → IsExtendedBy c d → IsSoundIn c t → meaning d t ≡ meaning c t }
{}

/// Two trees that are sound in a context and have the same meaning are equal.
pub fn meanings_differ()
    ensures { (c : ContextModel) (t u : Op) → IsSound c → IsSoundIn c t → IsSoundIn c u → meaning c t ≡ meaning c u → t ≡ u }
{}

/// The meaning of a tree has the tree's ids, operations, places, uses and scopes, and passes the same limits.
pub fn meaning_has_the_shape()
    ensures ids { (c : ContextModel) (t : Op) → ids (meaning c t) ≡ ids t }
    ensures find { (c : ContextModel) (x : ℕ) (t : Op) → find x (meaning c t) ≡ option_map (meaning c) (find x t) }
    ensures place { (c : ContextModel) (x : ℕ) (t : Op) → place_of x (meaning c t) ≡ place_of x t }
    ensures uses { (c : ContextModel) (v : TreeValue) (t : Op) → uses_of v (meaning c t) ≡ uses_of v t }
    ensures dominance { (c : ContextModel) (x : ℕ) (v : TreeValue) (t : Op) → visible is_isolated (meaning c t) x v ≡ visible (isolated_in c) t x v }
    ensures operands { (c : ContextModel) (t : Op) → operands_visible is_isolated (meaning c t) ≡ operands_visible (isolated_in c) t }
    ensures depth { (c : ContextModel) (t : Op) → depth (meaning c t) ≡ depth t }
    ensures counts { (c : ContextModel) (t : Op) → counts_fit (meaning c t) ≡ counts_fit t }
{}

/// The meaning of an edited tree is the edit of the tree's meaning.
pub fn meaning_of_edits()
    ensures operand { (c : ContextModel) (x k : ℕ) (v : TreeValue) (t : Op) → with_operand x k v (meaning c t) ≡ meaning c (with_operand x k v t) }
    ensures replaced { (c : ContextModel) (v w : TreeValue) (t : Op) → with_value_replaced v w (meaning c t) ≡ meaning c (with_value_replaced v w t) }
    ensures entry { (c : ContextModel) (x : ℕ) (part : Dictionary) (k : ℕ) (a : Option ℕ) (t : Op)
        → with_entry key_before x part (name_term c k) (option_map (attr_term c) a) (meaning c t) ≡ meaning c (with_entry (key_before_in c) x part k a t) }
    ensures put { (c : ContextModel) (place : Point) (o t : Op) → put place (meaning c o) (meaning c t) ≡ meaning c (put place o t) }
    ensures without { (c : ContextModel) (x : ℕ) (t : Op) → without x (meaning c t) ≡ meaning c (without x t) }
    ensures shifted { (c : ContextModel) (x : ℕ) (place : Point) (t : Op) → shifted x place (meaning c t) ≡ meaning c (shifted x place t) }
{}

/// A tree is well-formed exactly if it has no fault.
pub fn wellformed_has_no_fault()
    ensures { (isolated : ℕ → Bool) (t : Op) → (fault isolated t ≡ None) ↔ IsValidTree isolated t }
{}

/// Setting an operand keeps all ids, places, depths and scopes.
pub fn operand_keeps()
    ensures ids { (x k : ℕ) (v : TreeValue) (t : Op) → ids (with_operand x k v t) ≡ ids t }
    ensures place { (x k : ℕ) (v : TreeValue) (y : ℕ) (t : Op) → place_of y (with_operand x k v t) ≡ place_of y t }
    ensures depth { (x k : ℕ) (v : TreeValue) (t : Op) → depth (with_operand x k v t) ≡ depth t }
    ensures dominance { (isolated : ℕ → Bool) (x k : ℕ) (w : TreeValue) (y : ℕ) (v : TreeValue) (t : Op) → visible isolated (with_operand x k w t) y v ≡ visible isolated t y v }
{}

/// Setting or removing an entry keeps all ids, places, depths, uses and scopes.
pub fn entry_keeps()
    ensures ids { (c : ContextModel) (x : ℕ) (part : Dictionary) (k : ℕ) (a : Option ℕ) (t : Op) → ids (with_entry (key_before_in c) x part k a t) ≡ ids t }
    ensures place { (c : ContextModel) (x : ℕ) (part : Dictionary) (k : ℕ) (a : Option ℕ) (y : ℕ) (t : Op) → place_of y (with_entry (key_before_in c) x part k a t) ≡ place_of y t }
    ensures depth { (c : ContextModel) (x : ℕ) (part : Dictionary) (k : ℕ) (a : Option ℕ) (t : Op) → depth (with_entry (key_before_in c) x part k a t) ≡ depth t }
    ensures uses { (c : ContextModel) (x : ℕ) (part : Dictionary) (k : ℕ) (a : Option ℕ) (v : TreeValue) (t : Op) → uses_of v (with_entry (key_before_in c) x part k a t) ≡ uses_of v t }
    ensures dominance { (c : ContextModel) (isolated : ℕ → Bool) (x : ℕ) (part : Dictionary) (k : ℕ) (a : Option ℕ) (y : ℕ) (v : TreeValue) (t : Op)
        → visible isolated (with_entry (key_before_in c) x part k a t) y v ≡ visible isolated t y v }
    ensures operands { (c : ContextModel) (isolated : ℕ → Bool) (x : ℕ) (part : Dictionary) (k : ℕ) (a : Option ℕ) (t : Op)
        → operands_visible isolated (with_entry (key_before_in c) x part k a t) ≡ operands_visible isolated t }
{}

/// Replacing a value keeps all ids, places, depths and scopes. The old value has no uses left, the new one has its uses
/// and those of the old one, and other values keep theirs.
pub fn replacing_keeps()
    ensures ids { (v w : TreeValue) (t : Op) → ids (with_value_replaced v w t) ≡ ids t }
    ensures place { (v w : TreeValue) (y : ℕ) (t : Op) → place_of y (with_value_replaced v w t) ≡ place_of y t }
    ensures depth { (v w : TreeValue) (t : Op) → depth (with_value_replaced v w t) ≡ depth t }
    ensures dominance { (isolated : ℕ → Bool) (u w : TreeValue) (y : ℕ) (v : TreeValue) (t : Op) → visible isolated (with_value_replaced u w t) y v ≡ visible isolated t y v }
    ensures old { (v w : TreeValue) (t : Op) → same_value v w ≡ false → uses_of v (with_value_replaced v w t) ≡ [] }
    ensures new { (v w : TreeValue) (t : Op) → same_value v w ≡ false → length (uses_of w (with_value_replaced v w t)) ≡ length (uses_of v t) + length (uses_of w t) }
    ensures others { (v w u : TreeValue) (t : Op) → same_value u v ≡ false → same_value u w ≡ false → uses_of u (with_value_replaced v w t) ≡ uses_of u t }
{}

/// Inserting an operation and taking it out restores the tree. So does taking an operation out and inserting it at its
/// old place.
pub fn put_and_take()
    ensures put_first { (place : Point) (o t : Op) → has_id (head o).id t ≡ false → without (head o).id (put place o t) ≡ t }
    ensures take_first { (x : ℕ) (place : Point) (o t : Op) → HasDistinctIds t → place_of x t ≡ Some place → find x t ≡ Some o → put place o (without x t) ≡ t }
    ensures no_such_place { (place : Point) (o t : Op) → has_id place.parent t ≡ false → put place o t ≡ t }
    ensures no_such_op { (x : ℕ) (t : Op) → has_id x t ≡ false → without x t ≡ t }
{}

/// Taking an operation out adds no id and removes the operation. Distinct ids stay distinct.
pub fn what_is_left()
    ensures ids { (x y : ℕ) (t : Op) → has_id y t ≡ false → has_id y (without x t) ≡ false }
    ensures gone { (x : ℕ) (t : Op) → eqb (head t).id x ≡ false → has_id x (without x t) ≡ false }
    ensures distinct { (x : ℕ) (t : Op) → HasDistinctIds t → HasDistinctIds (without x t) }
{}

/// Edits of a tree that is sound in a context, with names, types and attributes of the context, keep it sound.
pub fn edits_keep_sound()
    ensures operand { (c : ContextModel) (x k : ℕ) (v : TreeValue) (t : Op) → IsSoundIn c t → IsSoundIn c (with_operand x k v t) }
    ensures replaced { (c : ContextModel) (v w : TreeValue) (t : Op) → IsSoundIn c t → IsSoundIn c (with_value_replaced v w t) }
    ensures entry_set { (c : ContextModel) (x : ℕ) (part : Dictionary) (k a : ℕ) (t : Op) → IsName c k → IsAttr c a → IsSoundIn c t → IsSoundIn c (with_entry (key_before_in c) x part k (Some a) t) }
    ensures entry_removed { (c : ContextModel) (x : ℕ) (part : Dictionary) (k : ℕ) (t : Op) → IsName c k → IsSoundIn c t → IsSoundIn c (with_entry (key_before_in c) x part k None t) }
    ensures put { (c : ContextModel) (place : Point) (o t : Op) → IsSoundIn c o → IsSoundIn c t → IsSoundIn c (put place o t) }
    ensures without { (c : ContextModel) (x : ℕ) (t : Op) → IsSoundIn c t → IsSoundIn c (without x t) }
{}

/// Inserting an operation adds only its id and the ids inside it. Distinct ids stay distinct if none of these is in the
/// tree.
pub fn what_is_gained()
    ensures ids { (place : Point) (o : Op) (y : ℕ) (t : Op) → has_id y o ≡ false → has_id y t ≡ false → has_id y (put place o t) ≡ false }
    ensures distinct { (place : Point) (o t : Op) → HasDistinctIds o → HasDistinctIds t → ((y : ℕ) → has_id y o ≡ true → has_id y t ≡ false) → HasDistinctIds (put place o t) }
{}
