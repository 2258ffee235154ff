//! Theorems about trees. Each is a function that does nothing; its contract is the theorem.
ghost use Rattle.std.specs.Prelude.{◌≡◌, ◌↔◌, ◌<◌, ◌≤◌, ◌+◌, ◌&&◌, ◌||◌, ◌-◌, not, ℕ, Bool, true, false, List, [], ◌∷◌, ◌++◌, map, length, eqb, Option, Some, None, option_map};
ghost use Rattle.std.specs.List.{filter, list_all, list_any};
ghost use Rattle.ir_tree.specs.types.Things.{ContextModel};
ghost use Rattle.ir_tree.specs.types.Terms.{name_term, type_term, attr_term};
ghost use Rattle.ir_tree.specs.types.Words.{is_isolated, is_table};
ghost use Rattle.ir_tree.specs.declared.place.Part.{Part as Dictionary};
ghost use Rattle.ir_tree.specs.declared.place.Place.{Place as Point};
ghost use Rattle.ir_tree.specs.declared.value.Value.{Value as TreeValue};
ghost use Rattle.ir_tree.specs.declared.value.Value.TheVariants.{Result as ResultOf};
ghost use Rattle.ir_tree.specs.Tree.{HeadOf, OpOf, Op, RegionsOf, op, head, op_list, ops_of, regions};
ghost use Rattle.ir_tree.specs.Ids.{HasDistinctIds, IsNumberedFrom, find, has_id, ids, op_count, regions_ids};
ghost use Rattle.ir_tree.specs.Limits.{depth, every, most_next, most_ops, op_fits};
ghost use Rattle.ir_tree.specs.Uses.{operand_uses, uses_of};
ghost use Rattle.ir_tree.specs.Frames.{owner_of};
ghost use Rattle.ir_tree.specs.Sites.{arguments, operands_visible, results_of, shows, visible};
ghost use Rattle.ir_tree.specs.Edits.{each_head, with_entry, with_operand, with_value_replaced};
ghost use Rattle.ir_tree.specs.Meaning.{dictionaries_rise, isolated_in, key_before, key_before_in, meaning};
ghost use Rattle.ir_tree.specs.Places.{first_id, place_of, put, shifted, without};
ghost use Rattle.ir_tree.specs.WellFormed.{IsWellFormed, Module, ModuleOf};
ghost use Rattle.ir_tree_laws.specs.Stands.{OpWithPathOf, StepOf, edit_stand, gather, greatest, first_some, is_gone, left_stand, place_at, place_in, dominated_by, op_with_path_id, op_with_path, stands, table_in};
ghost use Rattle.ir_tree_laws.specs.Tables.{table_of};
ghost use Rattle.ir_tree_laws.specs.Reads.{around, is_before, is_next_to, last_id, list_of, next_of, parent_of, prev_of};
ghost use Rattle.ir_tree_laws.specs.Reasons.{fits_around, has_place, hold_none, leads_inside, put_reason, set_entry_reason, set_operand_reason, shift_reason, take_reason, with_id};
ghost use Rattle.ir_tree_laws.specs.Changes.{NextAfter, SetsEntry, SetsOperand, Shifts, Takes, entry_in};
ghost use Rattle.ir_tree_laws.specs.Values.{has_value, type_of_value};
ghost use Rattle.ir_tree_laws.specs.Keys.{Ordered};
ghost use Rattle.ir_tree_laws.specs.Preorder.{IsCutAt};
ghost use Rattle.ir_tree_laws.specs.Nested.{with_last};
ghost use Rattle.ir_tree_laws.specs.Restores.{MayPut, MayRestore, MayRetract};

/// Each function of a tree is a function of the list of its operations with their paths.
pub fn trees_are_read_off_their_list<N, T, A>()
    ensures ids { (t : OpOf N T A) → map (λ s. op_with_path_id s) (stands [] t) ≡ ids t }
    ensures find { (x : ℕ) (t : OpOf N T A) → option_map (λ s. s.here) (op_with_path x t) ≡ find x t }
    ensures every { (p : OpOf N T A → Bool) (t : OpOf N T A) → list_all (λ s. p s.here) (stands [] t) ≡ every p t }
    ensures depth { (t : OpOf N T A) → greatest (λ s. length s.path) (stands [] t) ≡ depth t }
    ensures uses { (v : TreeValue) (t : OpOf N T A) → gather (λ s. operand_uses v (op_with_path_id s) 0 (head s.here).operands) (stands [] t) ≡ uses_of v t }
    ensures place { (x : ℕ) (t : OpOf N T A) → first_some (place_at x) (stands [] t) ≡ place_of x t }
    ensures table { (is_table : N → Bool) (x : ℕ) (t : OpOf N T A) → option_map (λ s. table_in is_table s.path) (op_with_path x t) ≡ table_of is_table x t }
    ensures around { (x : ℕ) (t : OpOf N T A) → option_map (λ s. length s.path) (op_with_path x t) ≡ around x t }
    ensures dominance { (isolated : N → Bool) (x : ℕ) (v : TreeValue) (t : OpOf N T A) → visible isolated t x v ≡ list_any (λ s. eqb (op_with_path_id s) x && dominated_by isolated s.path v) (stands [] t) }
    ensures operands { (isolated : N → Bool) (t : OpOf N T A) → operands_visible isolated t ≡ list_all (λ s. list_all (dominated_by isolated s.path) (head s.here).operands) (stands [] t) }
{}

/// If ids are distinct, the values visible at an operation are: the results of earlier operations of its block, the
/// arguments of its block, and, unless the parent is isolated from above, the values visible at the parent. No value is
/// visible at the root. Stated once by the path, and once by reads of the tree.
pub fn dominance_is_by_cases<N, T, A>()
    ensures inner { (isolated : N → Bool) (t : OpOf N T A) → HasDistinctIds t → (x : ℕ) (s : OpWithPathOf N T A) (a : StepOf N T A) (q : List (StepOf N T A)) (v : TreeValue) → op_with_path x t ≡ Some s → s.path ≡ a ∷ q
        → visible isolated t x v ≡ (list_any (λ o. shows v (results_of o)) a.preceding || (shows v (arguments (head a.parent).id a.region (length a.args)) || not (isolated (head a.parent).name) && visible isolated t (head a.parent).id v)) }
    ensures by_place { (isolated : N → Bool) (t : OpOf N T A) → HasDistinctIds t → (x : ℕ) (place : Point) (p : OpOf N T A) (v : TreeValue) → place_of x t ≡ Some place → find place.parent t ≡ Some p
        → visible isolated t x v ≡ (has_value v t && is_next_to x place v t || not (isolated (head p).name) && visible isolated t place.parent v) }
    ensures root { (isolated : N → Bool) (t : OpOf N T A) (v : TreeValue) → HasDistinctIds t → visible isolated t (head t).id v ≡ false }
    ensures operands { (isolated : N → Bool) (t : OpOf N T A) → HasDistinctIds t → operands_visible isolated t ≡ every (λ o. list_all (visible isolated t (head o).id) (head o).operands) t }
{}

/// If ids are distinct, the neighbours of an operation are those in its path.
pub fn operations_next_to_are_those_of_the_path<N, T, A>()
    ensures list { (t : OpOf N T A) → HasDistinctIds t → (x : ℕ) (s : OpWithPathOf N T A) (a : StepOf N T A) (q : List (StepOf N T A)) → op_with_path x t ≡ Some s → s.path ≡ a ∷ q → list_of x t ≡ Some (ops_of (a.preceding ++ s.here ∷ op_list a.rest)) }
    ensures parent { (t : OpOf N T A) → HasDistinctIds t → (x : ℕ) (s : OpWithPathOf N T A) (a : StepOf N T A) (q : List (StepOf N T A)) → op_with_path x t ≡ Some s → s.path ≡ a ∷ q → parent_of x t ≡ Some (head a.parent).id }
    ensures next { (t : OpOf N T A) → HasDistinctIds t → (x : ℕ) (s : OpWithPathOf N T A) (a : StepOf N T A) (q : List (StepOf N T A)) → op_with_path x t ≡ Some s → s.path ≡ a ∷ q → next_of x t ≡ first_id a.rest }
    ensures prev { (t : OpOf N T A) → HasDistinctIds t → (x : ℕ) (s : OpWithPathOf N T A) (a : StepOf N T A) (q : List (StepOf N T A)) → op_with_path x t ≡ Some s → s.path ≡ a ∷ q → prev_of x t ≡ last_id (ops_of a.preceding) }
    ensures before { (t : OpOf N T A) → HasDistinctIds t → (x : ℕ) (s : OpWithPathOf N T A) (a : StepOf N T A) (q : List (StepOf N T A)) → op_with_path x t ≡ Some s → s.path ≡ a ∷ q → (y : ℕ) → is_before y x t ≡ list_any (λ f. eqb (head f).id y) a.preceding }
{}

/// The list of a tree after an edit of heads, and after an operation is taken out.
pub fn lists_of_edited_trees<N, T, A>()
    ensures heads { (f : HeadOf N T A → HeadOf N T A) (t : OpOf N T A) → stands [] (each_head f t) ≡ map (edit_stand f) (stands [] t) }
    ensures without { (x : ℕ) (t : OpOf N T A) → stands [] (without x t) ≡ map (left_stand x) (filter (λ s. not (is_gone x s)) (stands [] t)) }
{}

/// An operation is inserted at a place of a tree, with everything inside it, and all ids stay distinct. Then the
/// operation is at that place. The list of the old tree is the list of the new tree without it. The operations inside
/// it have the same paths in it, below the place. Its depth is one more than that of the place's parent.
pub fn what_is_put_stands_at_its_place<N, T, A>()
    ensures there { (place : Point) (o t : OpOf N T A) → MayPut place o t → place_of (head o).id (put place o t) ≡ Some place }
    ensures found { (place : Point) (o t : OpOf N T A) → MayPut place o t → find (head o).id (put place o t) ≡ Some o }
    ensures distinct { (place : Point) (o t : OpOf N T A) → MayPut place o t → HasDistinctIds (put place o t) }
    ensures list { (place : Point) (o t : OpOf N T A) → MayPut place o t → stands [] t ≡ map (left_stand (head o).id) (filter (λ s. not (is_gone (head o).id s)) (stands [] (put place o t))) }
    ensures inside { (place : Point) (o t : OpOf N T A) → MayPut place o t → (path : List (StepOf N T A)) × (place_in path ≡ Some place) × (around place.parent t ≡ Some (length path - 1)) × (filter (is_gone (head o).id) (stands [] (put place o t)) ≡ stands path o) }
    ensures order { (place : Point) (o t : OpOf N T A) → MayPut place o t → (preceding back : List ℕ) × (ids t ≡ preceding ++ back) × (ids (put place o t) ≡ preceding ++ (ids o ++ back)) × IsCutAt place t preceding back }
    ensures count { (place : Point) (o t : OpOf N T A) → MayPut place o t → op_count (put place o t) ≡ op_count t + op_count o }
    ensures uses { (place : Point) (o t : OpOf N T A) → MayPut place o t → (v : TreeValue) → (preceding back : List (ℕ × ℕ)) × (uses_of v t ≡ preceding ++ back) × (uses_of v (put place o t) ≡ preceding ++ (uses_of v o ++ back)) }
{}

/// Inserting into an operation after it was inserted equals inserting into it before. The same holds for taking out. So
/// a whole tree can be inserted, or taken out, operation by operation.
pub fn what_is_put_comes_chunk_by_chunk<N, T, A>()
    ensures put { (place into : Point) (o c t : OpOf N T A) → has_id into.parent t ≡ false → put into c (put place o t) ≡ put place (put into c o) t }
    ensures without { (y : ℕ) (place : Point) (o t : OpOf N T A) → eqb (head o).id y ≡ false → has_id y t ≡ false → without y (put place o t) ≡ put place (without y o) t }
    ensures may { (place into : Point) (o c t : OpOf N T A) → MayPut place o t → MayPut into c o → ((y : ℕ) → has_id y c ≡ true → has_id y t ≡ false) → MayPut into c (put place o t) }
    ensures found { (place : Point) (o t : OpOf N T A) → MayPut place o t → (y : ℕ) (z : OpOf N T A) → find y o ≡ Some z → find y (put place o t) ≡ Some z }
    ensures last { (h : HeadOf N T A) (rs : RegionsOf N T A) (r : ℕ) (c : OpOf N T A) → list_any (λ y. eqb y h.id) (regions_ids rs) ≡ false → put (record { parent = h.id; region = r; before = None }) c (op h rs) ≡ op h (with_last r c rs) }
{}

/// If ids are distinct, an operation and everything inside it are one contiguous segment of the tree's list. After they
/// are taken out, the list has the other operations, in order.
pub fn what_is_taken_was_one_stretch<N, T, A>()
    ensures inside { (x : ℕ) (t o : OpOf N T A) → HasDistinctIds t → find x t ≡ Some o → eqb (head t).id x ≡ false → (path : List (StepOf N T A)) × (place_in path ≡ place_of x t) × (around x t ≡ Some (length path)) × (filter (is_gone x) (stands [] t) ≡ stands path o) }
    ensures order { (x : ℕ) (t o : OpOf N T A) → HasDistinctIds t → find x t ≡ Some o → eqb (head t).id x ≡ false → (preceding back : List ℕ) × (ids t ≡ preceding ++ (ids o ++ back)) × (ids (without x t) ≡ preceding ++ back) }
    ensures count { (x : ℕ) (t o : OpOf N T A) → HasDistinctIds t → find x t ≡ Some o → eqb (head t).id x ≡ false → op_count t ≡ op_count (without x t) + op_count o }
    ensures uses { (x : ℕ) (t o : OpOf N T A) → HasDistinctIds t → find x t ≡ Some o → eqb (head t).id x ≡ false → (v : TreeValue) → (preceding back : List (ℕ × ℕ)) × (uses_of v t ≡ preceding ++ (uses_of v o ++ back)) × (uses_of v (without x t) ≡ preceding ++ back) }
{}

/// An operation that remains after another is taken out keeps its head, its nearest table and its depth. The values
/// visible at it are the same, except for those of the other operation.
pub fn what_is_left_stays<N, T, A>()
    ensures head { (x : ℕ) (t : OpOf N T A) → HasDistinctIds t → (y : ℕ) → has_id y (without x t) ≡ true → option_map head (find y (without x t)) ≡ option_map head (find y t) }
    ensures around { (x : ℕ) (t : OpOf N T A) → HasDistinctIds t → (y : ℕ) → has_id y (without x t) ≡ true → around y (without x t) ≡ around y t }
    ensures table { (x : ℕ) (t : OpOf N T A) → HasDistinctIds t → (y : ℕ) → has_id y (without x t) ≡ true → (is_table : N → Bool) → table_of is_table y (without x t) ≡ table_of is_table y t }
    ensures dominance { (x : ℕ) (t : OpOf N T A) → HasDistinctIds t → (y : ℕ) → has_id y (without x t) ≡ true → (isolated : N → Bool) (v : TreeValue) → eqb (owner_of v).0 x ≡ false → visible isolated (without x t) y v ≡ visible isolated t y v }
{}

/// Shifting an operation equals inserting it, with everything inside it, into the tree without it.
pub fn shifting_is_taking_and_putting<N, T, A>()
    ensures { (x : ℕ) (place : Point) (t o : OpOf N T A) → HasDistinctIds t → find x t ≡ Some o → eqb (head t).id x ≡ false → has_place place t ≡ true → leads_inside place (Some o) ≡ false
        → MayPut place o (without x t) × (shifted x place t ≡ put place o (without x t)) }
{}

/// In a tree whose operands are visible, an operation is shifted. Then all operands are visible exactly if those inside
/// the operation are, and its results are visible at their users.
pub fn shifting_asks_what_is_inside_and_the_users<N, T, A>()
    ensures { (isolated : N → Bool) (x : ℕ) (place : Point) (t o : OpOf N T A) → HasDistinctIds t → operands_visible isolated t ≡ true → find x t ≡ Some o → eqb (head t).id x ≡ false → has_place place t ≡ true → leads_inside place (Some o) ≡ false
        → (operands_visible isolated (shifted x place t) ≡ true) ↔ ((every (λ q. list_all (visible isolated (shifted x place t) (head q).id) (head q).operands) o ≡ true)
        × ((k : ℕ) → k < length (head o).results → list_all (λ u. visible isolated (shifted x place t) u.0 (ResultOf x k)) (uses_of (ResultOf x k) t) ≡ true)) }
{}

/// Accepted edits keep a module well-formed.
pub fn edits_keep_form<N, T, A>()
    ensures put { (isolated : N → Bool) (place : Point) (o : OpOf N T A) (m : ModuleOf N T A) → IsWellFormed isolated m → hold_none (regions o) ≡ true → put_reason isolated place o m.next m.tree ≡ None
        → IsWellFormed isolated (record { tree = put place (with_id m.next o) m.tree; next = m.next + 1 }) }
    ensures insert { (isolated : N → Bool) (place : Point) (o : OpOf N T A) (m : ModuleOf N T A) → IsWellFormed isolated m → IsNumberedFrom m.next o → has_place place m.tree ≡ true
        → every (λ q. list_all (visible isolated (put place o m.tree) (head q).id) (head q).operands) o ≡ true → fits_around (depth o) (around place.parent m.tree) ≡ true → op_count m.tree + op_count o ≤ most_ops → every op_fits o ≡ true
        → m.next + op_count o ≤ most_next → IsWellFormed isolated (record { tree = put place o m.tree; next = m.next + op_count o }) }
    ensures take { (isolated : N → Bool) (x : ℕ) (m : ModuleOf N T A) → IsWellFormed isolated m → take_reason x m.tree ≡ None → IsWellFormed isolated (record m { tree = without x m.tree }) }
    ensures retract { (isolated : N → Bool) (x : ℕ) (m : ModuleOf N T A) → IsWellFormed isolated m → take_reason x m.tree ≡ None → m.next ≡ x + 1 → IsWellFormed isolated (record { tree = without x m.tree; next = x }) }
    ensures erase { (isolated : N → Bool) (x : ℕ) (m : ModuleOf N T A) → IsWellFormed isolated m → list_all (λ s. is_gone x s || list_all (λ v. not (eqb (owner_of v).0 x)) (head s.here).operands) (stands [] m.tree) ≡ true
        → IsWellFormed isolated (record m { tree = without x m.tree }) }
    ensures shift { (isolated is_table : N → Bool) (x : ℕ) (place : Point) (m : ModuleOf N T A) → IsWellFormed isolated m → shift_reason isolated is_table x place m.tree ≡ None → IsWellFormed isolated (record m { tree = shifted x place m.tree }) }
    ensures operand { (isolated : N → Bool) (x k : ℕ) (v : TreeValue) (m : ModuleOf N T A) → IsWellFormed isolated m → set_operand_reason isolated x k v m.tree ≡ None → IsWellFormed isolated (record m { tree = with_operand x k v m.tree }) }
    ensures replaced { (isolated : N → Bool) (old new : TreeValue) (m : ModuleOf N T A) → IsWellFormed isolated m → list_all (λ u. visible isolated m.tree u.0 new) (uses_of old m.tree) ≡ true → IsWellFormed isolated (record m { tree = with_value_replaced old new m.tree }) }
    ensures entry { (isolated : N → Bool) (before : N → N → Bool) → ((k l m : N) → before k l ≡ true → before l m ≡ true → before k m ≡ true) → (x : ℕ) (part : Dictionary) (k : N) (a : Option A) (m : ModuleOf N T A)
        → IsWellFormed isolated m → every (dictionaries_rise before) m.tree ≡ true → set_entry_reason before x part k a m.tree ≡ None → IsWellFormed isolated (record m { tree = with_entry before x part k a m.tree }) }
{}

/// The change of the module by each accepted edit.
pub fn edits_are_changes<N, T, A>()
    ensures put { (isolated : N → Bool) (place : Point) (o : OpOf N T A) (m : ModuleOf N T A) → IsWellFormed isolated m → hold_none (regions o) ≡ true → put_reason isolated place o m.next m.tree ≡ None
        → Takes m.next place true (record { tree = put place (with_id m.next o) m.tree; next = m.next + 1 }) m }
    ensures take { (x : ℕ) (fresh : Bool) (m n : ModuleOf N T A) → HasDistinctIds m.tree → take_reason x m.tree ≡ None → n.tree ≡ without x m.tree → NextAfter fresh x m.next n.next → (place : Point) × Takes x place fresh m n }
    ensures shift { (isolated is_table : N → Bool) (x : ℕ) (place : Point) (m : ModuleOf N T A) → HasDistinctIds m.tree → shift_reason isolated is_table x place m.tree ≡ None → (old : Point) × Shifts is_table x old place m (record m { tree = shifted x place m.tree }) }
    ensures entry { (before : N → N → Bool) → Ordered before → (x : ℕ) (part : Dictionary) (k : N) (a : Option A) (m : ModuleOf N T A) → HasDistinctIds m.tree → every (dictionaries_rise before) m.tree ≡ true → set_entry_reason before x part k a m.tree ≡ None
        → (old : Option A) × SetsEntry before x part k old a m (record m { tree = with_entry before x part k a m.tree }) }
{}

/// The precondition of an undo follows from the change that is undone, and the undo restores the module.
pub fn changes_can_be_undone<N, T, A>()
    ensures retract { (x : ℕ) (place : Point) (fresh : Bool) (m n : ModuleOf N T A) → Takes x place fresh m n → MayRetract x fresh m }
    ensures restore { (isolated : N → Bool) (x : ℕ) (place : Point) (fresh : Bool) (m n : ModuleOf N T A) → IsWellFormed isolated n → Takes x place fresh n m → (o : OpOf N T A) → find x n.tree ≡ Some o → MayRestore x place fresh o m }
    ensures taken { (x : ℕ) (place : Point) (fresh : Bool) (m n : ModuleOf N T A) → HasDistinctIds m.tree → Takes x place fresh m n → (o : OpOf N T A) → find x m.tree ≡ Some o → put place o n.tree ≡ m.tree }
    ensures shifted { (is_table : N → Bool) (x : ℕ) (old new : Point) (m n : ModuleOf N T A) → HasDistinctIds m.tree → Shifts is_table x old new m n → shifted x old n.tree ≡ m.tree }
    ensures operand { (isolated : N → Bool) (x k : ℕ) (old new : TreeValue) (m n : ModuleOf N T A) → IsWellFormed isolated m → IsWellFormed isolated n → SetsOperand x k old new m n → set_operand_reason isolated x k old n.tree ≡ None }
    ensures shift { (isolated is_table : N → Bool) (x : ℕ) (old new : Point) (m n : ModuleOf N T A) → IsWellFormed isolated m → IsWellFormed isolated n → Shifts is_table x old new m n → shift_reason isolated is_table x old n.tree ≡ None }
{}

/// Values have the same types in the meaning of a tree as in the tree, and an edit of the meaning has the reasons of
/// the edit of the tree. The preconditions of an undo agree too.
pub fn contents_have_the_reasons()
    ensures types { (c : ContextModel) (v : TreeValue) (t : Op) → type_of_value v (meaning c t) ≡ option_map (type_term c) (type_of_value v t) }
    ensures tables { (c : ContextModel) (x : ℕ) (t : Op) → table_of is_table x (meaning c t) ≡ table_of (λ n. is_table (name_term c n)) x t }
    ensures entries { (c : ContextModel) (x : ℕ) (part : Dictionary) (k : ℕ) (t : Op) → entry_in key_before x part (name_term c k) (meaning c t) ≡ option_map (option_map (attr_term c)) (entry_in (key_before_in c) x part k t) }
    ensures put { (c : ContextModel) (place : Point) (o : Op) (free : ℕ) (t : Op) → put_reason is_isolated place (meaning c o) free (meaning c t) ≡ put_reason (isolated_in c) place o free t }
    ensures take { (c : ContextModel) (x : ℕ) (t : Op) → take_reason x (meaning c t) ≡ take_reason x t }
    ensures shift { (c : ContextModel) (x : ℕ) (place : Point) (t : Op) → shift_reason is_isolated is_table x place (meaning c t) ≡ shift_reason (isolated_in c) (λ n. is_table (name_term c n)) x place t }
    ensures operand { (c : ContextModel) (x k : ℕ) (v : TreeValue) (t : Op) → set_operand_reason is_isolated x k v (meaning c t) ≡ set_operand_reason (isolated_in c) x k v t }
    ensures entry { (c : ContextModel) (x : ℕ) (part : Dictionary) (k : ℕ) (a : Option ℕ) (t : Op)
        → set_entry_reason key_before x part (name_term c k) (option_map (attr_term c) a) (meaning c t) ≡ set_entry_reason (key_before_in c) x part k a t }
    ensures retract { (c : ContextModel) (x : ℕ) (fresh : Bool) (m : Module) → MayRetract x fresh (record { tree = meaning c m.tree; next = m.next }) → MayRetract x fresh m }
    ensures restore { (c : ContextModel) (x : ℕ) (place : Point) (fresh : Bool) (o : Op) (m : Module) → MayRestore x place fresh (meaning c o) (record { tree = meaning c m.tree; next = m.next }) → MayRestore x place fresh o m }
{}
