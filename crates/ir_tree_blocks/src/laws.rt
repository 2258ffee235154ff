//! Theorems about nested and flat trees. Each is a function that does nothing; its contract is the theorem.
ghost use Rattle.std.specs.Prelude.{◌≡◌, ℕ, List, Option, true, false};
ghost use Rattle.ir_tree.specs.declared.place.Part.{Part as Dictionary};
ghost use Rattle.ir_tree.specs.declared.place.Place.{Place as Point};
ghost use Rattle.ir_tree.specs.declared.value.Value.{Value as TreeValue};
ghost use Rattle.ir_tree.specs.types.Terms.{AttrTerm};
ghost use Rattle.ir_tree.specs.types.Words.{is_isolated};
ghost use Rattle.ir_tree.specs.Tree.{head};
ghost use Rattle.ir_tree.specs.Limits.{every};
ghost use Rattle.ir_tree.specs.Meaning.{Operation, key_before};
ghost use Rattle.ir_tree.specs.Sites.{visible};
ghost use Rattle.ir_tree.specs.Places.{put, shifted, without};
ghost use Rattle.ir_tree.specs.Edits.{with_entry, with_operand, with_value_replaced};
ghost use Rattle.ir_tree_blocks.specs.Flat.{FlatOp};
ghost use Rattle.ir_tree_blocks.specs.Reserved.{is_reserved};
ghost use Rattle.ir_tree_blocks.specs.Simple.{is_plain, is_plain_op};
ghost use Rattle.ir_tree_blocks.specs.Nesting.{Layout, CanNest, nest};
ghost use Rattle.ir_tree_blocks.specs.Flattening.{flatten};
ghost use Rattle.ir_tree_blocks.specs.Form.{HasLexicalLabels, HasScopes, IsInForm, each_block, each_region, ends_in_scopes, has_flat, is_lexical, is_no_scope, is_shaped, labels_differ, only_last_names};
ghost use Rattle.ir_tree_blocks.specs.Dominance.{DominatesOp};
ghost use Rattle.ir_tree_blocks.specs.Samples.{after_branch, after_scope, flat_loop, loop_layout, nested_loop, out_of_sight, with_label_twice, without_block, without_label};

/// Nesting a flat tree and flattening the result gives the flat tree, wherever the scopes go.
pub fn flattening_undoes_nesting()
    ensures { (f : ℕ → ℕ → Layout) (t : FlatOp) → CanNest f t → flatten (nest f t) ≡ t }
{}

/// If scopes have their form (F1) and labels are lexical (F4), a value that is visible at an operation of a nested tree
/// dominates the operation in the flat tree.
pub fn visible_values_dominate()
    ensures { (t : Operation) (x : ℕ) (v : TreeValue) → HasScopes t → HasLexicalLabels t → is_no_scope x t ≡ true → visible is_isolated t x v ≡ true → DominatesOp v x (flatten t) }
{}

/// Setting an operand, replacing a value, and setting or removing an entry keep the form, if the key of the entry isn't
/// one of those for blocks.
pub fn other_edits_keep_the_form()
    ensures operand { (x k : ℕ) (v : TreeValue) (t : Operation) → IsInForm t → IsInForm (with_operand x k v t) }
    ensures replaced { (v w : TreeValue) (t : Operation) → IsInForm t → IsInForm (with_value_replaced v w t) }
    ensures entry { (x : ℕ) (part : Dictionary) (k : List ℕ) (a : Option AttrTerm) (t : Operation) → is_reserved k ≡ false → IsInForm t → IsInForm (with_entry key_before x part k a t) }
{}

/// Inserting an operation and taking it out keeps F1 and F4, if the operation is no scope and has no successors. What is
/// inside an inserted operation has scopes and lexical labels too.
pub fn inserting_and_erasing_keep_scopes()
    ensures put { (place : Point) (o t : Operation) → is_plain (head o) ≡ true → HasScopes o → HasScopes t → HasScopes (put place o t) }
    ensures put_lexical { (place : Point) (o t : Operation) → is_plain (head o) ≡ true → HasLexicalLabels o → HasLexicalLabels t → HasLexicalLabels (put place o t) }
    ensures without { (x : ℕ) (t : Operation) → is_plain_op x t ≡ true → HasScopes t → HasScopes (without x t) }
    ensures without_lexical { (x : ℕ) (t : Operation) → is_plain_op x t ≡ true → HasLexicalLabels t → HasLexicalLabels (without x t) }
{}

/// Moving an operation keeps F1 and F4, if the operation is no scope and has no successors.
pub fn moving_keeps_scopes()
    ensures scopes { (x : ℕ) (place : Point) (t : Operation) → is_plain_op x t ≡ true → HasScopes t → HasScopes (shifted x place t) }
    ensures lexical { (x : ℕ) (place : Point) (t : Operation) → is_plain_op x t ≡ true → HasLexicalLabels t → HasLexicalLabels (shifted x place t) }
{}

/// A nested tree with F1 and F4 has a flat tree: labels differ, and each label that is named is that of a block.
pub fn trees_in_form_have_flat_trees()
    ensures { (t : Operation) → HasScopes t → HasLexicalLabels t → has_flat t ≡ true }
{}

/// A function with a loop is nested and flattened as shown in `specs/Samples.antt`.
pub fn the_loop_is_nested()
    ensures nested { nest loop_layout flat_loop ≡ nested_loop }
    ensures flat { flatten nested_loop ≡ flat_loop }
    ensures form { IsInForm nested_loop }
{}

/// The form refuses a missing block, a missing label, a label that occurs twice, a label out of sight, an operation after
/// a scope, and a branch that isn't last.
pub fn broken_forms_are_refused()
    ensures block { each_region is_lexical without_block ≡ false }
    ensures label { every is_shaped without_label ≡ false }
    ensures twice { each_region labels_differ with_label_twice ≡ false }
    ensures hidden { each_region is_lexical out_of_sight ≡ false }
    ensures scope { each_block ends_in_scopes after_scope ≡ false }
    ensures branch { each_block only_last_names after_branch ≡ false }
{}
