//! Theorems about trees with other ids. Each is a function that does nothing; its contract is the theorem.
ghost use Rattle.std.specs.Prelude.{◌≡◌, ◌++◌, ℕ, Bool, List, ◌∷◌, length, map, eqb};
ghost use Rattle.std.specs.List.{IsDistinct};
ghost use Rattle.ir_tree.specs.types.Terms.{AttrTerm, TypeTerm};
ghost use Rattle.ir_tree.specs.declared.value.Value.{Value};
ghost use Rattle.ir_tree.specs.Tree.{head};
ghost use Rattle.ir_tree.specs.Ids.{HasDistinctIds, IsNumberedFrom, ids};
ghost use Rattle.ir_tree.specs.Limits.{counts_fit, depth, every};
ghost use Rattle.ir_tree.specs.Meaning.{Operation, dictionaries_rise};
ghost use Rattle.ir_tree.specs.Passing.{all_pass};
ghost use Rattle.ir_tree.specs.Sites.{operands_visible, visible};
ghost use Rattle.ir_tree.specs.WellFormed.{IsValidTree};
ghost use Rattle.ir_tree_laws.specs.Renumbered.{MapsApart, head_with_ids, place_in, renumbered, value_with_id, with_ids};

/// A tree with other ids has the mapped ids, and the depth and the counts of the original tree.
pub fn other_ids_keep_the_shape()
    ensures ids { (f : ℕ → ℕ) (t : Operation) → ids (with_ids f t) ≡ map f (ids t) }
    ensures depth { (f : ℕ → ℕ) (t : Operation) → depth (with_ids f t) ≡ depth t }
    ensures counts { (f : ℕ → ℕ) (t : Operation) → counts_fit (with_ids f t) ≡ counts_fit t }
{}

/// A head changes only in its ids. A tree passes a test of each operation exactly if the original tree does, for tests
/// of names, types and attributes, and for the test that dictionaries are sorted.
pub fn other_ids_keep_the_heads()
    ensures head { (f : ℕ → ℕ) (t : Operation) → head (with_ids f t) ≡ head_with_ids f (head t) }
    ensures every { (f : ℕ → ℕ) (p q : Operation → Bool) (t : Operation) → ((o : Operation) → q (with_ids f o) ≡ p o) → every q (with_ids f t) ≡ every p t }
    ensures passing { (f : ℕ → ℕ) (n : List ℕ → Bool) (q : TypeTerm → Bool) (a : AttrTerm → Bool) (t : Operation) → all_pass n q a (with_ids f t) ≡ all_pass n q a t }
    ensures sorted { (f : ℕ → ℕ) (before : List ℕ → List ℕ → Bool) (t : Operation) → every (dictionaries_rise before) (with_ids f t) ≡ every (dictionaries_rise before) t }
{}

/// If the mapping is injective on the tree's ids and maps no other id to them, a tree with other ids has the same
/// dominance as the original tree, and is well-formed if the original tree is.
pub fn other_ids_keep_the_dominance()
    ensures dominance { (isolated : List ℕ → Bool) (f : ℕ → ℕ) (t : Operation) (x : ℕ) (v : Value) → MapsApart f (ids t) → visible isolated (with_ids f t) (f x) (value_with_id f v) ≡ visible isolated t x v }
    ensures operands { (isolated : List ℕ → Bool) (f : ℕ → ℕ) (t : Operation) → MapsApart f (ids t) → operands_visible isolated (with_ids f t) ≡ operands_visible isolated t }
    ensures wellformed { (isolated : List ℕ → Bool) (f : ℕ → ℕ) (t : Operation) → MapsApart f (ids t) → IsValidTree isolated t → IsValidTree isolated (with_ids f t) }
    ensures distinct { (f : ℕ → ℕ) (t : Operation) → MapsApart f (ids t) → HasDistinctIds t → HasDistinctIds (with_ids f t) }
{}

/// The positions of a list's numbers differ from the position of every other number, and are 0, 1, .. if the list has
/// no duplicates.
pub fn places_tell_apart()
    ensures apart { (xs : List ℕ) → MapsApart (place_in xs) xs }
    ensures places { (xs ys : List ℕ) (x : ℕ) → IsDistinct eqb (xs ++ x ∷ ys) → place_in (xs ++ x ∷ ys) x ≡ length xs }
{}

/// A renumbered tree has the ids 0, 1, .. in pre-order if the ids of the original tree are distinct. It has the same
/// dominance, and is well-formed if the original tree is. A well-formed tree that already has these ids is unchanged.
pub fn trees_are_renumbered()
    ensures numbered { (t : Operation) → HasDistinctIds t → IsNumberedFrom 0 (renumbered t) }
    ensures distinct { (t : Operation) → HasDistinctIds t → HasDistinctIds (renumbered t) }
    ensures wellformed { (isolated : List ℕ → Bool) (t : Operation) → IsValidTree isolated t → IsValidTree isolated (renumbered t) }
    ensures dominance { (isolated : List ℕ → Bool) (t : Operation) (x : ℕ) (v : Value) → visible isolated (renumbered t) (place_in (ids t) x) (value_with_id (place_in (ids t)) v) ≡ visible isolated t x v }
    ensures stays { (isolated : List ℕ → Bool) (t : Operation) → IsValidTree isolated t → IsNumberedFrom 0 t → renumbered t ≡ t }
{}
