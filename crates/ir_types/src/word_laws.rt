//! Theorems about the predefined words.
ghost use Rattle.std.specs.Prelude.{◌≡◌, ◌<◌, ◌↔◌, List, [], ℕ, map, length, slice_index_or, slice_get, Some};
ghost use Rattle.ir_types.specs.Things.{ContextModel};
ghost use Rattle.ir_types.specs.Terms.{name_term};
ghost use Rattle.ir_types.specs.Sound.{IsSound};
ghost use Rattle.ir_types.specs.Words.{operations, words, row_keys};

/// A name has the id of a word exactly if its bytes are that word.
pub fn number_of_word()
    ensures { (c : ContextModel) (n word : ℕ) (bytes : List ℕ) → IsSound c → slice_get words word ≡ Some bytes → ((n < length c.names) × (name_term c n ≡ bytes)) ↔ (n ≡ word) }
{}

/// The rows by ids are the rows by words.
pub fn rows_are_words()
    ensures { map (map (λ k. slice_index_or words k [])) row_keys ≡ map (λ (row : List ℕ × List (List ℕ)). row.1) operations }
{}
