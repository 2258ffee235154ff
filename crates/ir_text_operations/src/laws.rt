//! Theorems about parsing operations. A context is given by its contents, and a parse by the definition that the
//! contracts of the parsing functions name.
ghost use Rattle.std.specs.Prelude.{◌≡◌, ◌⊎◌, ℕ, List, [], map, IsTrue};
ghost use Rattle.std.specs.List.{list_all};
ghost use Rattle.ir_text_tokens.specs.declared.token.Mark.TheVariants.{End};
ghost use Rattle.ir_types.specs.Sound.{IsSound};
ghost use Rattle.ir_types.specs.Things.{ContextModel, IsExtendedBy};
ghost use Rattle.ir_tree.specs.Meaning.{Operation, meaning, is_known};
ghost use Rattle.ir_tree.specs.Tree.{Op};
ghost use Rattle.ir_tree.specs.Limits.{most_ops};
ghost use Rattle.ir_text_types.specs.Laws.{Each};
ghost use Rattle.ir_text_types.specs.Outcomes.{Read, Full};
ghost use Rattle.ir_text_types.specs.Worlds.{From};
ghost use Rattle.ir_text_operations.specs.PrecedingReading.{Frees};
ghost use Rattle.ir_text_operations.specs.OpGrammar.{FreeTerms, IsOp, IsOps};
ghost use Rattle.ir_text_operations.specs.OpReading.{op_at, ops_at};
ghost use Rattle.ir_text_operations.specs.ParseState.{ParseState, initial_state};
ghost use Rattle.ir_text_operations.specs.Denotation.{FreeDenotes, OpDenotes, StateDenotes};
ghost use Rattle.ir_text_names.specs.States.{State, fresh};

/// An operation that is parsed is one of the grammar, as entries of the grown context. An operation of the grammar is
/// parsed, unless the context fills up. Parser and grammar end with the same rest of the text, the same names and the
/// same next id.
pub fn operations_are_read_as_rendered()
    ensures found { (free : Frees) (outer : FreeTerms) (last depth next : ℕ) (c : ContextModel) (bytes : List ℕ) (o : Op) (s : State) → IsSound c → From (λ z. FreeDenotes z free outer) c → op_at free last depth (fresh next bytes c) ≡ Read (o, s) → IsExtendedBy c s.things × IsSound s.things × IsTrue (is_known s.things o) × (t : ParseState) × IsOp c.opaque outer last depth (meaning s.things o) (initial_state next bytes) t × StateDenotes s.things s t }
    ensures only { (free : Frees) (outer : FreeTerms) (last depth next : ℕ) (c : ContextModel) (bytes : List ℕ) (y : Operation) (t : ParseState) → IsSound c → From (λ z. FreeDenotes z free outer) c → IsOp c.opaque outer last depth y (initial_state next bytes) t → (op_at free last depth (fresh next bytes c) ≡ Full) ⊎ ((o : Op) × (s : State) × (op_at free last depth (fresh next bytes c) ≡ Read (o, s)) × IsExtendedBy c s.things × IsSound s.things × OpDenotes s.things o y × StateDenotes s.things s t) }
{}

/// The same holds for all operations up to the end of a text, at most 1,048,576 of them.
pub fn texts_are_read_as_rendered()
    ensures found { (free : Frees) (outer : FreeTerms) (last depth next : ℕ) (c : ContextModel) (bytes : List ℕ) (os : List Op) (s : State) → IsSound c → From (λ z. FreeDenotes z free outer) c → ops_at End (op_at free last depth) most_ops [] (fresh next bytes c) ≡ Read (os, s) → IsExtendedBy c s.things × IsSound s.things × IsTrue (list_all (is_known s.things) os) × (t : ParseState) × IsOps End (IsOp c.opaque outer last depth) most_ops [] (map (meaning s.things) os) (initial_state next bytes) t × StateDenotes s.things s t }
    ensures only { (free : Frees) (outer : FreeTerms) (last depth next : ℕ) (c : ContextModel) (bytes : List ℕ) (ys : List Operation) (t : ParseState) → IsSound c → From (λ z. FreeDenotes z free outer) c → IsOps End (IsOp c.opaque outer last depth) most_ops [] ys (initial_state next bytes) t → (ops_at End (op_at free last depth) most_ops [] (fresh next bytes c) ≡ Full) ⊎ ((os : List Op) × (s : State) × (ops_at End (op_at free last depth) most_ops [] (fresh next bytes c) ≡ Read (os, s)) × IsExtendedBy c s.things × IsSound s.things × Each OpDenotes s.things os ys × StateDenotes s.things s t) }
{}
