//! Theorems: a parse never fills a context that has capacity for the text. A context is given by its contents, and a
//! parse by the definition that the contracts of the parsing functions name.
ghost use Rattle.std.specs.Prelude.{◌≡◌, ◌≤◌, ℕ, Bool, List, [], length};
ghost use Rattle.ir_types.specs.Things.{ContextModel};
ghost use Rattle.ir_tree.specs.Limits.{most_ops};
ghost use Rattle.ir_tree.specs.Tree.{Op};
ghost use Rattle.ir_text_tokens.specs.Limits.{most_bytes};
ghost use Rattle.ir_text_tokens.specs.declared.token.Mark.{Mark};
ghost use Rattle.ir_text_types.specs.Outcomes.{Read, Full};
ghost use Rattle.ir_text_types.specs.TypeReading.{type_at, function_type_at};
ghost use Rattle.ir_text_operations.specs.attributes.AttrReading.{attr_at};
ghost use Rattle.ir_text_operations.specs.names.States.{State, fresh};
ghost use Rattle.ir_text_operations.specs.Filling.{Fills};
ghost use Rattle.ir_text_operations.specs.PrecedingReading.{Frees};
ghost use Rattle.ir_text_operations.specs.OpReading.{op_at, ops_at};
ghost use Rattle.ir_text.specs.Headroom.{HasHeadroom};

/// If a context has capacity for a text, parsing a type doesn't fill the context, and the capacity suffices for the
/// rest of the text. The same holds for function types.
pub fn types_fit()
    ensures headroom { (o : Bool) (depth : ℕ) (c : ContextModel) (bytes : List ℕ) → HasHeadroom bytes c → type_at o depth (bytes, c) ≡ Full → ⊥ }
    ensures left { (o : Bool) (depth n : ℕ) (c d : ContextModel) (bytes rest : List ℕ) → HasHeadroom bytes c → type_at o depth (bytes, c) ≡ Read (n, (rest, d)) → HasHeadroom rest d }
    ensures function { (o : Bool) (c : ContextModel) (bytes : List ℕ) → HasHeadroom bytes c → function_type_at o (bytes, c) ≡ Full → ⊥ }
{}

/// The same holds for attributes.
pub fn attributes_fit()
    ensures headroom { (o : Bool) (depth : ℕ) (c : ContextModel) (bytes : List ℕ) → HasHeadroom bytes c → attr_at o depth (bytes, c) ≡ Full → ⊥ }
    ensures left { (o : Bool) (depth n : ℕ) (c d : ContextModel) (bytes rest : List ℕ) → HasHeadroom bytes c → attr_at o depth (bytes, c) ≡ Read (n, (rest, d)) → HasHeadroom rest d }
{}

/// The same holds for one operation, and for all operations up to a closing mark.
pub fn operations_fit()
    ensures headroom { (free : Frees) (last depth first : ℕ) (c : ContextModel) (bytes : List ℕ) → HasHeadroom bytes c → op_at free last depth (fresh first bytes c) ≡ Full → ⊥ }
    ensures left { (free : Frees) (last depth first : ℕ) (c : ContextModel) (bytes : List ℕ) (o : Op) (s : State) → HasHeadroom bytes c → op_at free last depth (fresh first bytes c) ≡ Read (o, s) → HasHeadroom s.bytes s.things }
    ensures all { (free : Frees) (close : Mark) (last depth first : ℕ) (c : ContextModel) (bytes : List ℕ) → HasHeadroom bytes c → ops_at close (op_at free last depth) most_ops [] (fresh first bytes c) ≡ Full → ⊥ }
{}

/// A text within its limit fills no new context.
pub fn texts_fit()
    ensures { (o : Bool) (bytes : List ℕ) → length bytes ≤ most_bytes → Fills o bytes → ⊥ }
{}
