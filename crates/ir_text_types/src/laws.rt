//! Theorems about parsing types. A context is given by its contents, and a parse by the definition that the contracts
//! of the parsing functions name.
ghost use Rattle.std.specs.Prelude.{◌≡◌, ◌⊎◌, ℕ, Bool, List, map};
ghost use Rattle.std.specs.List.{All};
ghost use Rattle.ir_types.specs.Sound.{IsSound};
ghost use Rattle.ir_types.specs.Terms.{TypeTerm, type_term};
ghost use Rattle.ir_types.specs.Things.{ContextModel, IsExtendedBy, IsType as IsTypeOf};
ghost use Rattle.ir_text_types.specs.Laws.{SignatureDenotes};
ghost use Rattle.ir_text_types.specs.Outcomes.{Read, Full};
ghost use Rattle.ir_text_types.specs.Denotation.{TypeDenotes};
ghost use Rattle.ir_text_types.specs.TypeGrammar.{IsType, IsFunctionType};
ghost use Rattle.ir_text_types.specs.TypeReading.{type_at, function_type_at};

/// A type that is parsed is a type of the grammar, as an entry of the grown context. A type of the grammar is parsed,
/// unless the context fills up. Both hold with and without opaque types.
pub fn types_are_read_as_rendered()
    ensures found { (o : Bool) (depth : ℕ) (c d : ContextModel) (bytes rest : List ℕ) (n : ℕ) → IsSound c → type_at o depth (bytes, c) ≡ Read (n, (rest, d)) → IsExtendedBy c d × IsSound d × IsTypeOf d n × IsType o depth (type_term d n) bytes rest }
    ensures only { (o : Bool) (depth : ℕ) (c : ContextModel) (bytes rest : List ℕ) (y : TypeTerm) → IsSound c → IsType o depth y bytes rest → (type_at o depth (bytes, c) ≡ Full) ⊎ ((n : ℕ) × (d : ContextModel) × (type_at o depth (bytes, c) ≡ Read (n, (rest, d))) × IsExtendedBy c d × IsSound d × TypeDenotes d n y) }
{}

/// A function type that is parsed is one of the grammar, as entries of the grown context. A function type of the
/// grammar is parsed, unless the context fills up.
pub fn function_types_are_read_as_rendered()
    ensures found { (o : Bool) (c d : ContextModel) (bytes rest : List ℕ) (x : List ℕ × List ℕ) → IsSound c → function_type_at o (bytes, c) ≡ Read (x, (rest, d)) → IsExtendedBy c d × IsSound d × All (IsTypeOf d) x.0 × All (IsTypeOf d) x.1 × IsFunctionType o (map (type_term d) x.0, map (type_term d) x.1) bytes rest }
    ensures only { (o : Bool) (c : ContextModel) (bytes rest : List ℕ) (y : List TypeTerm × List TypeTerm) → IsSound c → IsFunctionType o y bytes rest → (function_type_at o (bytes, c) ≡ Full) ⊎ ((x : List ℕ × List ℕ) × (d : ContextModel) × (function_type_at o (bytes, c) ≡ Read (x, (rest, d))) × IsExtendedBy c d × IsSound d × SignatureDenotes d x y) }
{}

/// A text has at most one type as a prefix, with one rest of the text. The same holds for function types.
pub fn types_have_one_reading()
    ensures ty { (o : Bool) (depth : ℕ) (bytes rest other : List ℕ) (y z : TypeTerm) → IsType o depth y bytes rest → IsType o depth z bytes other → (y ≡ z) × (rest ≡ other) }
    ensures function { (o : Bool) (bytes rest other : List ℕ) (y z : List TypeTerm × List TypeTerm) → IsFunctionType o y bytes rest → IsFunctionType o z bytes other → (y ≡ z) × (rest ≡ other) }
{}
