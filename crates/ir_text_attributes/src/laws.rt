//! Theorems about parsing attributes. A context is given by its contents, and a parse by the definition that the
//! contracts of the parsing functions name.
ghost use Rattle.std.specs.Prelude.{◌≡◌, ◌⊎◌, ℕ, Bool, List};
ghost use Rattle.ir_types.specs.Sound.{IsSound};
ghost use Rattle.ir_types.specs.Terms.{AttrTerm, attr_term};
ghost use Rattle.ir_types.specs.Things.{ContextModel, IsExtendedBy, IsAttr as IsAttrOf};
ghost use Rattle.ir_tree.specs.Meaning.{key_before};
ghost use Rattle.ir_text_attributes.specs.AttrGrammar.{EntryTerm, IsAttr};
ghost use Rattle.ir_text_attributes.specs.AttrReading.{attr_at};
ghost use Rattle.ir_text_attributes.specs.Keyed.{IsInOrder, in_order};
ghost use Rattle.ir_text_types.specs.Outcomes.{Read, Full};
ghost use Rattle.ir_text_types.specs.Denotation.{AttrDenotes};

/// An attribute that is parsed is one of the grammar, as an entry of the grown context. An attribute of the grammar
/// is parsed, unless the context fills up.
pub fn attributes_are_read_as_rendered()
    ensures found { (o : Bool) (depth : ℕ) (c d : ContextModel) (bytes rest : List ℕ) (n : ℕ) → IsSound c → attr_at o depth (bytes, c) ≡ Read (n, (rest, d)) → IsExtendedBy c d × IsSound d × IsAttrOf d n × IsAttr o depth (attr_term d n) bytes rest }
    ensures only { (o : Bool) (depth : ℕ) (c : ContextModel) (bytes rest : List ℕ) (y : AttrTerm) → IsSound c → IsAttr o depth y bytes rest → (attr_at o depth (bytes, c) ≡ Full) ⊎ ((n : ℕ) × (d : ContextModel) × (attr_at o depth (bytes, c) ≡ Read (n, (rest, d))) × IsExtendedBy c d × IsSound d × AttrDenotes d n y) }
{}

/// A text has at most one attribute as a prefix, with one rest of the text.
pub fn attributes_have_one_reading()
    ensures { (o : Bool) (depth : ℕ) (bytes rest other : List ℕ) (y z : AttrTerm) → IsAttr o depth y bytes rest → IsAttr o depth z bytes other → (y ≡ z) × (rest ≡ other) }
{}

/// Sorting permutes the entries. If no two entries have the same key, the keys of the result rise byte by byte.
pub fn entries_are_put_in_order()
    ensures { (es : List EntryTerm) → IsInOrder es (in_order key_before es) }
{}
