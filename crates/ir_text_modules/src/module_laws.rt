//! Round-trip theorems for operations and modules.
ghost use Rattle.std.specs.Prelude.{◌≡◌, ◌≤◌, ◌++◌, ℕ, Bool, List, [], length, true, false};
ghost use Rattle.std.specs.Str.{IsAscii, IsUtf8};
ghost use Rattle.ir_types.specs.Words.{is_isolated};
ghost use Rattle.ir_tree.specs.Ids.{HasDistinctIds, IsNumberedFrom, ids};
ghost use Rattle.ir_tree.specs.Limits.{counts_fit, depth, most_around, most_ops};
ghost use Rattle.ir_tree.specs.Meaning.{Operation};
ghost use Rattle.ir_tree.specs.Sites.{operands_visible};
ghost use Rattle.ir_tree.specs.WellFormed.{IsValidTree};
ghost use Rattle.ir_tree_laws.specs.Renumbered.{renumbered, with_ids};
ghost use Rattle.ir_text_tokens.specs.Limits.{most_bytes};
ghost use Rattle.ir_text_operations.specs.Free.{no_names};
ghost use Rattle.ir_text_operations.specs.Spelling.{IsSingleOp, Spells, is_root};
ghost use Rattle.ir_text.specs.Printing.{Printed, printed_op, text_of};
ghost use Rattle.ir_text_modules.specs.Stays.{has_more};
ghost use Rattle.ir_text_modules.specs.Modules.{SpellsModule};
ghost use Rattle.ir_text_modules.specs.Runs.{Runs};
ghost use Rattle.ir_text_modules.specs.Denotation.{unwritten};
ghost use Rattle.ir_text_modules.specs.WrittenTrees.{IsWritable};

/// Printing an operation appends to the text that is already printed, and doesn't depend on it.
pub fn operations_are_appended()
    ensures { (margin : List ℕ) (t : Operation) (o : Printed) → (printed_op margin t o).text ≡ o.text ++ (printed_op margin t (unwritten o)).text }
{}

/// A printed operation is parsed back, with the ids 0, 1, .. in pre-order. The operation must be writable, with
/// visible operands and within the limits of a well-formed tree.
pub fn operations_are_read_back()
    ensures { (opaque : Bool) (f : ℕ → ℕ) (t : Operation) → IsWritable opaque t → counts_fit t ≡ true → operands_visible is_isolated t ≡ true → Runs f 0 (ids t) → HasDistinctIds t → depth t ≤ most_around → IsSingleOp opaque no_names most_ops 0 (text_of t) (with_ids f t) }
{}

/// The printed text of a writable tree without opaque types and attributes is ASCII.
pub fn texts_are_ascii()
    ensures { (t : Operation) → IsWritable false t → IsAscii (text_of t) }
{}

/// The printed text of a writable tree is UTF-8, with and without opaque types and attributes.
pub fn texts_are_utf8()
    ensures { (opaque : Bool) (t : Operation) → IsWritable opaque t → IsUtf8 (text_of t) }
{}

/// A printed module is parsed back, with its ids renumbered in pre-order from 0. The module must be well-formed and
/// writable, with distinct ids, and its text must be within the length limit of a text. The theorem holds with and
/// without opaque types and attributes.
pub fn modules_are_read_back()
    ensures { (opaque : Bool) (t : Operation) → IsValidTree is_isolated t → HasDistinctIds t → is_root t ≡ true → IsWritable opaque t → length (text_of t) ≤ most_bytes → Spells opaque (text_of t) (renumbered t) }
{}

/// A module whose ids are already in pre-order from 0, such as one that was read, is parsed back unchanged.
pub fn numbered_modules_are_read_back()
    ensures { (opaque : Bool) (t : Operation) → IsValidTree is_isolated t → IsNumberedFrom 0 t → is_root t ≡ true → IsWritable opaque t → length (text_of t) ≤ most_bytes → Spells opaque (text_of t) t }
{}

/// Such a module is also read back unchanged by `read_module`. With opaque types and attributes, the printed text
/// must have no lexeme that is `loc` or begins a definition, because the reader expands aliases and removes locations
/// first.
pub fn modules_come_back()
    ensures { (opaque : Bool) (t : Operation) → IsValidTree is_isolated t → IsNumberedFrom 0 t → is_root t ≡ true → IsWritable opaque t → length (text_of t) ≤ most_bytes → (opaque ≡ true → has_more 0 (text_of t) ≡ false) → SpellsModule opaque (text_of t) t }
{}

/// A text denotes at most one tree, with and without opaque types and attributes.
pub fn texts_spell_one_tree()
    ensures { (opaque : Bool) (bytes : List ℕ) (y z : Operation) → Spells opaque bytes y → Spells opaque bytes z → y ≡ z }
{}
