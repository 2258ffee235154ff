//! Round-trip theorems for parts of a module. The text after a printed part is arbitrary, if it doesn't extend the
//! last word of the part.
ghost use Rattle.std.specs.Prelude.{◌≡◌, ◌≤◌, ◌++◌, ℕ, Bool, List, [], Some, codes, length, true};
ghost use Rattle.std.specs.List.{AllByRecursion};
ghost use Rattle.ir_types.specs.Limits.{most_depth, most_entries};
ghost use Rattle.ir_types.specs.Terms.{AttrTerm, Function, TypeTerm};
ghost use Rattle.ir_tree.specs.Limits.{most_items};
ghost use Rattle.ir_tree.specs.Meaning.{key_before, rises};
ghost use Rattle.ir_text_tokens.specs.declared.token.Mark.TheVariants.{Less, OpenCurly};
ghost use Rattle.ir_text_types.specs.Grammars.{IsMark, Not};
ghost use Rattle.ir_text_types.specs.TypeGrammar.{types_of, IsFunctionType, IsType};
ghost use Rattle.ir_text_types.specs.TypeReading.{many};
ghost use Rattle.ir_text_attributes.specs.AttrGrammar.{EntryTerm, IsAttr};
ghost use Rattle.ir_text_operations.specs.Entries.{attributes_of, properties_of};
ghost use Rattle.ir_text_operations.specs.OpGrammar.{IsAttributes, IsProperties, is_property};
ghost use Rattle.ir_text.specs.AttrText.{attr_text};
ghost use Rattle.ir_text.specs.Printing.{attributes_text, properties_text};
ghost use Rattle.ir_text.specs.TypeText.{type_text};
ghost use Rattle.ir_text_modules.specs.Kept.{EndsType};
ghost use Rattle.ir_text_modules.specs.Written.{FitsType};
ghost use Rattle.ir_text_modules.specs.WrittenAttributes.{AreOthers, EndsAttr, FitsAttr, IsWritableDictionary};

/// A printed type is parsed back from its whole text, with and without opaque types.
pub fn types_are_read_back()
    ensures { (opaque : Bool) (depth : ℕ) (t : TypeTerm) (rest : List ℕ) → depth ≤ most_depth → FitsType opaque depth t → EndsType opaque rest → IsType opaque depth t (type_text t ++ rest) rest }
{}

/// A type that is parsed is writable within the same depth, so it is parsed back after printing. The same holds for
/// the function type of an operation.
pub fn types_that_are_read_are_written()
    ensures ty { (opaque : Bool) (depth : ℕ) (t : TypeTerm) (old new : List ℕ) → IsType opaque depth t old new → FitsType opaque depth t }
    ensures function { (opaque : Bool) (x : List TypeTerm × List TypeTerm) (old new : List ℕ) → IsFunctionType opaque x old new → (AllByRecursion (FitsType opaque most_depth) x.0 × (length x.0 ≤ many)) × (AllByRecursion (FitsType opaque most_depth) x.1 × (length x.1 ≤ most_items)) }
{}

/// A printed function type of an operation is parsed back, if it has at most as many outputs as an operation may have
/// results.
pub fn function_types_are_read_back()
    ensures { (opaque : Bool) (inputs outputs : List TypeTerm) (rest : List ℕ) → length inputs ≤ many → length outputs ≤ most_items → AllByRecursion (FitsType opaque most_depth) inputs → AllByRecursion (FitsType opaque most_depth) outputs → EndsType opaque rest → IsFunctionType opaque (inputs, outputs) (type_text (Function (types_of inputs) (types_of outputs)) ++ rest) rest }
{}

/// A printed attribute is parsed back from its whole text, if the text after it doesn't extend a name and doesn't
/// begin with `::`.
pub fn attributes_are_read_back()
    ensures { (opaque : Bool) (depth : ℕ) (a : AttrTerm) (rest : List ℕ) → depth ≤ most_depth → FitsAttr opaque depth a → EndsAttr opaque rest → IsAttr opaque depth a (attr_text a ++ rest) rest }
{}

/// An attribute may be followed by a comma, by a closing bracket, or by the end of the text.
pub fn attributes_end_before_marks()
    ensures comma { (opaque : Bool) (rest : List ℕ) → EndsAttr opaque (codes "," ++ rest) }
    ensures square { (opaque : Bool) (rest : List ℕ) → EndsAttr opaque (codes "]" ++ rest) }
    ensures curly { (opaque : Bool) (rest : List ℕ) → EndsAttr opaque (codes "}" ++ rest) }
    ensures nothing { (opaque : Bool) → EndsAttr opaque [] }
{}

/// The printed dictionaries of an operation are parsed back, if they are within the limit of entries: the properties
/// if no `<` follows, and the attributes if no `{` follows.
pub fn dictionaries_are_read_back()
    ensures properties { (opaque : Bool) (es : List EntryTerm) (rest : List ℕ) → length es ≤ most_entries → IsWritableDictionary opaque es → Not IsMark Less rest → IsProperties opaque es (properties_text es ++ rest) rest }
    ensures attributes { (opaque : Bool) (op : List ℕ) (properties es : List EntryTerm) (rest : List ℕ) → length es ≤ most_entries → IsWritableDictionary opaque es → AreOthers op properties es → Not IsMark OpenCurly rest → IsAttributes opaque op properties es (attributes_text es ++ rest) rest }
{}

/// Parsing keeps sorted dictionaries if no attribute of the operation is a property.
pub fn sorted_dictionaries_stay()
    ensures properties { (op : List ℕ) (properties es : List EntryTerm) → rises key_before properties ≡ true → AreOthers op properties es → properties_of (is_property (Some op)) key_before properties es ≡ properties }
    ensures attributes { (op : List ℕ) (properties es : List EntryTerm) → rises key_before es ≡ true → AreOthers op properties es → attributes_of (is_property (Some op)) key_before es ≡ es }
{}
