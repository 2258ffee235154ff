//! Theorems on round trips: printed names parse again, and splitting an input loses no byte. Each is the contract of
//! a function with an empty body.
ghost use Rattle.std.specs.Prelude.{◌≡◌, ◌^◌, ◌<◌, ℕ, List, Some};
ghost use Rattle.std.specs.Fmt.{decimal};
ghost use Rattle.ir_event.specs.trees.declared.value.Value.TheVariants.{Result as ResultOf, Arg};
ghost use Rattle.mlir_work_script_base.specs.Kinds.{kind_of, kind_word};
ghost use Rattle.mlir_work_script_base.specs.Numbers.{number_of};
ghost use Rattle.mlir_work_script_base.specs.Parts.{IsSplit, module_text, script_text};
ghost use Rattle.mlir_work_script_base.specs.Values.{op_of, op_text, value_of, value_text};

/// A printed number, operation or value parses as itself.
pub fn names_read_back()
    ensures number { (n : ℕ) → n < 2 ^ 32 → number_of (decimal n) ≡ Some n }
    ensures op { (n : ℕ) → n < 2 ^ 32 → op_of (op_text n) ≡ Some n }
    ensures result_value { (op place : ℕ) → op < 2 ^ 32 → place < 2 ^ 32 →
        value_of (value_text (ResultOf op place)) ≡ Some (ResultOf op place) }
    ensures argument { (op region place : ℕ) → op < 2 ^ 32 → region < 2 ^ 32 → place < 2 ^ 32 →
        value_of (value_text (Arg op region place)) ≡ Some (Arg op region place) }
{}

/// Each kind has exactly one word, and the word parses as the kind.
pub fn kinds_have_one_word()
    ensures again { (n : ℕ) → n < 256 → kind_of (kind_word n) ≡ Some n }
    ensures small { (word : List ℕ) (n : ℕ) → kind_of word ≡ Some n → n < 256 }
    ensures only { (word : List ℕ) (n : ℕ) → kind_of word ≡ Some n → word ≡ kind_word n }
{}

/// An input is the text of its module, the divider and its script, or the text of its module alone.
pub fn inputs_are_split()
    ensures { (input : List ℕ) → IsSplit input (module_text input) (script_text input) }
{}
