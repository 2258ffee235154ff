//! Theorems about the members of reply lines, for all numbers. Each is the contract of a function with an empty body.
ghost use Rattle.std.specs.Prelude.{◌≡◌, ◌^◌, ◌<◌, ◌++◌, [], ◌∷◌, ℕ, List, Some, codes, decimal, true};
ghost use Rattle.mlir_work_json.specs.Cuts.{cells, is_whole};
ghost use Rattle.mlir_work_json.specs.Items.{Number, Texts, text};
ghost use Rattle.mlir_work_json.specs.Lines.{line_members};
ghost use Rattle.mlir_work_json.specs.Numbers.{number_of};
ghost use Rattle.mlir_work_json.specs.Replies.{answer_members, place_members};
ghost use Rattle.mlir_work_json.specs.RowLaws.{IsSmall};
ghost use Rattle.mlir_work_json.specs.Rows.{kind};
ghost use Rattle.mlir_work_script_base.specs.Values.{op_text, value_text};
ghost use Rattle.ir_event.specs.trees.declared.value.Value.{Value};

/// A printed number parses as the same number.
pub fn numbers_stay()
    ensures { (n : ℕ) → n < 2 ^ 32 → number_of (decimal n) ≡ Some n }
{}

/// The object of a reply has the number of the line and the members of the rest of the line.
pub fn replies_have_numbers()
    ensures { (n : ℕ) (answer : List ℕ) → n < 2 ^ 32 → line_members (decimal n ++ 32 ∷ answer) ≡ (codes "n", Number n) ∷ answer_members answer }
{}

/// The object of a refusal has its number, its word, and the members of the rest of the line.
pub fn refusals_have_words()
    ensures refused { (m : ℕ) (word : List ℕ) (place : List ℕ) → m < 2 ^ 32 → is_whole word ≡ true → answer_members (codes "refused " ++ (decimal m ++ 32 ∷ (word ++ 32 ∷ place))) ≡ (codes "refused", Number m) ∷ text (codes "word") word ∷ place_members place }
    ensures about { (rest : List ℕ) → place_members (codes "about " ++ rest) ≡ (codes "about", Texts (cells rest)) ∷ [] }
    ensures alone { (m : ℕ) (word : List ℕ) → m < 2 ^ 32 → is_whole word ≡ true → answer_members (codes "refused " ++ (decimal m ++ 32 ∷ word)) ≡ (codes "refused", Number m) ∷ text (codes "word") word ∷ [] }
{}

/// Each word of the note of a refusal is one cell.
pub fn words_are_cells()
    ensures { (word rest : List ℕ) → is_whole word ≡ true → cells (word ++ 32 ∷ rest) ≡ word ∷ cells rest }
{}

/// The object of a row of `uses` has the value, the operation and the number of the operand that the row prints.
pub fn uses_are_read_back()
    ensures { (v : Value) (user operand : ℕ) → IsSmall v → user < 2 ^ 32 → operand < 2 ^ 32
        → line_members (value_text v ++ 32 ∷ (op_text user ++ 32 ∷ decimal operand))
        ≡ kind (codes "uses") ∷ text (codes "value") (value_text v) ∷ text (codes "user") (op_text user) ∷ (codes "operand", Number operand) ∷ [] }
{}

/// The object of a row of `dead` or `diagnostics` has the operation, and the rule, that the row prints.
pub fn operations_are_read_back()
    ensures dead { (op : ℕ) → op < 2 ^ 32 → line_members (op_text op) ≡ kind (codes "dead") ∷ text (codes "op") (op_text op) ∷ [] }
    ensures diagnostics { (op rule : ℕ) → op < 2 ^ 32 → line_members (op_text op ++ 32 ∷ (codes "V" ++ decimal rule))
        ≡ kind (codes "diagnostics") ∷ text (codes "op") (op_text op) ∷ text (codes "rule") (codes "V" ++ decimal rule) ∷ [] }
{}
