//! Theorems about an input that is built from a module and scripts. Each is the contract of a function with an empty
//! body.
ghost use Rattle.std.specs.Prelude.{◌≡◌, ◌++◌, ℕ, List, [], ◌∷◌, true, false};
ghost use Rattle.mlir_work_script_base.specs.Lines.{lines_of};
ghost use Rattle.mlir_work_script_base.specs.Parts.{module_text, script_text};
ghost use Rattle.mlir_work_cli.specs.Inputs.{all_lines, input_of, is_divided, whole_lines};

/// The lines of the script are those of the text's own script, followed by those of each further script.
pub fn scripts_follow()
    ensures { (text : List ℕ) (scripts : List (List ℕ)) → lines_of (script_text (input_of text scripts)) ≡ lines_of (script_text text) ++ all_lines scripts }
{}

/// The module is that of the text. If scripts are added to a text without a divider, its last line gets a line feed.
pub fn modules_stay()
    ensures divided { (text : List ℕ) (scripts : List (List ℕ)) → is_divided text ≡ true → module_text (input_of text scripts) ≡ module_text text }
    ensures alone { (text : List ℕ) (s : List ℕ) (scripts : List (List ℕ)) → is_divided text ≡ false → module_text (input_of text (s ∷ scripts)) ≡ whole_lines text }
{}
