//! The theorem on sessions, as the contract of a function with an empty body.
ghost use Rattle.std.specs.Prelude.{ℕ, Bool, List, length, ◌≤◌};
ghost use Rattle.mlir_work_run.specs.session.Limits.{most_input_bytes, most_script_bytes};
ghost use Rattle.mlir_work_run.specs.session.Parts.{module_text, script_text};
ghost use Rattle.mlir_work_run.specs.Live.{whole_lines};
ghost use Rattle.mlir_work_c.specs.declared.session.Session.{Session};
ghost use Rattle.mlir_work_c.specs.Opened.{Opened};
ghost use Rattle.mlir_work_c.specs.Talks.{IsOutputOf, Talks, AnsweredLine};

/// The answers of a session are an output of the whole input. If a session is opened on the module of an input, and
/// the lines of the input's script are run in it, then the text of the answers and the status are an output of a run
/// with `--brief` on that input, within the limits of a run.
pub fn sessions_are_whole_runs()
    ensures { (opaque : Bool) (limit : ℕ) (input : List ℕ) (s : Session) (reported : List AnsweredLine)
        → length input ≤ most_input_bytes → length (script_text input) ≤ most_script_bytes
        → Opened opaque (module_text input) limit s → Talks s (whole_lines (script_text input)) reported
        → IsOutputOf opaque limit input reported }
{}
