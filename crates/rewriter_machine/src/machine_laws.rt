//! Theorems about the machine. Each is a function that does nothing; its contract is the theorem.
ghost use Rattle.std.specs.Prelude.{◌≡◌, List, ◌∷◌, None, true, false};
ghost use Rattle.ir_event.specs.types.Things.{ContextModel};
ghost use Rattle.ir_event.specs.trees.declared.value.Value.{Value as TreeValue};
ghost use Rattle.ir_event.specs.trees.Meaning.{IsSoundIn, isolated_in};
ghost use Rattle.ir_event.specs.trees.WellFormed.{IsWellFormed, Module as Numbered};
ghost use Rattle.ir_event.specs.declared.event.Event.{Event as Change};
ghost use Rattle.ir_event.specs.Modules.{module_meaning};
ghost use Rattle.ir_event.specs.Step.{Step as StepOf};
ghost use Rattle.rewriter_machine.specs.Edits.{Replace, edited_by, reason_by};
ghost use Rattle.rewriter_machine.specs.Contents.{NumberedEdit, EditIsOf, IsElementary, edit_meaning, edit_reason};
ghost use Rattle.rewriter_machine.specs.Contents.{edited, tests_in};
ghost use Rattle.rewriter_machine.specs.Machine.{State, Call, Done, Goes, OpenMark, Reply, Rollback, Shows};
ghost use Rattle.rewriter_machine.specs.Panels.{AllAge};
ghost use Rattle.rewriter_machine.specs.Runs.{Answered, Gives, IsMarking, IsNested, Runs, is_refused};

/// An edit of a module of context ids has, for the meaning of the module, the effect of the edit's meaning, and is
/// refused for the same reason.
pub fn edits_have_contents()
    ensures edited { (c : ContextModel) (e : NumberedEdit) (m : Numbered)
        → edited (edit_meaning c e) (module_meaning c m) ≡ module_meaning c (edited_by (tests_in c) e m) }
    ensures reason { (c : ContextModel) (e : NumberedEdit) (m : Numbered)
        → edit_reason (edit_meaning c e) (module_meaning c m) ≡ reason_by (tests_in c) e m }
{}

/// An accepted edit of one event is a step.
pub fn elementary_edits_are_steps()
    ensures { (c : ContextModel) (e : NumberedEdit) (m : Numbered) → IsElementary e → IsWellFormed (isolated_in c) m
        → IsSoundIn c m.tree → EditIsOf c m e → reason_by (tests_in c) e m ≡ None
        → (what : Change) × StepOf c what (module_meaning c m) (edited (edit_meaning c e) (module_meaning c m)) }
{}

/// An accepted replacement of a value keeps a module well-formed.
pub fn replacing_keeps_form()
    ensures { (c : ContextModel) (old new : TreeValue) (m : Numbered) → IsWellFormed (isolated_in c) m
        → reason_by (tests_in c) (Replace old new) m ≡ None
        → IsWellFormed (isolated_in c) (edited_by (tests_in c) (Replace old new) m) }
{}

/// A refused call leaves the module and the marks unchanged. It adds, removes or moves no analysis, and makes no stale
/// analysis fresh.
pub fn refusals_leave_all()
    ensures held { (s t : State) (call : Call) (reply : Reply) (shows : Shows) → Goes s call reply shows t
        → is_refused reply ≡ true → (t.held ≡ s.held) × (t.marks ≡ s.marks) }
    ensures panel { (s t : State) (call : Call) (reply : Reply) (shows : Shows) → Goes s call reply shows t
        → is_refused reply ≡ true → AllAge s.panel t.panel }
{}

/// The module and the marks after an accepted call.
pub fn accepted_calls_give()
    ensures { (s t : State) (call : Call) (reply : Reply) (shows : Shows) → Goes s call reply shows t
        → is_refused reply ≡ false → Gives call s.held s.marks t.held t.marks }
{}

/// If a mark is open, a rollback is accepted and restores the marked module, with its ids and its next id. So a mark,
/// then calls that close exactly the marks that they open, whatever their replies, then a rollback, restores the module
/// and the marks from before the mark.
pub fn rollbacks_restore()
    ensures newest { (s t : State) (reply : Reply) (shows : Shows) (k : OpenMark) (ks : List OpenMark)
        → Goes s Rollback reply shows t → s.marks ≡ k ∷ ks → (reply ≡ Done) × (t.held ≡ k.marked) × (t.marks ≡ ks) }
    ensures nested { (s t : State) (calls : List Answered) → Runs s calls t → IsNested calls → t.marks ≡ s.marks }
    ensures restored { (s u t v : State) (call : Call) (shows last : Shows) (calls : List Answered) (reply : Reply)
        → IsMarking call → Goes s call Done shows u → Runs u calls t → IsNested calls → Goes t Rollback reply last v
        → (reply ≡ Done) × (v.held ≡ s.held) × (v.marks ≡ s.marks) }
{}
