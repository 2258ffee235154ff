//! Theorems about events. Each is a function that does nothing; its contract is the theorem.
ghost use Rattle.std.specs.Prelude.{◌≡◌, ◌↔◌, ℕ, List, [], ◌∷◌, ◌++◌, Option, Some, option_map};
ghost use Rattle.op_registry.specs.types.Things.{ContextModel, IsExtendedBy};
ghost use Rattle.op_registry.specs.types.Sound.{Holds};
ghost use Rattle.op_registry.specs.types.Words.{is_isolated};
ghost use Rattle.op_registry.specs.types.declared.refusal.Refusal.{Refusal as Reason};
ghost use Rattle.ir_store.specs.trees.declared.value.Value.{Value as TreeValue};
ghost use Rattle.ir_store.specs.trees.Edits.{with_operand};
ghost use Rattle.ir_store.specs.trees.Meaning.{IsSoundIn, isolated_in};
ghost use Rattle.ir_store.specs.trees.WellFormed.{Module as Numbered, IsWellFormed};
ghost use Rattle.ir_event.specs.declared.event.Event.{Event as Edit};
ghost use Rattle.ir_event.specs.declared.event.Event.TheVariants.{SetOperand};
ghost use Rattle.ir_store.specs.Nodes.{Node as Numbers, node_of};
ghost use Rattle.ir_store.specs.Stored.{known};
ghost use Rattle.ir_event.specs.declared.world.World.{World as Whole};
ghost use Rattle.ir_event.specs.Modules.{Module, Node, NodeIsOf, module_meaning, node_meaning, node_of_op};
ghost use Rattle.ir_event.specs.Listener.{ShowsTaken};
ghost use Rattle.ir_store.specs.tree_laws.Changes.{operand_at};
ghost use Rattle.ir_event.specs.Step.{IsSorted, Step, inverse_of};
ghost use Rattle.ir_event.specs.Panels.{AllNotified, AllFollowed, AllKept, AttachedLast, Detached, BegunAgain, NotBegunAgain, kinds_of};

use crate::analysis::Analysis;

/// An event leads from one module to another exactly if its inverse leads back. The inverse of the inverse is the
/// event.
pub fn inverses_lead_back()
    ensures back { (c : ContextModel) (e : Edit) (m n : Module) → Step c e m n ↔ Step c (inverse_of e) n m }
    ensures twice { (e : Edit) → inverse_of (inverse_of e) ≡ e }
{}

/// A step in a context is a step in an extended context.
pub fn steps_stay()
    ensures { (c d : ContextModel) (e : Edit) (m n : Module) → Holds c → IsExtendedBy c d → Step c e m n → Step d e m n }
{}

/// The meaning of a well-formed module is well-formed, and has sorted dictionaries if the module is of the context.
/// Setting an operand of a module is a step between the meanings before and after.
pub fn operands_are_set_by_steps()
    ensures wellformed { (c : ContextModel) (m : Numbered) → IsWellFormed (isolated_in c) m → IsWellFormed is_isolated (module_meaning c m) }
    ensures sorted { (c : ContextModel) (m : Numbered) → IsSoundIn c m.tree → IsSorted (module_meaning c m) }
    ensures step { (c : ContextModel) (x k : ℕ) (old new : TreeValue) (m : Numbered) → IsWellFormed (isolated_in c) m → IsWellFormed (isolated_in c) (record m { tree = with_operand x k new m.tree }) → IsSoundIn c m.tree
        → operand_at x k m.tree ≡ Some old → Step c (SetOperand x k old new) (module_meaning c m) (module_meaning c (record m { tree = with_operand x k new m.tree })) }
{}

/// If listeners each agree or are stale, and all are notified of an event that leads from one module to another, with a
/// taken operation shown unchanged, then each agrees with the other module or is stale, and the kinds are unchanged.
/// Being notified of events one after another is following them.
pub fn notified_listeners_agree<L: Analysis>()
    ensures kept { (e : Edit) (c : ContextModel) (m n : Module) (shown : ℕ → Option Node) (xs ys : List L) → Step c e m n → ShowsTaken e m shown → AllNotified L.meaning e c n shown xs ys → AllKept L.meaning c m xs → AllKept L.meaning c n ys }
    ensures analysis_kinds { (e : Edit) (c : ContextModel) (m n : Module) (shown : ℕ → Option Node) (xs ys : List L) → Step c e m n → ShowsTaken e m shown → AllNotified L.meaning e c n shown xs ys → kinds_of L.meaning ys ≡ kinds_of L.meaning xs }
    ensures one { (e : Edit) (c : ContextModel) (m n : Module) (shown : ℕ → Option Node) (xs ys : List L) → Step c e m n → ShowsTaken e m shown → AllNotified L.meaning e c n shown xs ys → AllFollowed L.meaning (e ∷ []) c m c n xs ys }
    ensures more { (es fs : List Edit) (c d f : ContextModel) (m n p : Module) (xs ys zs : List L) → AllFollowed L.meaning es c m d n xs ys → AllFollowed L.meaning fs d n f p ys zs → AllFollowed L.meaning (es ++ fs) c m f p xs zs }
    ensures followed { (es : List Edit) (c d : ContextModel) (m n : Module) (xs ys : List L) → AllFollowed L.meaning es c m d n xs ys → AllKept L.meaning c m xs → AllKept L.meaning d n ys }
{}

/// If listeners each agree with a module or are stale, they still do after one is attached, detached or restarted, and
/// after the context grows.
pub fn agreeing_listeners_stay_so<L: Analysis>()
    ensures attached { (c : ContextModel) (m : Module) (b : L) (xs ys : List L) → AttachedLast L.meaning c m b xs ys → AllKept L.meaning c m xs → AllKept L.meaning c m ys }
    ensures detached { (kind : ℕ) (c : ContextModel) (m : Module) (xs ys : List L) → Detached L.meaning kind xs ys → AllKept L.meaning c m xs → AllKept L.meaning c m ys }
    ensures begun { (kind : ℕ) (c : ContextModel) (m : Module) (xs ys : List L) → BegunAgain L.meaning kind (λ b. b.agrees c m) xs ys → AllKept L.meaning c m xs → AllKept L.meaning c m ys }
    ensures not_begun { (kind : ℕ) (c : ContextModel) (m : Module) (xs ys : List L) (e : Reason) → NotBegunAgain L.meaning kind xs ys e → AllKept L.meaning c m xs → AllKept L.meaning c m ys }
    ensures grown { (c d : ContextModel) (m : Module) (xs : List L) → Holds c → Holds d → IsExtendedBy c d → AllKept L.meaning c m xs → AllKept L.meaning d m xs }
{}

/// The ids of a node are ids of the context, and the IR state shows the node's meaning.
pub fn nodes_are_of_the_context()
    ensures known { (w : Whole) (x : ℕ) (n : Numbers) → option_map node_of (known x w.store) ≡ Some n → NodeIsOf w.ctx n }
    ensures shown { (w : Whole) (x : ℕ) (n : Numbers) → option_map node_of (known x w.store) ≡ Some n → node_of_op w x ≡ Some (node_meaning w.ctx n) }
{}
