//! Theorems about rewriters. Each is a function that does nothing; its contract is the theorem.
ghost use Rattle.std.specs.Prelude.{List, [], ◌++◌};
ghost use Rattle.ir_event.specs.types.Sound.{Holds};
ghost use Rattle.ir_event.specs.declared.event.Event.{Event as Change};
ghost use Rattle.rewriter.specs.Panels.{AllAge, all_shown};
ghost use Rattle.rewriter.specs.RewriterCalls.{Benched, Notified, AgreesOrStale, Led};

use ir_event::analysis::Analysis;

/// If the listeners were notified of the events that lead from one module to another, each listener that agreed with
/// the first module agrees with the second or is stale, and no stale listener became fresh. A rewriter leads to itself
/// by no events, and leading is transitive.
pub fn led_benches_are_kept<L: Analysis>()
    ensures kept { (a b : Benched L) → Led L.meaning a b → AgreesOrStale L.meaning a → AgreesOrStale L.meaning b }
    ensures ages { (a b : Benched L) → Led L.meaning a b
        → AllAge (all_shown L.meaning a.listeners) (all_shown L.meaning b.listeners) }
    ensures none { (a : Benched L) → Notified L.meaning [] a a }
    ensures more { (es fs : List Change) (a b c : Benched L) → Holds b.transaction.ctx → Holds c.transaction.ctx
        → Notified L.meaning es a b → Notified L.meaning fs b c → Notified L.meaning (es ++ fs) a c }
{}
