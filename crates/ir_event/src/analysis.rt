//! Listeners.
ghost use Rattle.std.specs.Prelude.{◌≡◌, true, OnErr, OnOk, MatchResult};
ghost use Rattle.op_registry.specs.types.Things.{ContextModel};
ghost use Rattle.ir_event.specs.Modules.{Module, context_model, module_in};
ghost use Rattle.ir_event.specs.Rows.{Shows};
ghost use Rattle.ir_event.specs.Subjects.{rows_about};
ghost use Rattle.ir_event.specs.Listener.{Listener, SameAnalysis};
ghost use Rattle.ir_event.specs.Notification.{IsNotified};
ghost use Rattle.ir_event.specs.declared.row.ReportFault.TheVariants.{Stale, Memory as NoMemory};

use crate::event::Event;
use crate::row::{Kind, Memory, ReportFault, Row};
use crate::subject::Subject;
use crate::subject_rows::keep_rows_about;
use crate::view::View;
use crate::world::World;

/// A listener that keeps one analysis of the module up to date. A new listener is stale until `begin`.
pub trait Analysis: Drop {
    /// The meaning of a listener: its kind, its analysis, the modules that it agrees with, and the events that it
    /// observed.
    ghost meaning: { Self → Listener };

    /// Returns the kind of the analysis.
    fn kind(&self) -> Kind
        ensures { result ≡ (meaning self.now).kind };

    /// Starts the analysis on the current module. If memory runs out, the listener is stale.
    fn begin(&mut self, world: &World) -> Result<(), Memory>
        ensures ok { OnOk result ((meaning self.new).agrees (context_model world.now) (module_in world.now)) }
        ensures err { OnErr result ((meaning self.new).stale ≡ true) }
        ensures same { SameAnalysis (meaning self.old) (meaning self.new) };

    /// Updates the analysis after an event. The view shows the module after the event, and is returned. If the listener
    /// agreed with the module before the event, or was stale, it reads the module at most `most` times.
    fn told<'a>(&mut self, view: View<'a>, event: Event) -> View<'a>
        ensures notified { IsNotified event view.entry result (meaning self.old) (meaning self.new) };

    /// Returns whether the analysis is stale, which it stays until `begin`.
    fn stale(&self) -> bool
        ensures { result ≡ (meaning self.now).stale };

    /// Returns the rows of the analysis, allocated by the allocator of the listener.
    fn report(&self) -> Result<Vec<Row>, ReportFault>
        ensures agreed { (c : ContextModel) (m : Module) → (meaning self.now).agrees c m → MatchResult result (λ rows. Shows c rows.items ((meaning self.now).analysis m.tree)) (λ e. e ≡ NoMemory) }
        ensures stale { (meaning self.now).stale ≡ true → MatchResult result (λ _. ⊥) (λ e. e ≡ Stale) };

    /// Returns the rows of the report that are about an operation or a value, in order, allocated by the allocator of
    /// the listener. `world` shows the module. A listener with a table by operation answers from the table, and any
    /// other selects the rows from its whole report.
    fn report_about(&self, world: &World, subject: &Subject) -> Result<Vec<Row>, ReportFault>
        ensures agreed { (meaning self.now).agrees (context_model world.now) (module_in world.now) → MatchResult result (λ rows. Shows (context_model world.now) rows.items (rows_about subject.now ((meaning self.now).analysis (module_in world.now).tree))) (λ e. e ≡ NoMemory) }
        ensures stale { (meaning self.now).stale ≡ true → MatchResult result (λ _. ⊥) (λ e. e ≡ Stale) }
    {
        let mut rows = match self.report() {
            Ok(rows) => rows,
            Err(fault) => return Err(fault),
        };
        keep_rows_about(subject, &mut rows);
        Ok(rows)
    }
}

/// A boxed listener behaves as the listener in the box.
impl Analysis for Box<dyn Analysis> {
    ghost meaning = { λ b. (Analysis-box b).meaning b.value };

    fn kind(&self) -> Kind {
        (**self).kind()
    }

    fn begin(&mut self, world: &World) -> Result<(), Memory> {
        (**self).begin(world)
    }

    fn told<'a>(&mut self, view: View<'a>, event: Event) -> View<'a> {
        (**self).told(view, event)
    }

    fn stale(&self) -> bool {
        (**self).stale()
    }

    fn report(&self) -> Result<Vec<Row>, ReportFault> {
        (**self).report()
    }

    fn report_about(&self, world: &World, subject: &Subject) -> Result<Vec<Row>, ReportFault> {
        (**self).report_about(world, subject)
    }
}
