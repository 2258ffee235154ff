//! The listener of dead operations.
ghost use Rattle.std.specs.Prelude.{◌≡◌, ◌≤◌, ◌+◌, ℕ, None, true};
ghost use Rattle.std.specs.Bool.{OnTrue};
ghost use Rattle.ir_event.specs.Modules.{Module, context_model, module_in, node_of_op};
ghost use Rattle.ir_event.specs.Listener.{ShowsTaken, is_take};
ghost use Rattle.ir_event.specs.Notification.{IsNotified};
ghost use Rattle.ir_event.specs.Step.{Step};
ghost use Rattle.effects.specs.Counts.{counts_in, Counted};

use crate::counting::follow_counts;
use crate::counts::no_counts;
use crate::effects::Effects;
use crate::report::{dead_lines, dead_lines_about};
use crate::tally::{enter_all, raise_each};
use crate::use_counts::UseCounts;
use ir_event::analysis::Analysis;
use ir_event::event::Event;
use ir_event::row as report;
use ir_event::row::{Kind, Memory, ReportFault};
use ir_event::subject::Subject;
use ir_event::view::View;
use ir_event::world::World;
use std::alloc::Global;

/// The analysis `dead`: the operations that can be erased without a difference (Operation Canonicalization, "General
/// Design").
///
/// It keeps the effects of operations, like the listener of effects, and the number of uses of each operation's
/// results.
#[derive(Drop)]
pub struct Dead {
    alloc: Global,
    effects: Effects,
    counts: UseCounts,
    stale: bool,
}

impl Dead {
    ghost use Rattle.effects.specs.Listeners.{dead_listener};

    /// Returns a listener that hasn't begun and is stale.
    pub fn new(alloc: Global) -> Dead
        ensures { (dead_listener result).stale ≡ true }
    {
        Dead {
            alloc,
            effects: Effects::new(alloc),
            counts: no_counts(alloc),
            stale: true,
        }
    }
}

/// Counts the uses of results in the module, given an empty table. Returns `false` if memory ran out.
fn tally(world: &World, counts: &mut UseCounts) -> bool
    ensures { ((y : ℕ) → counts_in counts.old y ≡ None)
        → OnTrue result (Counted (counts_in counts.new) (module_in world.now).tree) }
{
    let Ok(ops) = world.store.operations() else {
        return false;
    };
    if !enter_all(world, &ops, counts) {
        return false;
    }
    raise_each(&world.store, &ops, counts)
}

impl Analysis for Dead {
    ghost use Rattle.effects.specs.Listeners.{dead_listener};

    ghost meaning = { dead_listener };

    fn kind(&self) -> Kind {
        Kind::DEAD
    }

    fn begin(&mut self, world: &World) -> Result<(), Memory> {
        // The old table is dropped first, to free its memory.
        self.counts = no_counts(self.alloc);
        self.stale = true;
        self.effects.begin(world)?;
        if !tally(world, &mut self.counts) {
            return Err(Memory);
        }
        self.stale = false;
        Ok(())
    }

    /// If the listener agreed before an operation was removed, and the view shows the operation, the listener agrees
    /// afterwards and isn't stale. The listener looks at most twice, at an inserted or removed operation.
    fn told<'a>(&mut self, view: View<'a>, event: Event) -> View<'a>
        ensures notified { IsNotified event view.entry result (dead_listener self.old) (dead_listener self.new) }
        ensures twice { result.looks ≤ view.entry.looks + 2 }
        ensures take { (m : Module) → is_take event ≡ true → Step (context_model view.entry.world.now) event m
            (module_in view.entry.world.now) → ShowsTaken event m (node_of_op view.entry.world.now)
            → (dead_listener self.old).agrees (context_model view.entry.world.now) m
            → (dead_listener self.new).agrees (context_model view.entry.world.now) (module_in view.entry.world.now) }
    {
        if self.stale {
            return view;
        }
        let mut view = self.effects.told(view, event);
        let followed = follow_counts(&mut self.counts, &mut view, &event);
        self.stale = self.effects.stale() || !followed;
        view
    }

    fn stale(&self) -> bool {
        self.stale
    }

    fn report(&self) -> Result<Vec<report::Row>, ReportFault> {
        if self.stale {
            return Err(ReportFault::Stale);
        }
        match dead_lines(self.alloc, self.effects.rows(), &self.counts) {
            Ok(rows) => Ok(rows),
            Err(_) => Err(ReportFault::Memory),
        }
    }

    fn report_about(
        &self,
        _world: &World,
        subject: &Subject,
    ) -> Result<Vec<report::Row>, ReportFault> {
        if self.stale {
            return Err(ReportFault::Stale);
        }
        match dead_lines_about(self.alloc, self.effects.rows(), &self.counts, subject) {
            Ok(rows) => Ok(rows),
            Err(_) => Err(ReportFault::Memory),
        }
    }
}
