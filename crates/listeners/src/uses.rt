//! The listener of uses.
ghost use Rattle.std.specs.Prelude.{◌≡◌, true, IfOk};
ghost use Rattle.ir_event.specs.Modules.{Module, context_model, module_in, node_of_op};
ghost use Rattle.ir_event.specs.Listener.{ShowsTaken};
ghost use Rattle.ir_event.specs.Notification.{IsNotified};
ghost use Rattle.ir_event.specs.Step.{Step};
ghost use Rattle.listeners.specs.Following.{adds_no_use};
ghost use Rattle.listeners.specs.Uses.{all_uses, in_order};
ghost use Rattle.listeners.specs.Tables.{table_uses};

use crate::about::rows_about;
use crate::collect::collect;
use crate::follow::follow;
use crate::listing::Listing;
use crate::report::rows_of_table;
use crate::table::UseTable;
use ir_event::analysis::Analysis;
use ir_event::event::Event;
use ir_event::row::{Kind, Memory, ReportFault, Row};
use ir_event::subject::Subject;
use ir_event::view::View;
use ir_event::world::World;
use std::alloc::{AllocError, Global};

/// The analysis `uses`: each use of each value, in order.
///
/// The table is updated after every event. The listener becomes stale if memory runs out, which only `Put` and
/// `SetOperand` need.
#[derive(Drop)]
pub struct Uses {
    alloc: Global,
    table: UseTable,
    stale: bool,
}

impl Uses {
    ghost use Rattle.listeners.specs.Listeners.{uses_listener};

    /// Returns a listener that hasn't begun and is stale.
    pub fn new(alloc: Global) -> Uses
        ensures { (uses_listener result).stale ≡ true }
    {
        Uses {
            alloc,
            table: UseTable::new(alloc, Listing::new(alloc)),
            stale: true,
        }
    }
}

/// Returns the table of the uses of the module.
fn table_in(alloc: Global, world: &World) -> Result<UseTable, AllocError>
    ensures { IfOk result (λ table. in_order (table_uses table) ≡ all_uses world.now.store.module_of.tree) }
{
    let listed = collect(alloc, world)?;
    // If ids ascend, operations with operands have ids below this. The number only affects how much memory is reserved.
    let headroom = listed.len().saturating_add(64);
    UseTable::with_headroom(alloc, listed, headroom)
}

impl Analysis for Uses {
    ghost use Rattle.listeners.specs.Listeners.{uses_listener};

    ghost meaning = { uses_listener };

    fn kind(&self) -> Kind {
        Kind::USES
    }

    fn begin(&mut self, world: &World) -> Result<(), Memory> {
        // The old table is dropped first, to free its memory.
        self.table = UseTable::new(self.alloc, Listing::new(self.alloc));
        self.stale = true;
        match table_in(self.alloc, world) {
            Ok(table) => {
                self.table = table;
                self.stale = false;
                Ok(())
            }
            Err(_) => Err(Memory),
        }
    }

    /// If the listener agreed before an operation was removed or moved, or an entry was set, it agrees afterwards and
    /// isn't stale.
    fn told<'a>(&mut self, view: View<'a>, event: Event) -> View<'a>
        ensures notified { IsNotified event view.entry result (uses_listener self.old) (uses_listener self.new) }
        ensures grown { (m : Module) → adds_no_use event ≡ true → Step (context_model view.entry.world.now) event m
            (module_in view.entry.world.now) → ShowsTaken event m (node_of_op view.entry.world.now)
            → (uses_listener self.old).agrees (context_model view.entry.world.now) m
            → (uses_listener self.new).agrees (context_model view.entry.world.now) (module_in view.entry.world.now) }
    {
        if self.stale {
            return view;
        }
        let mut view = view;
        if !follow(self.alloc, &mut self.table, &mut view, &event) {
            self.stale = true;
        }
        view
    }

    fn stale(&self) -> bool {
        self.stale
    }

    fn report(&self) -> Result<Vec<Row>, ReportFault> {
        if self.stale {
            return Err(ReportFault::Stale);
        }
        match rows_of_table(self.alloc, &self.table) {
            Ok(rows) => Ok(rows),
            Err(_) => Err(ReportFault::Memory),
        }
    }

    fn report_about(&self, world: &World, subject: &Subject) -> Result<Vec<Row>, ReportFault> {
        if self.stale {
            return Err(ReportFault::Stale);
        }
        match rows_about(self.alloc, world, subject) {
            Ok(rows) => Ok(rows),
            Err(_) => Err(ReportFault::Memory),
        }
    }
}
