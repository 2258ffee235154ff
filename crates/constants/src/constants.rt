//! The listener of known values.
ghost use Rattle.std.specs.Prelude.{◌≡◌, true};
ghost use Rattle.ir_event.specs.Modules.{Module, context_model, module_in};
ghost use Rattle.ir_event.specs.Notification.{IsNotified};
ghost use Rattle.ir_event.specs.Step.{Step};
ghost use Rattle.constants.specs.Tables.{teaches_nothing};

use crate::collect::enter_module;
use crate::follow::follow;
use crate::packed::PackedBits;
use crate::report::{lines, lines_about};
use ir_event::analysis::Analysis;
use ir_event::event::Event;
use ir_event::row::{Kind, Memory, ReportFault, Row};
use ir_event::subject::Subject;
use ir_event::types::ids::OpId;
use ir_event::view::View;
use ir_event::world::World;
use listeners_support::IdMap;
use std::alloc::Global;

/// The analysis `constants`: the results with known values, and these values (Operation Canonicalization,
/// "Canonicalizing with the `fold` method").
///
/// It keeps each known value by the id of its operation. If an operation changes, the values that depend on it are
/// forgotten, along uses; then the values that can be known are learned, along uses.
#[derive(Drop)]
pub struct Constants {
    alloc: Global,
    table: IdMap<PackedBits>,
    stale: bool,
}

impl Constants {
    ghost use Rattle.constants.specs.Listeners.{constants_listener};

    /// Returns a listener that hasn't begun and is stale.
    pub fn new(alloc: Global) -> Constants
        ensures { (constants_listener result).stale ≡ true }
    {
        Constants {
            alloc,
            table: IdMap::new(alloc),
            stale: true,
        }
    }
}

impl Analysis for Constants {
    ghost use Rattle.constants.specs.Listeners.{constants_listener};

    ghost meaning = { constants_listener };

    fn kind(&self) -> Kind {
        Kind::CONSTANTS
    }

    fn begin(&mut self, world: &World) -> Result<(), Memory> {
        // The old table is dropped first, to free its memory.
        self.table = IdMap::new(self.alloc);
        self.stale = true;
        if !enter_module(self.alloc, world, &mut self.table) {
            return Err(Memory);
        }
        self.stale = false;
        Ok(())
    }

    /// If the listener agreed before an operation was removed or moved, it agrees afterwards and isn't stale.
    fn told<'a>(&mut self, view: View<'a>, event: Event) -> View<'a>
        ensures notified { IsNotified event view.entry result (constants_listener self.old) (constants_listener self.new) }
        ensures grown { (m : Module) → teaches_nothing event ≡ true
            → Step (context_model view.entry.world.now) event m (module_in view.entry.world.now)
            → (constants_listener self.old).agrees (context_model view.entry.world.now) m
            → (constants_listener self.new).agrees (context_model view.entry.world.now) (module_in view.entry.world.now) }
    {
        if self.stale {
            return view;
        }
        let mut view = view;
        if !follow(self.alloc, &mut self.table, &mut view, &event) {
            self.stale = true;
        }
        view
    }

    fn stale(&self) -> bool {
        self.stale
    }

    fn report(&self) -> Result<Vec<Row>, ReportFault> {
        if self.stale {
            return Err(ReportFault::Stale);
        }
        match lines(self.alloc, &self.table) {
            Ok(rows) => Ok(rows),
            Err(_) => Err(ReportFault::Memory),
        }
    }

    fn report_about(&self, _world: &World, subject: &Subject) -> Result<Vec<Row>, ReportFault> {
        if self.stale {
            return Err(ReportFault::Stale);
        }
        match lines_about(self.alloc, &self.table, subject) {
            Ok(rows) => Ok(rows),
            Err(_) => Err(ReportFault::Memory),
        }
    }
}
