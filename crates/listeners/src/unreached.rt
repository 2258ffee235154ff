//! The listener of private symbols that nothing reaches.
ghost use Rattle.std.specs.Prelude.{◌≡◌, true};

use crate::unreached_report::lines;
use ir_event::analysis::Analysis;
use ir_event::event::Event;
use ir_event::row::{Kind, Memory, ReportFault, Row};
use ir_event::subject::Subject;
use ir_event::subject_rows::keep_rows_about;
use ir_event::view::View;
use ir_event::world::World;
use listeners_symbols::roles::{Roles, may_hide};
use listeners_symbols::table::{follow, tabulate};
use std::alloc::Global;

/// The analysis `unreached`: the private symbols of a module that nothing reaches (Symbols and Symbol Tables, "Symbol
/// Visibility").
///
/// It keeps the same roles as the listener of symbols. A report resolves the references and marks what is reached.
#[derive(Drop)]
pub struct Unreached {
    alloc: Global,
    roles: Roles,
    stale: bool,
}

impl Unreached {
    ghost use Rattle.listeners.specs.UnreachedListener.{unreached_listener};

    /// The kind of the analysis.
    pub const KIND: Kind = Kind::UNREACHED;

    /// Returns a listener that hasn't begun and is stale.
    pub fn new(alloc: Global) -> Unreached
        ensures { (unreached_listener result).stale ≡ true }
    {
        Unreached {
            alloc,
            roles: Roles::new(alloc),
            stale: true,
        }
    }
}

impl Analysis for Unreached {
    ghost use Rattle.listeners.specs.UnreachedListener.{unreached_listener};

    ghost meaning = { unreached_listener };

    fn kind(&self) -> Kind {
        Unreached::KIND
    }

    fn begin(&mut self, world: &World) -> Result<(), Memory> {
        // The old table is dropped first, to free its memory.
        self.roles = Roles::new(self.alloc);
        self.stale = true;
        world.ctx.sound();
        match tabulate(self.alloc, world) {
            Ok(roles) => {
                self.roles = roles;
                self.stale = false;
                Ok(())
            }
            Err(_) => Err(Memory),
        }
    }

    /// The listener looks only at the event's operation, at most twice and once for each operand. It doesn't look at a
    /// removed operation.
    fn told<'a>(&mut self, view: View<'a>, event: Event) -> View<'a> {
        if self.stale {
            return view;
        }
        let mut view = view;
        view.context().sound();
        match follow(self.alloc, &mut self.roles, &mut view, &event) {
            Ok(()) => view,
            Err(_) => {
                self.stale = true;
                view
            }
        }
    }

    fn stale(&self) -> bool {
        self.stale
    }

    fn report(&self) -> Result<Vec<Row>, ReportFault> {
        if self.stale {
            return Err(ReportFault::Stale);
        }
        match lines(self.alloc, &self.roles) {
            Ok(rows) => Ok(rows),
            Err(_) => Err(ReportFault::Memory),
        }
    }

    fn report_about(&self, _world: &World, subject: &Subject) -> Result<Vec<Row>, ReportFault> {
        if self.stale {
            return Err(ReportFault::Stale);
        }
        self.roles.ordered();
        if !may_hide(&self.roles, subject) {
            return Ok(Vec::new(self.alloc));
        }
        let Ok(mut rows) = lines(self.alloc, &self.roles) else {
            return Err(ReportFault::Memory);
        };
        keep_rows_about(subject, &mut rows);
        Ok(rows)
    }
}
