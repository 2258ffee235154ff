//! The listener of symbols.
ghost use Rattle.std.specs.Prelude.{◌≡◌, true};

use crate::definers::Definers;
use crate::report::lines;
use crate::roles::{Roles, may_tell};
use crate::table::{follow, tabulate};
use ir_event::analysis::Analysis;
use ir_event::event::Event;
use ir_event::row::{Kind, Memory, ReportFault, Row};
use ir_event::subject::Subject;
use ir_event::subject_rows::keep_rows_about;
use ir_event::view::View;
use ir_event::world::World;
use std::alloc::Global;

/// The analysis `symbols`: the symbols that a module defines, and the definitions to which its references resolve
/// (Symbols and Symbol Tables).
///
/// It keeps the roles of operations, which depend on the operation and its position, except most that contribute
/// nothing. A report resolves the references.
#[derive(Drop)]
pub struct Symbols {
    alloc: Global,
    /// The operations that may define symbols.
    definers: Definers,
    roles: Roles,
    stale: bool,
}

impl Symbols {
    ghost use Rattle.listeners_symbols.specs.Listeners.{symbols_listener};

    /// Returns a listener that hasn't begun and is stale. `definers` are the operations that may define symbols.
    pub fn new(alloc: Global, definers: Definers) -> Symbols
        ensures stale { (symbols_listener result).stale ≡ true }
        ensures definers { result.definers ≡ definers }
    {
        Symbols {
            alloc,
            definers,
            roles: Roles::new(alloc),
            stale: true,
        }
    }
}

impl Analysis for Symbols {
    ghost use Rattle.listeners_symbols.specs.Listeners.{symbols_listener};

    ghost meaning = { symbols_listener };

    fn kind(&self) -> Kind {
        Kind::SYMBOLS
    }

    fn begin(&mut self, world: &World) -> Result<(), Memory> {
        // The old table is dropped first, to free its memory.
        self.roles = Roles::new(self.alloc);
        self.stale = true;
        world.ctx.sound();
        match tabulate(self.alloc, world) {
            Ok(roles) => {
                self.roles = roles;
                self.stale = false;
                Ok(())
            }
            Err(_) => Err(Memory),
        }
    }

    /// The listener looks only at the event's operation, at most twice and once for each operand. It doesn't look at a
    /// removed operation.
    fn told<'a>(&mut self, view: View<'a>, event: Event) -> View<'a> {
        if self.stale {
            return view;
        }
        let mut view = view;
        view.context().sound();
        match follow(self.alloc, &mut self.roles, &mut view, &event) {
            Ok(()) => view,
            Err(_) => {
                self.stale = true;
                view
            }
        }
    }

    fn stale(&self) -> bool {
        self.stale
    }

    fn report(&self) -> Result<Vec<Row>, ReportFault> {
        if self.stale {
            return Err(ReportFault::Stale);
        }
        match lines(self.alloc, self.definers, &self.roles) {
            Ok(rows) => Ok(rows),
            Err(_) => Err(ReportFault::Memory),
        }
    }

    fn report_about(&self, _world: &World, subject: &Subject) -> Result<Vec<Row>, ReportFault> {
        if self.stale {
            return Err(ReportFault::Stale);
        }
        self.roles.ordered();
        if !may_tell(&self.roles, subject) {
            return Ok(Vec::new(self.alloc));
        }
        let Ok(mut rows) = lines(self.alloc, self.definers, &self.roles) else {
            return Err(ReportFault::Memory);
        };
        keep_rows_about(subject, &mut rows);
        Ok(rows)
    }
}
