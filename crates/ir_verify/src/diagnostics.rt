//! The listener of diagnostics.
ghost use Rattle.std.specs.Prelude.{◌≡◌, true};

use crate::finding::Finding;
use crate::report::{rows, rows_about};
use ir_verify_base::events::analysis::Analysis;
use ir_verify_base::events::event::Event;
use ir_verify_base::events::row::{Kind, Memory, ReportFault, Row};
use ir_verify_base::events::subject::Subject;
use ir_verify_base::events::view::View;
use ir_verify_base::events::world::World;
use ir_verify_base::fact_table::FactTable;
use std::alloc::Global;

/// The analysis `diagnostics`: the rules that each operation breaks. For an operation beyond the table, such as an
/// addition of vectors, which are opaque here, the rules on the table's types aren't reported.
///
/// It keeps the broken rules of each operation. After an event it checks the operations near the event again, because
/// only these can break other rules than before.
#[derive(Drop)]
pub struct Diagnostics {
    alloc: Global,
    kept: FactTable<Finding>,
}

impl Diagnostics {
    ghost use Rattle.ir_verify.specs.Listeners.{diagnostics_listener};

    /// Returns a listener that hasn't begun and is stale.
    pub fn new(alloc: Global) -> Diagnostics
        ensures { (diagnostics_listener result).stale ≡ true }
    {
        Diagnostics {
            alloc,
            kept: FactTable::new(alloc),
        }
    }
}

impl Analysis for Diagnostics {
    ghost use Rattle.ir_verify.specs.Listeners.{diagnostics_listener};

    ghost meaning = { diagnostics_listener };

    fn kind(&self) -> Kind {
        Kind::DIAGNOSTICS
    }

    fn begin(&mut self, world: &World) -> Result<(), Memory> {
        self.kept.begin(world)
    }

    fn told<'a>(&mut self, view: View<'a>, event: Event) -> View<'a> {
        self.kept.told(view, event)
    }

    fn stale(&self) -> bool {
        self.kept.stale()
    }

    fn report(&self) -> Result<Vec<Row>, ReportFault> {
        if self.kept.stale() {
            return Err(ReportFault::Stale);
        }
        match rows(self.alloc, self.kept.facts()) {
            Ok(rows) => Ok(rows),
            Err(_) => Err(ReportFault::Memory),
        }
    }

    fn report_about(&self, _world: &World, subject: &Subject) -> Result<Vec<Row>, ReportFault> {
        if self.kept.stale() {
            return Err(ReportFault::Stale);
        }
        match rows_about(self.alloc, self.kept.facts(), subject) {
            Ok(rows) => Ok(rows),
            Err(_) => Err(ReportFault::Memory),
        }
    }
}
