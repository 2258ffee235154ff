//! The listener of effects.
ghost use Rattle.std.specs.Prelude.{◌≡◌, ◌≤◌, ◌+◌, true};
ghost use Rattle.ir_event.specs.Modules.{Module, context_model, module_in};
ghost use Rattle.ir_event.specs.Listener.{is_take};
ghost use Rattle.ir_event.specs.Notification.{IsNotified};
ghost use Rattle.ir_event.specs.Step.{Step};

use crate::collect::insert_module;
use crate::effect_rows::EffectRows;
use crate::follow::follow;
use crate::report::{lines, lines_about};
use crate::table::no_rows;
use ir_event::analysis::Analysis;
use ir_event::event::Event;
use ir_event::row as report;
use ir_event::row::{Kind, Memory, ReportFault};
use ir_event::subject::Subject;
use ir_event::view::View;
use ir_event::world::World;
use std::alloc::Global;

/// The analysis `effects`: the effects of each operation (Rationale, "Side Effects & Speculation").
///
/// It keeps for each operation its parent, its effects, and how many of its children have each effect. If a child gains
/// or loses an effect, the parents are updated as far up as an effect changes.
#[derive(Drop)]
pub struct Effects {
    alloc: Global,
    rows: EffectRows,
    stale: bool,
}

impl Effects {
    ghost use Rattle.effects.specs.Listeners.{effects_listener};

    /// Returns a listener that hasn't begun and is stale.
    pub fn new(alloc: Global) -> Effects
        ensures { (effects_listener result).stale ≡ true }
    {
        Effects {
            alloc,
            rows: no_rows(alloc),
            stale: true,
        }
    }

    /// Returns the table.
    pub(crate) fn rows(&self) -> &EffectRows
        ensures { result.now ≡ self.now.rows }
    {
        &self.rows
    }
}

impl Analysis for Effects {
    ghost use Rattle.effects.specs.Listeners.{effects_listener};

    ghost meaning = { effects_listener };

    fn kind(&self) -> Kind {
        Kind::EFFECTS
    }

    fn begin(&mut self, world: &World) -> Result<(), Memory> {
        // The old table is dropped first, to free its memory.
        self.rows = no_rows(self.alloc);
        self.stale = true;
        if !insert_module(world, &mut self.rows) {
            return Err(Memory);
        }
        self.stale = false;
        Ok(())
    }

    /// If the listener agreed before an operation was removed, it agrees afterwards and isn't stale. The listener looks
    /// once, at an inserted operation.
    fn told<'a>(&mut self, view: View<'a>, event: Event) -> View<'a>
        ensures notified { IsNotified event view.entry result (effects_listener self.old) (effects_listener self.new) }
        ensures once { result.looks ≤ view.entry.looks + 1 }
        ensures take { (m : Module) → is_take event ≡ true
            → Step (context_model view.entry.world.now) event m (module_in view.entry.world.now)
            → (effects_listener self.old).agrees (context_model view.entry.world.now) m
            → (effects_listener self.new).agrees (context_model view.entry.world.now) (module_in view.entry.world.now) }
    {
        if self.stale {
            return view;
        }
        let mut view = view;
        if !follow(&mut self.rows, &mut view, &event) {
            self.stale = true;
        }
        view
    }

    fn stale(&self) -> bool {
        self.stale
    }

    fn report(&self) -> Result<Vec<report::Row>, ReportFault> {
        if self.stale {
            return Err(ReportFault::Stale);
        }
        match lines(self.alloc, &self.rows) {
            Ok(rows) => Ok(rows),
            Err(_) => Err(ReportFault::Memory),
        }
    }

    fn report_about(
        &self,
        _world: &World,
        subject: &Subject,
    ) -> Result<Vec<report::Row>, ReportFault> {
        if self.stale {
            return Err(ReportFault::Stale);
        }
        match lines_about(self.alloc, &self.rows, subject) {
            Ok(rows) => Ok(rows),
            Err(_) => Err(ReportFault::Memory),
        }
    }
}
