//! Tables of facts about the operations of a module, which are kept up to date.
ghost use Rattle.std.specs.Prelude.{◌≡◌, ◌≤◌, ◌+◌, ◌⊎◌, true, false, Option, OnOk, OnErr, IfOk};
ghost use Rattle.std.specs.Ordering.{nat_cmp};
ghost use Rattle.std.specs.BTreeMap.{IsOrdered, get};
ghost use Rattle.ir_event.specs.Modules.{Module, context_model, module_in};
ghost use Rattle.ir_event.specs.Step.{Step};
ghost use Rattle.ir_event.specs.trees.Meaning.{Operation};
ghost use Rattle.listeners_support.specs.Facts.{Keeps, Renewed, kept_facts, kept_of, most_looks};

use crate::fact::{LocalFact, follow, renew};
use ir_event::event::Event;
use ir_event::row::Memory;
use ir_event::types::ids::OpId;
use ir_event::view::View;
use ir_event::world::World;
use std::alloc::{AllocError, Global};
use std::collections::BTreeMap;

/// The kept facts about the operations of a module. The table becomes stale if memory runs out, and stays stale until
/// it begins again. An operation whose fact isn't kept has no entry.
#[derive(Drop)]
pub struct FactTable<F> {
    alloc: Global,
    table: BTreeMap<u32, F>,
    stale: bool,
}

/// Updates the entries of operations to the facts in the view's module.
fn renew_all<F: LocalFact>(
    alloc: Global,
    table: &mut BTreeMap<u32, F>,
    view: &mut View<'_>,
    ops: &[OpId],
) -> Result<(), AllocError>
    ensures renewed { OnOk result
        (Renewed (kept_of F.fact F.kept (module_in view.old.world.now).tree) ops.now (get nat_cmp table.old)
        (get nat_cmp table.new)) }
    ensures world { view.new.world.now ≡ view.old.world.now }
{
    for op in ops {
        renew(alloc, table, view, *op)?;
    }
    Ok(())
}

/// Returns a table of the kept facts about all operations of the module.
fn tabulate<F: LocalFact>(alloc: Global, world: &World) -> Result<BTreeMap<u32, F>, AllocError>
    ensures { IfOk result (λ t. Keeps F.fact F.kept (module_in world.now).tree (get nat_cmp t)) }
{
    let Ok(ops) = world.store.operations() else {
        return Err(AllocError);
    };
    let mut table = BTreeMap::new(alloc);
    let mut view = View::new(world);
    renew_all(alloc, &mut table, &mut view, &ops)?;
    Ok(table)
}

impl<F: LocalFact> FactTable<F> {
    /// Returns an empty table, which is stale.
    pub fn new(alloc: Global) -> FactTable<F>
        ensures { result.stale ≡ true }
    {
        FactTable {
            alloc,
            table: BTreeMap::new(alloc),
            stale: true,
        }
    }

    /// Begins again with a module. If memory runs out, the table is stale.
    pub fn begin(&mut self, world: &World) -> Result<(), Memory>
        ensures ok { OnOk result
            ((self.new.stale ≡ false) × Keeps F.fact F.kept (module_in world.now).tree (get nat_cmp self.new.table)) }
        ensures err { OnErr result (self.new.stale ≡ true) }
    {
        // The old table is dropped first, to free its memory.
        self.table = BTreeMap::new(self.alloc);
        self.stale = true;
        let Ok(table) = tabulate(self.alloc, world) else {
            return Err(Memory);
        };
        self.table = table;
        self.stale = false;
        Ok(())
    }

    /// Updates the table after an event. `view` shows the module after the event, and is returned.
    pub fn told<'a>(&mut self, view: View<'a>, event: Event) -> View<'a>
        ensures agrees { (m : Module) → Step (context_model view.entry.world.now) event m (module_in view.entry.world.now)
            → (self.old.stale ≡ false) × Keeps F.fact F.kept m.tree (get nat_cmp self.old.table)
            → ((self.new.stale ≡ false) × Keeps F.fact F.kept (module_in view.entry.world.now).tree
            (get nat_cmp self.new.table)) ⊎ (self.new.stale ≡ true) }
        ensures stale { self.old.stale ≡ true → self.new.stale ≡ true }
        ensures looks { result.looks ≤ view.entry.looks + most_looks event (module_in view.entry.world.now).tree }
        ensures world { result.world.now ≡ view.entry.world.now }
    {
        if self.stale {
            return view;
        }
        let mut view = view;
        match follow(self.alloc, &mut self.table, &mut view, &event) {
            Ok(()) => view,
            Err(_) => {
                self.stale = true;
                view
            }
        }
    }

    /// Returns the facts by operation id, in ascending order. If the table isn't stale, these are the kept facts of its
    /// module.
    pub fn facts(&self) -> &BTreeMap<u32, F>
        ensures is { result.now ≡ self.now.table }
        ensures ordered { IsOrdered nat_cmp result.now }
        ensures in_order { (t : Operation) → Keeps F.fact F.kept t (get nat_cmp self.now.table)
            → result.now.entries ≡ kept_facts F.fact F.kept t }
    {
        // The prover derives the order of the keys from the length.
        let _ = self.table.len();
        &self.table
    }

    /// Returns whether the table is stale.
    pub fn stale(&self) -> bool
        ensures { result ≡ self.now.stale }
    {
        self.stale
    }
}
