//! The IR state (`World`).
ghost use Rattle.ir_store.specs.trees.Meaning.{IsSoundIn, isolated_in};
ghost use Rattle.ir_store.specs.trees.WellFormed.{IsWellFormed};
ghost use Rattle.ir_event.specs.Facts.{HeldIsSound, sound_prop, wellformed_prop, held_prop};

use ir_store::store::Store;
use op_registry::registry::Registry;
use op_registry::types::context::Context;

/// The IR state: a context, the registry of its operations, and a well-formed module. The names, types and attributes
/// of the module and of its held operations are ids of the context.
pub struct World {
    pub ctx: Context,
    pub registry: Registry,
    pub store: Store,
    pub ghost sound: { IsSoundIn ctx store.module_of.tree } by { sound_prop ctx store.module_of.tree },
    pub ghost wellformed: { IsWellFormed (isolated_in ctx) store.module_of } by { wellformed_prop (isolated_in ctx) store.module_of },
    pub ghost held: { HeldIsSound ctx store.held } by { held_prop ctx store.held },
}

impl Drop for World {
    /// Frees the IR state. It is written out, so that the crates above call one function.
    fn drop(self) {
        let World {
            ctx: _,
            registry: _,
            store: _,
        } = self;
    }
}
