//! Creates IR states.
ghost use Rattle.std.specs.Prelude.{◌≡◌, ◌<◌, ◌⊎◌, IfOk, IfErr, Some};
ghost use Rattle.std.specs.List.{All};
ghost use Rattle.ir_store.specs.trees.Ids.{ids, HasDistinctIds};
ghost use Rattle.ir_store.specs.trees.Meaning.{isolated_in, IsSoundIn};
ghost use Rattle.ir_store.specs.trees.WellFormed.{IsValidTree, fault};
ghost use Rattle.ir_store.specs.Calls.{Loaded};

use crate::world::World;
use ir_store::store::Store;
use ir_store::trees::tree::TreeOp;
use op_registry::registry::Registry;
use op_registry::types::context::Context;
use op_registry::types::refusal::Refusal;
use std::alloc::Global;

impl World {
    /// Returns an IR state with a context, the registry of its operations, and a module with the tree `tree` and the
    /// next free id `next`.
    ///
    /// Refusals, in this order: `UnknownValue`, `TooDeep`, `TooMany`; and `Memory`.
    pub fn load(
        alloc: Global,
        ctx: Context,
        registry: Registry,
        tree: &TreeOp,
        next: u32,
    ) -> Result<World, Refusal>
        requires sound { IsSoundIn ctx tree.now }
        requires distinct { HasDistinctIds tree.now }
        requires below { All (λ x. x < next) (ids tree.now) }
        ensures ctx { IfOk result (λ w. w.ctx ≡ ctx) }
        ensures store { IfOk result (λ w. Loaded tree.now next w.store) }
        ensures refused { IfErr result (λ e. (e ≡ Refusal.Memory) ⊎ (fault (isolated_in ctx) tree.now ≡ Some e)) }
    {
        let store = Store::load(alloc, &ctx, tree, next)?;
        Ok(World {
            ctx,
            registry,
            store,
        })
    }

    /// Returns an IR state with a tree that is known to be well-formed, without checking it again.
    ///
    /// Refusals: `Memory`.
    pub fn from_checked(
        alloc: Global,
        ctx: Context,
        registry: Registry,
        tree: TreeOp,
        next: u32,
    ) -> Result<World, Refusal>
        requires sound { IsSoundIn ctx tree }
        requires distinct { HasDistinctIds tree }
        requires below { All (λ x. x < next) (ids tree) }
        requires wellformed { IsValidTree (isolated_in ctx) tree }
        ensures ctx { IfOk result (λ w. w.ctx ≡ ctx) }
        ensures store { IfOk result (λ w. Loaded tree next w.store) }
        ensures refused { IfErr result (λ e. e ≡ Refusal.Memory) }
    {
        let store = Store::from_checked(alloc, &ctx, tree, next)?;
        Ok(World {
            ctx,
            registry,
            store,
        })
    }
}
