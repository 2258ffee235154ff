//! The rewriter.
ghost use Rattle.std.specs.Prelude.{◌≡◌, [], length, slice_get, ◌↔◌, ◌≢◌, ◌<◌, ◌⊎◌, IsTrue, OnErr, IfErr, IfOk, IsOk};
ghost use Rattle.std.specs.Prelude.{Some, true, None};
ghost use Rattle.std.specs.List.{All, find};
ghost use Rattle.std.specs.Option.{option_map};
ghost use Rattle.ir_event.specs.types.Things.{TypeIsOf, AttrIsOf};
ghost use Rattle.ir_event.specs.types.Interning.{with_name, with_type, with_attr, knows_name, knows_type, knows_attr};
ghost use Rattle.ir_event.specs.types.Reasons.{IsRefusedFor, name_reason, type_reason, attr_reason};
ghost use Rattle.ir_event.specs.types.Sound.{IsSound};
ghost use Rattle.ir_event.specs.trees.Ids.{HasDistinctIds, ids};
ghost use Rattle.ir_event.specs.trees.Meaning.{IsSoundIn, isolated_in};
ghost use Rattle.ir_event.specs.trees.WellFormed.{IsWellFormed, fault};
ghost use Rattle.ir_event.specs.store.Calls.{Loaded};
ghost use Rattle.ir_event.specs.Modules.{context_model};
ghost use Rattle.ir_event.specs.Panels.{is_kind};
ghost use Rattle.rewriter.specs.Journals.{IsJournal, TracksRemovedKeys};
ghost use Rattle.rewriter.specs.Moves.{Grown};
ghost use Rattle.rewriter.specs.RewriterCalls.{Led};
ghost use Rattle.rewriter.specs.Rolling.{IsSettled, Settled};

use crate::marks::settle;
use crate::transaction::Transaction;
use ir_event::analysis::Analysis;
use ir_event::event::Event;
use ir_event::panel::Panel;
use ir_event::row::Kind;
use ir_event::trees::tree::TreeOp;
use ir_event::types::context::Context;
use ir_event::types::ids::{AttrId, NameId, TypeId};
use ir_event::types::node::{AttrNode, TypeNode};
use ir_event::types::refusal::Refusal;
use ir_event::world::World;
use op_registry::registry::Registry;
use rewriter_machine::journal_laws::stores_stay_slotted;
use std::alloc::Global;
use std::marker::Model;

/// A module under edits, with its open marks, the events since the oldest one, and the listeners.
#[derive(Drop)]
pub struct Bench<L> {
    pub(crate) alloc: Global,
    pub(crate) transaction: Transaction,
    pub(crate) panel: Panel<L>,
}

impl<L> Model for Bench<L> {
    ghost use Rattle.rewriter.specs.RewriterCalls.{Benched};
    ghost use Rattle.rewriter.specs.Rolling.{IsSettled};
    ghost use Rattle.std.specs.Coded.{codes};
    ghost use Rattle.ir_event.specs.store.Stored.{stored_code};

    ghost Value = { Benched L };

    ghost coded = { Prim.hlevel (codes, stored_code) };

    ghost view = { λ b. record { transaction = b.transaction; listeners = b.panel } };

    ghost invariant = { λ b. IsSettled b.transaction };
}

impl<L: Analysis> Bench<L> {
    /// Returns a rewriter for `tree`, without marks or listeners. `next` is the next free id.
    ///
    /// Refusals, in this order: `UnknownValue`, `TooDeep`, `TooMany`; and `Memory`.
    pub fn new(
        alloc: Global,
        ctx: Context,
        registry: Registry,
        tree: &TreeOp,
        next: u32,
    ) -> Result<Bench<L>, Refusal>
        requires sound { IsSoundIn ctx tree.now }
        requires distinct { HasDistinctIds tree.now }
        requires below { All (λ x. x < next) (ids tree.now) }
        ensures ctx { IfOk result (λ b. b.transaction.ctx ≡ ctx) }
        ensures store { IfOk result (λ b. Loaded tree.now next b.transaction.store) }
        ensures marks { IfOk result (λ b. b.transaction.marks ≡ []) }
        ensures listeners { IfOk result (λ b. b.listeners ≡ []) }
        ensures refused { IfErr result (λ e. (e ≡ Refusal.Memory) ⊎ (fault (isolated_in ctx) tree.now ≡ Some e)) }
    {
        stores_stay_slotted();
        let world = match World::load(alloc, ctx, registry, tree, next) {
            Ok(world) => world,
            Err(refusal) => return Err(refusal),
        };
        Ok(Bench::from_world(alloc, world))
    }

    /// Returns a rewriter for the module of `world`, without marks or listeners. The held operations of `world` are
    /// released.
    pub fn from_world(alloc: Global, world: World) -> Bench<L>
        requires slotted { TracksRemovedKeys world.store }
        ensures transaction { Settled (record {
          ctx = context_model world;
          store = world.store;
          journal = [];
          marks = [];
        }) result.transaction }
        ensures listeners { result.listeners ≡ [] }
    {
        let mut transaction = Transaction::new(alloc, world);
        settle(&mut transaction);
        Bench {
            alloc,
            transaction,
            panel: Panel::new(alloc),
        }
    }

    /// Lemma: the invariants of every rewriter. The module is well-formed and of its context, whose entries are
    /// distinct. If no mark is open, the journal is empty and nothing is held. The events of the journal lead to the
    /// module.
    pub fn is_wellformed(&self)
        ensures context { IsSound self.now.transaction.ctx }
        ensures sound { IsSoundIn self.now.transaction.ctx self.now.transaction.store.module_of.tree }
        ensures wellformed { IsWellFormed (isolated_in self.now.transaction.ctx) self.now.transaction.store.module_of }
        ensures settled { IsSettled self.now.transaction }
        ensures none { self.now.transaction.marks ≡ [] → self.now.transaction.journal ≡ [] }
        ensures leads { IsJournal self.now.transaction.ctx self.now.transaction.journal self.now.transaction.store }
    {
        self.transaction.is_well_formed();
        let world = self.transaction.world();
        world.ctx.sound();
    }

    /// Returns the allocator of the rewriter.
    pub(crate) fn alloc(&self) -> Global {
        self.alloc
    }

    /// Returns the IR state.
    pub fn world(&self) -> &World
        ensures ctx { result.now.ctx ≡ self.now.transaction.ctx }
        ensures store { result.now.store ≡ self.now.transaction.store }
    {
        self.transaction.world()
    }

    /// Returns the listeners, in the order of `attach`.
    pub fn listeners(&self) -> &[L]
        ensures { result.now ≡ self.now.listeners }
    {
        self.panel.listeners()
    }

    /// Returns the listener of a kind, or `None` if none is attached.
    pub fn listener(&self, kind: Kind) -> Option<&L>
        ensures { option_map (λ listener. listener.now) result ≡ find (is_kind L.meaning kind) self.now.listeners }
    {
        self.panel.listener(kind)
    }

    /// Returns whether a mark is open.
    pub fn is_marked(&self) -> bool
        ensures { IsTrue result ↔ (self.now.transaction.marks ≢ []) }
    {
        self.transaction.is_marked()
    }

    /// Returns the number of events since the oldest open mark.
    pub fn journal_len(&self) -> usize
        ensures { result ≡ length self.now.transaction.journal }
    {
        self.transaction.journal_len()
    }

    /// Returns the events since the oldest open mark, oldest first.
    pub fn journal(&self) -> &[Event]
        ensures { result.now ≡ self.now.transaction.journal }
    {
        self.transaction.journal()
    }

    /// Returns one of the events since the oldest open mark, by its index, oldest first.
    pub fn journal_at(&self, place: usize) -> Option<Event>
        ensures { result ≡ slice_get self.now.transaction.journal place }
    {
        self.transaction.journal_at(place)
    }
}

impl<L: Analysis> Bench<L> {
    /// Interns a name and returns its id in the context.
    ///
    /// Refusals: those of the context.
    pub fn name(&mut self, bytes: &[u8]) -> Result<NameId, Refusal>
        ensures ok { IfOk result (λ id. (id, self.new.transaction.ctx) ≡ with_name bytes.now self.old.transaction.ctx) }
        ensures refused { IsRefusedFor (name_reason bytes.now self.old.transaction.ctx) result }
        ensures known { knows_name bytes.now self.old.transaction.ctx ≡ true → IsOk result }
        ensures err { OnErr result (self.new ≡ self.old) }
        ensures grown { Grown self.old.transaction self.new.transaction }
        ensures listeners { self.new.listeners ≡ self.old.listeners }
        ensures led { Led L.meaning self.old self.new }
    {
        self.transaction.world().ctx.sound();
        let id = self.transaction.name(bytes);
        self.transaction.world().ctx.sound();
        id
    }

    /// Interns a type, whose components are types of the context, and returns its id.
    ///
    /// Refusals: those of the context.
    pub fn ty(&mut self, node: TypeNode) -> Result<TypeId, Refusal>
        requires { TypeIsOf self.old.transaction.ctx node }
        ensures ok { IfOk result (λ id. (id, self.new.transaction.ctx) ≡ with_type node self.old.transaction.ctx) }
        ensures refused { IsRefusedFor (type_reason node self.old.transaction.ctx) result }
        ensures known { knows_type node self.old.transaction.ctx ≡ true → type_reason node self.old.transaction.ctx ≡ None
            → IsOk result }
        ensures err { OnErr result (self.new ≡ self.old) }
        ensures grown { Grown self.old.transaction self.new.transaction }
        ensures listeners { self.new.listeners ≡ self.old.listeners }
        ensures led { Led L.meaning self.old self.new }
    {
        self.transaction.world().ctx.sound();
        let id = self.transaction.ty(node);
        self.transaction.world().ctx.sound();
        id
    }

    /// Interns an attribute, whose components are names, types and attributes of the context, and returns its id.
    ///
    /// Refusals: those of the context.
    pub fn attr(&mut self, node: AttrNode) -> Result<AttrId, Refusal>
        requires { AttrIsOf self.old.transaction.ctx node }
        ensures ok { IfOk result (λ id. (id, self.new.transaction.ctx) ≡ with_attr node self.old.transaction.ctx) }
        ensures refused { IsRefusedFor (attr_reason node self.old.transaction.ctx) result }
        ensures known { knows_attr node self.old.transaction.ctx ≡ true → attr_reason node self.old.transaction.ctx ≡ None
            → IsOk result }
        ensures err { OnErr result (self.new ≡ self.old) }
        ensures grown { Grown self.old.transaction self.new.transaction }
        ensures listeners { self.new.listeners ≡ self.old.listeners }
        ensures led { Led L.meaning self.old self.new }
    {
        self.transaction.world().ctx.sound();
        let id = self.transaction.attr(node);
        self.transaction.world().ctx.sound();
        id
    }
}
