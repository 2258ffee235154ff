//! The list of listeners (`Panel`).
ghost use Rattle.std.specs.Prelude.{◌≡◌, ◌⊎◌, [], OnOk, OnErr, IfErr, true, false, position, MatchResult, IsErrOf, option_map};
ghost use Rattle.std.specs.List.{find};
ghost use Rattle.op_registry.specs.types.Things.{ContextModel};
ghost use Rattle.op_registry.specs.types.declared.refusal.Refusal.TheVariants.{NoSuchKind, Stale, Memory as NoMemory};
ghost use Rattle.ir_event.specs.Modules.{Module, context_model, module_in, node_of_op};
ghost use Rattle.ir_event.specs.Rows.{Shows};
ghost use Rattle.ir_event.specs.Panels.{has_kind, is_kind, AllNotified, AttachedLast, HandedBack, Detached, BegunAgain, NotBegunAgain, IsListener};

use crate::analysis::Analysis;
use crate::event::Event;
use crate::row::{Kind, Memory, ReportFault, Row};
use crate::view::View;
use crate::world::World;
use op_registry::types::refusal::Refusal;
use std::alloc::Global;
use std::marker::Model;

/// Listeners, at most one of each kind, in the order in which they were attached. A contract sees the list.
#[derive(Drop)]
pub struct Panel<L> {
    listeners: Vec<L>,
}

impl<L> Model for Panel<L> {
    ghost use Rattle.std.specs.Prelude.{List};

    ghost Value = { List L };

    ghost view = { λ a. a.listeners.items };
}

fn tell_all<L: Analysis>(listeners: &mut [L], world: &World, event: &Event)
    ensures { AllNotified L.meaning event.now (context_model world.now) (module_in world.now) (node_of_op world.now) listeners.old listeners.new }
{
    for listener in listeners {
        let _ = listener.told(View::new(world), *event);
    }
}

fn place_of_kind<L: Analysis>(listeners: &[L], kind: Kind) -> Option<usize>
    ensures { result ≡ position (is_kind L.meaning kind) listeners.now }
{
    listeners.iter().position(
        |listener: &L| -> bool
            ensures { result ≡ is_kind L.meaning kind listener.now }
        { listener.kind() == kind },
    )
}

impl<L: Analysis> Panel<L> {
    /// Returns a panel without listeners.
    pub fn new(alloc: Global) -> Panel<L>
        ensures { result ≡ [] }
    {
        Panel {
            listeners: Vec::new(alloc),
        }
    }

    /// Returns the listeners, in the order in which they were attached.
    pub fn listeners(&self) -> &[L]
        ensures { result.now ≡ self.now }
    {
        &self.listeners
    }

    /// Returns the listener of a kind, or `None` if none is attached.
    pub fn listener(&self, kind: Kind) -> Option<&L>
        ensures { option_map (λ listener. listener.now) result ≡ find (is_kind L.meaning kind) self.now }
    {
        self.listeners.iter().find(
            |listener: &&L| -> bool
                ensures { result ≡ is_kind L.meaning kind listener.now.now }
            { listener.kind() == kind },
        )
    }

    /// Starts a listener and adds it last. If the call is refused, it returns the listener.
    ///
    /// Refusals: `KindTaken` if a listener of its kind is attached, and then `listener` is unchanged; `Memory`, and
    /// then `listener` is stale, or has started and could not be added.
    pub fn attach(&mut self, world: &World, listener: L) -> Result<(), (Refusal, L)>
        ensures ok { OnOk result (AttachedLast L.meaning (context_model world.now) (module_in world.now) listener self.old self.new) }
        ensures err { OnErr result (self.new ≡ self.old) }
        ensures back { IfErr result (λ e. HandedBack L.meaning self.old listener e.0 e.1) }
        ensures begun { IfErr result (λ e. e.0 ≡ NoMemory → ((L.meaning e.1).stale ≡ true) ⊎ (L.meaning e.1).agrees (context_model world.now) (module_in world.now)) }
    {
        if place_of_kind(&self.listeners, listener.kind()).is_some() {
            return Err((Refusal::KindTaken, listener));
        }
        let mut listener = listener;
        match listener.begin(world) {
            Err(Memory) => Err((Refusal::Memory, listener)),
            Ok(()) => match self.listeners.push(listener) {
                Ok(()) => Ok(()),
                Err(failed) => Err((Refusal::Memory, failed.value)),
            },
        }
    }

    /// Removes the listener of a kind. The others keep their order.
    ///
    /// Refusals: `NoSuchKind`.
    pub fn detach(&mut self, kind: Kind) -> Result<(), Refusal>
        ensures ok { OnOk result (Detached L.meaning kind self.old self.new) }
        ensures err { OnErr result (self.new ≡ self.old) }
        ensures missing { IfErr result (λ e. (e ≡ NoSuchKind) × (has_kind L.meaning kind self.old ≡ false)) }
    {
        match place_of_kind(&self.listeners, kind) {
            None => Err(Refusal::NoSuchKind),
            Some(place) => {
                self.listeners.remove(place);
                Ok(())
            }
        }
    }

    /// Restarts the listener of a kind. The others are unchanged.
    ///
    /// Refusals: `NoSuchKind`; `Memory`, and then the listener is stale.
    pub fn resync(&mut self, world: &World, kind: Kind) -> Result<(), Refusal>
        ensures ok { OnOk result (BegunAgain L.meaning kind (λ b. b.agrees (context_model world.now) (module_in world.now)) self.old self.new) }
        ensures err { IfErr result (λ e. NotBegunAgain L.meaning kind self.old self.new e) }
    {
        match place_of_kind(&self.listeners, kind) {
            None => Err(Refusal::NoSuchKind),
            Some(place) => match self.listeners[place].begin(world) {
                Err(Memory) => Err(Refusal::Memory),
                Ok(()) => Ok(()),
            },
        }
    }

    /// Returns the report rows of the listener of a kind.
    ///
    /// Refusals: `NoSuchKind`; `Stale`; `Memory`.
    pub fn report(&self, kind: Kind) -> Result<Vec<Row>, Refusal>
        ensures missing { has_kind L.meaning kind self.now ≡ false → IsErrOf result NoSuchKind }
        ensures agreed { (b : L) (c : ContextModel) (m : Module) → IsListener L.meaning kind self.now b → (L.meaning b).agrees c m → MatchResult result (λ rows. Shows c rows.items ((L.meaning b).analysis m.tree)) (λ e. e ≡ NoMemory) }
        ensures stale { (b : L) → IsListener L.meaning kind self.now b → (L.meaning b).stale ≡ true → IsErrOf result Stale }
    {
        match place_of_kind(&self.listeners, kind) {
            None => Err(Refusal::NoSuchKind),
            Some(place) => match self.listeners[place].report() {
                Ok(rows) => Ok(rows),
                Err(ReportFault::Stale) => Err(Refusal::Stale),
                Err(ReportFault::Memory) => Err(Refusal::Memory),
            },
        }
    }

    /// Notifies every listener of an event that was just made, also those after a stale one.
    pub fn tell(&mut self, world: &World, event: Event)
        ensures { AllNotified L.meaning event (context_model world.now) (module_in world.now) (node_of_op world.now) self.old self.new }
    {
        tell_all(&mut self.listeners, world, &event);
    }
}
