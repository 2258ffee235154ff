//! The listeners of a rewriter. Attaching, detaching, resyncing and reading a listener is no edit, and a rollback
//! doesn't undo it.
ghost use Rattle.std.specs.Prelude.{◌≡◌, true, false, OnOk, OnErr, IfErr, IsErrOf, MatchResult};
ghost use Rattle.ir_event.specs.Panels.{AttachedLast, BegunAgain, Detached, HandedBack, IsListener, NotBegunAgain};
ghost use Rattle.ir_event.specs.Panels.{has_kind};
ghost use Rattle.ir_event.specs.Rows.{RowIsOf, rows_meaning};
ghost use Rattle.std.specs.Prelude.{All, IfOk};
ghost use Rattle.rewriter.specs.Machine.{Attach, Detach, Done, Goes, Nothing, Refused, Report, Resync, Rows};
ghost use Rattle.rewriter.specs.Panels.{shown};
ghost use Rattle.rewriter.specs.Held.{module_held};
ghost use Rattle.rewriter.specs.RewriterCalls.{Does, AgreesOrStale, attach_reply_of, reply_of, state_of};

use crate::bench::Bench;
use ir_event::analysis::Analysis;
use ir_event::row::{Kind, Row};
use ir_event::types::refusal::Refusal;

impl<L: Analysis> Bench<L> {
    /// Starts a listener and adds it last. If the call is refused, it returns the listener.
    ///
    /// Refusals: `KindTaken` if a listener of this kind is attached, and then `listener` is unchanged; `Memory`.
    pub fn attach(&mut self, listener: L) -> Result<(), (Refusal, L)>
        ensures transaction { self.new.transaction ≡ self.old.transaction }
        ensures ok { OnOk result
            (AttachedLast L.meaning self.old.transaction.ctx
            (module_held self.old.transaction) listener self.old.listeners self.new.listeners) }
        ensures err { OnErr result (self.new ≡ self.old) }
        ensures back { IfErr result (λ e. HandedBack L.meaning self.old.listeners listener e.0 e.1) }
        ensures does { Does L.meaning (Attach (shown (L.meaning listener))) (attach_reply_of result) self.old self.new }
        ensures kept { AgreesOrStale L.meaning self.old → AgreesOrStale L.meaning self.new }
    {
        self.panel.attach(self.transaction.world(), listener)
    }

    /// Removes the listener of a kind. The others keep their order.
    ///
    /// Refusals: `NoSuchKind`.
    pub fn detach(&mut self, kind: Kind) -> Result<(), Refusal>
        ensures transaction { self.new.transaction ≡ self.old.transaction }
        ensures ok { OnOk result (Detached L.meaning kind self.old.listeners self.new.listeners) }
        ensures err { OnErr result (self.new ≡ self.old) }
        ensures does { Does L.meaning (Detach kind) (reply_of result) self.old self.new }
        ensures kept { AgreesOrStale L.meaning self.old → AgreesOrStale L.meaning self.new }
    {
        self.panel.detach(kind)
    }

    /// Restarts the listener of a kind on the current module. The others are unchanged.
    ///
    /// Refusals: `NoSuchKind`; `Memory`, and then the listener is stale.
    pub fn resync(&mut self, kind: Kind) -> Result<(), Refusal>
        ensures transaction { self.new.transaction ≡ self.old.transaction }
        ensures ok { OnOk result
            (BegunAgain L.meaning kind
            (λ b. b.agrees self.old.transaction.ctx (module_held self.old.transaction)) self.old.listeners self.new.listeners) }
        ensures err { IfErr result (λ e. NotBegunAgain L.meaning kind self.old.listeners self.new.listeners e) }
        ensures does { Does L.meaning (Resync kind) (reply_of result) self.old self.new }
        ensures kept { AgreesOrStale L.meaning self.old → AgreesOrStale L.meaning self.new }
    {
        self.panel.resync(self.transaction.world(), kind)
    }

    /// Returns the report rows of the listener of a kind, for the current module.
    ///
    /// Refusals: `NoSuchKind`; `Stale`; `Memory`.
    pub fn report(&self, kind: Kind) -> Result<Vec<Row>, Refusal>
        ensures missing { has_kind L.meaning kind self.now.listeners ≡ false → IsErrOf result Refusal.NoSuchKind }
        ensures stale { (b : L) → IsListener L.meaning kind self.now.listeners b → (L.meaning b).stale ≡ true
            → IsErrOf result Refusal.Stale }
        ensures known { AgreesOrStale L.meaning self.now → IfOk result (λ rows. All (RowIsOf self.now.transaction.ctx) rows.items) }
        ensures goes { AgreesOrStale L.meaning self.now → MatchResult result
            (λ rows. Goes (state_of L.meaning self.now) (Report kind) Done
            (Rows (rows_meaning self.now.transaction.ctx rows.items)) (state_of L.meaning self.now))
            (λ e. Goes (state_of L.meaning self.now) (Report kind) (Refused e) Nothing (state_of L.meaning self.now)) }
    {
        self.panel.report(kind)
    }
}
