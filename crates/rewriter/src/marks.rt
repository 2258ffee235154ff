//! Marks of a rewriter, commit and rollback.
ghost use Rattle.std.specs.Prelude.{◌≡◌, ◌≤◌, [], length, drop, true, false, OnOk, OnErr};
ghost use Rattle.rewriter.specs.Journals.{inverses};
ghost use Rattle.rewriter.specs.Held.{Within};
ghost use Rattle.rewriter.specs.Marked.{with_mark};
ghost use Rattle.rewriter.specs.Machine.{Commit, Mark, Rollback, Step};
ghost use Rattle.rewriter.specs.RewriterCalls.{Does, Notified, Led, NotifiedBack, reply_of};
ghost use Rattle.rewriter.specs.Rolling.{Dropped, GivenUp, Settled, UndoneTo};

use crate::bench::Bench;
use crate::transaction::Transaction;
use ir_event::analysis::Analysis;
use ir_event::panel::Panel;
use ir_event::types::refusal::Refusal;

/// Undoes the newest events until the journal has length `mark`, and notifies the listeners of the inverse of each.
fn undo_to<L: Analysis>(transaction: &mut Transaction, panel: &mut Panel<L>, mark: usize)
    requires above { Within mark transaction.old.marks }
    requires within { mark ≤ length transaction.old.journal }
    ensures undone { UndoneTo mark transaction.old transaction.new }
    ensures reported { Notified L.meaning (inverses (drop mark transaction.old.journal))
        (record { transaction = transaction.old; listeners = panel.old }) (record { transaction = transaction.new; listeners = panel.new }) }
{
    while transaction.journal_len() > mark {
        let event = transaction.undo();
        panel.tell(transaction.world(), event);
    }
}

/// Releases the held operations that no open mark can restore.
fn give_up(transaction: &mut Transaction)
    ensures { GivenUp transaction.old transaction.new }
{
    if transaction.is_marked() {
        transaction.release_unused_ids();
    } else {
        transaction.release_all();
    }
}

/// Releases all held operations if no mark is open, since no event can restore them.
pub(crate) fn settle(transaction: &mut Transaction)
    ensures { Settled transaction.old transaction.new }
{
    if transaction.is_marked() {
        return;
    }
    transaction.release_all();
}

impl<L: Analysis> Bench<L> {
    /// Opens a mark of the current module.
    ///
    /// Refusals: `TooManyMarks` if `MOST_MARKS` of them are open; `Memory`.
    pub fn mark(&mut self) -> Result<(), Refusal>
        ensures does { Does L.meaning Mark (reply_of result) self.old self.new }
        ensures ok { OnOk result (self.new.transaction ≡ with_mark true self.old.transaction) }
        ensures err { OnErr result (self.new ≡ self.old) }
        ensures led { Led L.meaning self.old self.new }
        ensures untold { Notified L.meaning [] self.old self.new }
    {
        self.transaction.mark(true)
    }

    /// Opens a mark that isn't counted, for an atomic call.
    ///
    /// Refusals: `Memory`.
    pub fn step(&mut self) -> Result<(), Refusal>
        ensures does { Does L.meaning Step (reply_of result) self.old self.new }
        ensures ctx { self.new.transaction.ctx ≡ self.old.transaction.ctx }
        ensures ok { OnOk result (self.new.transaction ≡ with_mark false self.old.transaction) }
        ensures err { OnErr result (self.new ≡ self.old) }
        ensures led { Led L.meaning self.old self.new }
        ensures untold { Notified L.meaning [] self.old self.new }
    {
        self.transaction.mark(false)
    }

    /// Removes the newest mark and keeps the module. Needs no memory.
    ///
    /// Refusals: `NoMark`.
    pub fn commit(&mut self) -> Result<(), Refusal>
        ensures does { Does L.meaning Commit (reply_of result) self.old self.new }
        ensures ctx { self.new.transaction.ctx ≡ self.old.transaction.ctx }
        ensures ok { OnOk result (Dropped true self.old.transaction self.new.transaction) }
        ensures err { OnErr result (self.new ≡ self.old) }
        ensures none { OnErr result (self.old.transaction.marks ≡ []) }
        ensures led { Led L.meaning self.old self.new }
        ensures untold { Notified L.meaning [] self.old self.new }
    {
        if !self.transaction.is_marked() {
            return Err(Refusal::NoMark);
        }
        self.transaction.is_well_formed();
        self.transaction.close();
        settle(&mut self.transaction);
        Ok(())
    }

    /// Restores the module of the newest mark, with its ids and its next id, and removes the mark. Each event since the
    /// mark is undone, newest first, and the listeners are notified of its inverse. Only the listeners need memory.
    ///
    /// Refusals: `NoMark`.
    pub fn rollback(&mut self) -> Result<(), Refusal>
        ensures does { Does L.meaning Rollback (reply_of result) self.old self.new }
        ensures ctx { self.new.transaction.ctx ≡ self.old.transaction.ctx }
        ensures ok { OnOk result (Dropped false self.old.transaction self.new.transaction) }
        ensures reported { OnOk result (NotifiedBack L.meaning self.old self.new) }
        ensures err { OnErr result (self.new ≡ self.old) }
        ensures none { OnErr result (self.old.transaction.marks ≡ []) }
        ensures led { Led L.meaning self.old self.new }
    {
        let Some(mark) = self.transaction.newest() else {
            return Err(Refusal::NoMark);
        };
        undo_to(&mut self.transaction, &mut self.panel, mark);
        self.transaction.close();
        give_up(&mut self.transaction);
        Ok(())
    }
}
