//! The transaction: the IR state (`World`), the journal and the open marks.
ghost use Rattle.std.specs.Prelude.{◌≡◌, ◌≢◌, ◌<◌, ◌-◌, ◌↔◌, ◌∷◌, [], length, not, is_some, slice_get, IsTrue, OnOk};
ghost use Rattle.std.specs.Prelude.{OnErr, IfSome, IfNone};
ghost use Rattle.ir_event.specs.Modules.{context_model};
ghost use Rattle.rewriter_machine.specs.Journals.{TracksRemovedKeys};
ghost use Rattle.rewriter.specs.Held.{IsWellFormed, Within, module_held, open_marks};
ghost use Rattle.rewriter.specs.Marked.{counted_among, mark_reason, with_mark, IsNewest, Closed};
ghost use Rattle.rewriter.specs.Moves.{HoldsModuleAlone, HoldsNone, IsAnswered, Tidied, Undone};

use crate::claims::keep;
use crate::mark::JournalMark;
use crate::release::release;
use ir_event::event::{Event, inverse};
use ir_event::types::refusal::Refusal;
use ir_event::world::World;
use std::alloc::Global;
use std::marker::Model;

/// The IR state, the events since the oldest open mark, and the open marks, the newest last.
pub struct Transaction {
    pub(crate) world: World,
    pub(crate) journal: Vec<Event>,
    pub(crate) marks: Vec<JournalMark>,
}

impl Drop for Transaction {
    /// Frees the transaction. It is written out, so that the crates above call one function.
    fn drop(self) {
        let Transaction {
            world: _,
            journal: _,
            marks: _,
        } = self;
    }
}

impl Model for Transaction {
    ghost use Rattle.rewriter.specs.Held.{TransactionModel, IsWellFormed};
    ghost use Rattle.std.specs.Coded.{codes};
    ghost use Rattle.ir_event.specs.store.Stored.{stored_code};

    ghost Value = { TransactionModel };

    ghost coded = { Prim.hlevel (codes, stored_code) };

    ghost view = { λ d. record {
      ctx = d.world.ctx;
      store = d.world.store;
      journal = d.journal.items;
      marks = d.marks.items;
    } };

    ghost invariant = { λ d. IsWellFormed
        (record { ctx = d.world.ctx; store = d.world.store; journal = d.journal.items; marks = d.marks.items }) };
}

/// The limit of open marks that count (marks of `step` don't count).
pub const MOST_MARKS: usize = 16;

/// Returns how many of these marks count.
fn counted_in(marks: &[JournalMark]) -> usize
    ensures { result ≡ counted_among marks.now }
{
    marks
        .iter()
        .filter(
            |mark: &&JournalMark| -> bool
                ensures { result ≡ mark.now.now.counted }
            { mark.counted },
        )
        .count()
}

/// Returns whether one more mark may be opened. `counted` says whether the mark counts.
fn has_headroom(marks: &[JournalMark], counted: bool) -> bool
    ensures { result ≡ not (is_some (mark_reason counted marks.now)) }
{
    !counted || counted_in(marks) < MOST_MARKS
}

impl Transaction {
    /// Returns a transaction without marks.
    pub fn new(alloc: Global, world: World) -> Transaction
        requires { TracksRemovedKeys world.store }
        ensures { result ≡ record { ctx = context_model world; store = world.store; journal = []; marks = [] } }
    {
        Transaction {
            world,
            journal: Vec::new(alloc),
            marks: Vec::new(alloc),
        }
    }

    /// Returns the IR state.
    pub fn world(&self) -> &World
        ensures ctx { result.now.ctx ≡ self.now.ctx }
        ensures store { result.now.store ≡ self.now.store }
    {
        &self.world
    }

    /// Lemma: the invariants of every transaction.
    pub fn is_well_formed(&self)
        ensures { IsWellFormed self.now }
    {
        let _marks = &self.marks;
    }

    /// Opens a mark of the current module.
    ///
    /// Refusals: `TooManyMarks` if the mark counts and sixteen counted marks are open; `Memory`.
    pub fn mark(&mut self, counted: bool) -> Result<(), Refusal>
        ensures ok { OnOk result (self.new ≡ with_mark counted self.old) }
        ensures marked { OnOk result
            (open_marks self.new ≡ record { marked = module_held self.old; counted = counted } ∷ open_marks self.old) }
        ensures err { OnErr result (self.new ≡ self.old) }
        ensures refused { IsAnswered (Unit {0}) (mark_reason counted self.old.marks) result }
    {
        if !has_headroom(&self.marks, counted) {
            return Err(Refusal::TooManyMarks);
        }
        let length = self.journal.len();
        let Ok(()) = self.marks.push(JournalMark { length, counted }) else {
            return Err(Refusal::Memory);
        };
        Ok(())
    }

    /// Returns the length that the journal had at the newest mark, or `None` if no mark is open.
    pub fn newest(&self) -> Option<usize>
        ensures some { IfSome result (λ k. IsNewest k self.now) }
        ensures none { IfNone result (self.now.marks ≡ []) }
    {
        match self.marks.as_slice() {
            [] => None,
            [.., mark] => Some(mark.length),
        }
    }

    /// Returns whether a mark is open.
    pub fn is_marked(&self) -> bool
        ensures { IsTrue result ↔ (self.now.marks ≢ []) }
    {
        !self.marks.is_empty()
    }

    /// Returns the number of events since the oldest open mark.
    pub fn journal_len(&self) -> usize
        ensures { result ≡ length self.now.journal }
    {
        self.journal.len()
    }

    /// Returns the events since the oldest open mark, oldest first.
    pub fn journal(&self) -> &[Event]
        ensures { result.now ≡ self.now.journal }
    {
        &self.journal
    }

    /// Returns one of the events since the oldest open mark, by its index, oldest first.
    pub fn journal_at(&self, place: usize) -> Option<Event>
        ensures { result ≡ slice_get self.now.journal place }
    {
        self.journal.get(place).copied()
    }

    /// Undoes the newest event and returns its inverse.
    pub fn undo(&mut self) -> Event
        requires some { 0 < length self.old.journal }
        requires free { Within (length self.old.journal - 1) self.old.marks }
        ensures { Undone result self.old self.new }
    {
        let Some(event) = self.journal.pop() else {
            unreachable!()
        };
        self.world.ctx.sound();
        self.world.undo(&event);
        inverse(event)
    }

    /// Removes the newest mark. If it was the last one, the journal is dropped too.
    pub fn close(&mut self)
        requires { self.old.marks ≢ [] }
        ensures { Closed self.old self.new }
    {
        let Some(_mark) = self.marks.pop() else {
            unreachable!()
        };
        keep(&mut self.journal, &self.marks);
    }

    /// Releases the held operations with ids from the next free id on.
    pub fn release_unused_ids(&mut self)
        ensures { Tidied self.old.store.module_of.next self.old self.new }
    {
        self.world.ctx.sound();
        let next = self.world.store.next_id();
        release(&mut self.world, next);
    }

    /// Releases everything that is held. No mark may be open.
    pub fn release_all(&mut self)
        requires { self.old.marks ≡ [] }
        ensures tidied { Tidied 0 self.old self.new }
        ensures none { HoldsNone self.new.store }
        ensures alone { HoldsModuleAlone self.new.store }
    {
        release(&mut self.world, 0);
    }
}
