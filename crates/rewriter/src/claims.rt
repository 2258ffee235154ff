//! Capacity in the journal. It is reserved before an edit, so that recording the event can't fail.
ghost use Rattle.std.specs.Prelude.{◌≡◌, ◌≢◌, ◌<◌, ◌++◌, ◌∷◌, [], OnOk, OnErr, vec_len, vec_capacity};
ghost use Rattle.rewriter.specs.Marked.{kept};
ghost use Rattle.rewriter.specs.Moves.{noted_as, written};

use crate::mark::JournalMark;
use ir_event::event::Event;
use ir_event::types::refusal::Refusal;
use std::alloc::AllocError;
use std::slice::from_ref;

/// Reserves capacity for one more event if a mark is open.
pub(crate) fn claim(journal: &mut Vec<Event>, marks: &[JournalMark]) -> Result<(), AllocError>
    ensures items { journal.new.items ≡ journal.old.items }
    ensures headroom { OnOk result (marks.now ≢ [] → vec_len journal.new < vec_capacity journal.new) }
    ensures err { OnErr result (marks.now ≢ []) }
{
    match marks {
        [] => Ok(()),
        [_, ..] => journal.reserve(1),
    }
}

/// Records the event of an edit if a mark is open, in the reserved capacity.
pub(crate) fn note(journal: &mut Vec<Event>, marks: &[JournalMark], made: &Result<Event, Refusal>)
    requires { marks.now ≢ [] → vec_len journal.old < vec_capacity journal.old }
    ensures { journal.new.items ≡ noted_as marks.now journal.old.items made.now }
{
    match marks {
        [] => {}
        [_, ..] => note_made(journal, made),
    }
}

/// Records the event of an edit, if the edit was made.
fn note_made(journal: &mut Vec<Event>, made: &Result<Event, Refusal>)
    requires { vec_len journal.old < vec_capacity journal.old }
    ensures { journal.new.items ≡ written journal.old.items made.now }
{
    match made {
        Ok(event) => append(journal, event),
        Err(_) => {}
    }
}

/// Appends an event to a journal with spare capacity.
fn append(journal: &mut Vec<Event>, event: &Event)
    requires { vec_len journal.old < vec_capacity journal.old }
    ensures { journal.new.items ≡ journal.old.items ++ event.now ∷ [] }
{
    let _ = journal.extend_from_slice(from_ref(event));
}

/// Clears the journal if no mark is open.
pub(crate) fn keep(journal: &mut Vec<Event>, marks: &[JournalMark])
    ensures { journal.new.items ≡ kept marks.now journal.old.items }
{
    match marks {
        [] => journal.clear(),
        [_, ..] => {}
    }
}
