//! The handle that C stores.
ghost use Rattle.std.specs.Prelude.{◌≡◌, None, Some, is_some};
ghost use Rattle.rewriter.specs.RewriterCalls.{AgreesOrStale};
ghost use Rattle.mlir_work_analyses.specs.Listeners.{any_analysis};
ghost use Rattle.mlir_work_c.specs.Calls.{IsHeld, is_open};
ghost use Rattle.mlir_work_c.specs.declared.session.Session.{Session};

use crate::handle_slot::HandleSlot;
use crate::raw_box::RawBox;
use crate::session::Session;
use std::alloc::Global;
use std::mem;

/// The word of a handle that holds a session: the bytes `mlirwrk1`, whose last byte is the version of the interface.
const OPEN_WORD: u64 = 0x316b_7277_7269_6c6d;

/// The handle that C stores: closed, or with a session. It holds a session only if its word is `OPEN_WORD`. With any
/// other word it is closed, even if no call wrote that word.
#[repr(C)]
pub struct Handle {
    /// The slot with the session, if the handle is open.
    pub(crate) slot: HandleSlot,
    word: u64,
    ghost reported: { is_open word ≡ is_some slot.value },
}

impl Handle {
    /// Returns a closed handle.
    pub fn closed() -> Handle
        ensures { result.slot.value ≡ None }
    {
        Handle {
            slot: HandleSlot::empty(),
            word: 0,
        }
    }

    /// Returns whether the handle holds a session.
    pub fn is_open(&self) -> bool
        ensures { result ≡ is_some self.now.slot.value }
    {
        self.word == OPEN_WORD
    }

    /// Closes the handle. A closed handle stays closed.
    pub fn close(&mut self, alloc: Global)
        ensures { self.new.slot.value ≡ None }
    {
        let Handle { slot, word } = mem::replace(self, Handle::closed());
        if word == OPEN_WORD {
            drop(slot.into_raw_box(alloc).into_box());
            return;
        }
        slot.discard();
    }

    /// Stores a session in a closed handle.
    pub fn open_with(&mut self, held: Box<Session>)
        requires closed { self.old.slot.value ≡ None }
        requires kept { AgreesOrStale any_analysis held.value.bench }
        ensures held { self.new.slot.value ≡ Some held.value }
        ensures kept { IsHeld self.new.slot.value }
    {
        let Handle { slot, word: _ } = mem::replace(
            self,
            Handle {
                slot: HandleSlot::of(RawBox::from_box(held)),
                word: OPEN_WORD,
            },
        );
        slot.discard();
    }
}
