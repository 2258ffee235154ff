//! A slot for an optional box, stored as a pointer.
ghost use Rattle.std.specs.Prelude.{◌≡◌, Option, None, Some};
ghost use Rattle.std.specs.Coded.{coded_option};
ghost use Rattle.mlir_work_c.specs.Slots.{slot_owns, IsFull, heap_token};
ghost use Rattle.mlir_work_c.specs.declared.session.Session.{Session};
ghost use Rattle.mlir_work_c.specs.contracts.session.Session.{the_row};

use crate::raw_box::RawBox;
use crate::session::Session;
use std::alloc::Global;
use std::marker::Model;
use std::ptr::null_mut;

/// An empty slot, or a slot with a box. C sees a pointer.
#[repr(C)]
pub struct HandleSlot {
    at: *mut (),
    pub ghost value: { Option Session } by { coded_option the_row.coded },
}

impl Model for HandleSlot {
    ghost also_owns = { λ s. slot_owns heap_token the_row s.at s.value };
}

impl HandleSlot {
    ghost use Rattle.std.specs.Borrow.{sem};
    ghost use Rattle.mlir_work_c.specs.Lending.{LendsSession};

    /// Returns an empty slot.
    pub fn empty() -> HandleSlot
        ensures { result.value ≡ None }
    {
        HandleSlot { at: null_mut() }
    }

    /// Returns a slot with a box.
    pub fn of(raw_box: RawBox<Session, Global>) -> HandleSlot
        ensures { result.value ≡ Some raw_box.value }
    {
        let RawBox { at, alloc: _ } = raw_box;
        HandleSlot { at: at as *mut () }
    }

    /// Takes the raw box out of a full slot.
    pub fn into_raw_box(self, alloc: Global) -> RawBox<Session, Global>
        requires { IsFull self.value }
        ensures { Some result.value ≡ self.value }
    {
        let HandleSlot { at } = self;
        RawBox {
            at: at as *mut Session,
            alloc,
        }
    }

    /// Discards an empty slot.
    pub fn discard(self)
        requires { self.value ≡ None }
    {
        let HandleSlot { at: _ } = self;
    }

    /// Returns the session in a full slot.
    pub fn as_mut(&mut self) -> &mut Session
        requires { IsFull self.old.value }
        ensures* writes_back { sem 𝓛 (LendsSession self.entry result) }
        ensures value { Some result.now ≡ self.old.value }
    {
        unsafe { &mut *(self.at as *mut Session) }
    }
}
