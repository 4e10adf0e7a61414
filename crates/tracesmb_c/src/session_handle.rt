//! What C keeps of a session: a handle, which owns it behind a pointer.
ghost use Rattle.std.specs.Prelude.{◌≡◌, true, Option, Some, None, is_some};
ghost use Rattle.tracesmb_c.specs.declared.session.OwnedSession.{OwnedSession};
ghost use Rattle.tracesmb_c.specs.SessionOwning.{held, held_coded};
ghost use Rattle.tracesmb_c.specs.Handles.{value_of};

use crate::session::OwnedSession;
use box_parts::Parts;
use std::alloc::Global;
use std::marker::Model;

/// The pointer of a box with a session, or nothing. C sees one pointer: an allocator takes no bytes.
#[repr(C)]
#[derive(Drop)]
pub struct RawSession {
    pub(crate) at: *mut u8,
    pub(crate) alloc: Global,
    pub ghost value: { Option OwnedSession } by { held_coded },
}

impl Model for RawSession {
    ghost also_owns = { λ raw. held raw.alloc raw.at raw.value };
}

impl RawSession {
    /// Nothing.
    pub fn empty(alloc: Global) -> RawSession
        ensures { result.value ≡ None }
    {
        RawSession {
            at: std::ptr::null_mut::<u8>(),
            alloc,
        }
    }

    /// What the parts of a box own.
    pub fn of_parts(parts: Parts<OwnedSession, Global>) -> RawSession
        ensures { result.value ≡ Some parts.value }
    {
        let Parts { ptr, alloc } = parts;
        RawSession {
            at: ptr as *mut u8,
            alloc,
        }
    }

    /// The parts of the box again.
    pub fn into_parts(self) -> Parts<OwnedSession, Global>
        requires { is_some self.value ≡ true }
        ensures { self.value ≡ Some result.value }
    {
        let RawSession { at, alloc } = self;
        Parts {
            ptr: at as *mut OwnedSession,
            alloc,
        }
    }
}

/// What C keeps of a session: nothing, or all of it. A C program begins with zeros,
/// which are a handle with nothing.
#[repr(C)]
#[derive(Drop)]
pub struct SessionHandle {
    pub raw: RawSession,
    pub full: bool,
    ghost tied: { is_some raw.value ≡ full },
}

impl SessionHandle {
    /// A handle with this session.
    pub fn of(whole: Box<OwnedSession>) -> SessionHandle
        ensures { result.raw.value ≡ Some whole.value }
    {
        SessionHandle {
            raw: RawSession::of_parts(Parts::of(whole)),
            full: true,
        }
    }

    /// Takes the session out, where there is one.
    pub fn take(&mut self, alloc: Global) -> Option<Box<OwnedSession>>
        ensures emptied { self.new.raw.value ≡ None }
        ensures value { value_of result ≡ self.old.raw.value }
    {
        let empty = SessionHandle {
            raw: RawSession::empty(alloc),
            full: false,
        };
        let SessionHandle { raw, full } = std::mem::replace(self, empty);
        if full {
            Some(raw.into_parts().into_box())
        } else {
            None
        }
    }
}

unsafe impl Send for RawSession {}
