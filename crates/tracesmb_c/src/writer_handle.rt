//! What C keeps of a writer: a handle, which owns it behind a pointer.
ghost use Rattle.std.specs.Prelude.{◌≡◌, true, Option, Some, None, is_some};
ghost use Rattle.tracesmb_c.specs.declared.writer.OwnedWriter.{OwnedWriter};
ghost use Rattle.tracesmb_c.specs.WriterOwning.{held, held_coded};
ghost use Rattle.tracesmb_c.specs.Handles.{value_of};

use crate::writer::OwnedWriter;
use box_parts::Parts;
use std::alloc::Global;
use std::marker::Model;

/// The pointer of a box with a writer, or nothing. C sees one pointer: an allocator takes no bytes.
#[repr(C)]
#[derive(Drop)]
pub struct RawWriter {
    pub(crate) at: *mut u8,
    pub(crate) alloc: Global,
    pub ghost value: { Option OwnedWriter } by { held_coded },
}

impl Model for RawWriter {
    ghost also_owns = { λ raw. held raw.alloc raw.at raw.value };
}

impl RawWriter {
    /// Nothing.
    pub fn empty(alloc: Global) -> RawWriter
        ensures { result.value ≡ None }
    {
        RawWriter {
            at: std::ptr::null_mut::<u8>(),
            alloc,
        }
    }

    /// What the parts of a box own.
    pub fn of_parts(parts: Parts<OwnedWriter, Global>) -> RawWriter
        ensures { result.value ≡ Some parts.value }
    {
        let Parts { ptr, alloc } = parts;
        RawWriter {
            at: ptr as *mut u8,
            alloc,
        }
    }

    /// The parts of the box again.
    pub fn into_parts(self) -> Parts<OwnedWriter, Global>
        requires { is_some self.value ≡ true }
        ensures { self.value ≡ Some result.value }
    {
        let RawWriter { at, alloc } = self;
        Parts {
            ptr: at as *mut OwnedWriter,
            alloc,
        }
    }
}

/// What C keeps of a writer that is lent to it: nothing, or all of it. A C program begins with zeros,
/// which are a handle with nothing.
#[repr(C)]
#[derive(Drop)]
pub struct WriterHandle {
    pub raw: RawWriter,
    pub full: bool,
    ghost tied: { is_some raw.value ≡ full },
}

impl WriterHandle {
    /// A handle with this writer.
    pub fn of(writer: Box<OwnedWriter>) -> WriterHandle
        ensures { result.raw.value ≡ Some writer.value }
    {
        WriterHandle {
            raw: RawWriter::of_parts(Parts::of(writer)),
            full: true,
        }
    }

    /// Takes the writer out, where there is one.
    pub fn take(&mut self, alloc: Global) -> Option<Box<OwnedWriter>>
        ensures emptied { self.new.raw.value ≡ None }
        ensures value { value_of result ≡ self.old.raw.value }
    {
        let empty = WriterHandle {
            raw: RawWriter::empty(alloc),
            full: false,
        };
        let WriterHandle { raw, full } = std::mem::replace(self, empty);
        if full {
            Some(raw.into_parts().into_box())
        } else {
            None
        }
    }
}

unsafe impl Send for RawWriter {}
