//! The export that writes a packet of one event.
ghost use Rattle.std.specs.Prelude.{◌≡◌, ◌≢◌, true, false, IfSome};
ghost use Rattle.tracesmb_c.specs.declared.codes.TheConstants.{OK, DROPPING, REFUSED};
ghost use Rattle.tracesmb_c.specs.Answering.{Leads, Has};
ghost use Rattle.tracesmb_c.specs.Eventing.{field_calls, NotesEvent, CutsEvent, MayWriteEvent};
ghost use Rattle.tracesmb_c.specs.Lending.{IsReady};

use crate::codes::BAD_HANDLE;
use crate::writer_handle::WriterHandle;

/// Writes the packet of an event.
#[unsafe(no_mangle)]
pub extern "C" fn tracesmb_writer_event(
    writer: &mut WriterHandle,
    kind: u32,
    time: u64,
    track: u64,
    value: u64,
    name: &[u8],
) -> u32
    requires ready { IfSome writer.old.raw.value IsReady }
    ensures ready { IfSome writer.new.raw.value IsReady }
    ensures kept { result ≡ OK → Leads writer.old.raw.value writer.new.raw.value
        (NotesEvent true (field_calls kind time track value name.now)) }
    ensures dropping { result ≡ DROPPING
        → Leads writer.old.raw.value writer.new.raw.value (NotesEvent false (field_calls kind time track value name.now)) }
    ensures cut { result ≡ REFUSED → Leads writer.old.raw.value writer.new.raw.value
        (CutsEvent (field_calls kind time track value name.now)) }
    ensures refused { result ≢ OK → result ≢ DROPPING → result ≢ REFUSED → writer.new.raw.value ≡ writer.old.raw.value }
    ensures when { Has writer.old.raw.value (MayWriteEvent kind name.now) → result ≢ OK → result ≢ DROPPING → result ≡ REFUSED }
{
    if !writer.full {
        return BAD_HANDLE;
    }
    writer.raw.open().try_event(kind, time, track, value, name)
}
