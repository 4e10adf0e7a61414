//! The exports of a writer. Each tests its handle, and answers a stated fault where the call isn't possible.
ghost use Rattle.std.specs.Prelude.{◌≡◌, ◌≢◌, true, false, [], ◌∷◌, IfSome, None};
ghost use Rattle.trace_model.specs.Calls as call;
ghost use Rattle.tracesmb_c.specs.declared.codes.TheConstants.{OK, DROPPING};
ghost use Rattle.tracesmb_c.specs.Lending.{IsReady, IsOutOfChunks, Notes, NotesField, Stays};
ghost use Rattle.tracesmb_c.specs.Answering.{Leads, MayBegin, MayWriteNumber, MayWriteText, MayNest, MayEnd, MayFinish, MayFlush};

use crate::codes::BAD_HANDLE;
use crate::writer_handle::WriterHandle;

/// Begins a packet.
#[unsafe(no_mangle)]
pub extern "C" fn tracesmb_writer_begin(writer: &mut WriterHandle) -> u32
    requires ready { IfSome writer.old.raw.value IsReady }
    ensures ready { IfSome writer.new.raw.value IsReady }
    ensures kept { result ≡ OK → Leads writer.old.raw.value writer.new.raw.value (λ old new. Notes old new (call.Begun true ∷ [])) }
    ensures dropping { result ≡ DROPPING
        → Leads writer.old.raw.value writer.new.raw.value (λ old new. Notes old new (call.Begun false ∷ [])) }
    ensures reason { result ≡ DROPPING → Leads writer.old.raw.value writer.new.raw.value IsOutOfChunks }
    ensures refused { result ≢ OK → result ≢ DROPPING → writer.new.raw.value ≡ writer.old.raw.value }
    ensures when { MayBegin writer.old.raw.value → result ≢ OK → result ≡ DROPPING }
{
    if !writer.full {
        return BAD_HANDLE;
    }
    writer.raw.open().try_begin()
}

/// Writes a number.
#[unsafe(no_mangle)]
pub extern "C" fn tracesmb_writer_varint(writer: &mut WriterHandle, field: u32, value: u64) -> u32
    requires ready { IfSome writer.old.raw.value IsReady }
    ensures ready { IfSome writer.new.raw.value IsReady }
    ensures done { result ≡ OK → Leads writer.old.raw.value writer.new.raw.value (λ old new. NotesField old new (call.Number field value)) }
    ensures refused { result ≢ OK → writer.old.raw.value ≢ None → Leads writer.old.raw.value writer.new.raw.value Stays }
    ensures when { MayWriteNumber field value writer.old.raw.value → result ≡ OK }
{
    if !writer.full {
        return BAD_HANDLE;
    }
    writer.raw.open().try_varint(field, value)
}

/// Writes a text.
#[unsafe(no_mangle)]
pub extern "C" fn tracesmb_writer_bytes(writer: &mut WriterHandle, field: u32, text: &[u8]) -> u32
    requires ready { IfSome writer.old.raw.value IsReady }
    ensures ready { IfSome writer.new.raw.value IsReady }
    ensures done { result ≡ OK → Leads writer.old.raw.value writer.new.raw.value
        (λ old new. NotesField old new (call.Bytes field text.now 1)) }
    ensures refused { result ≢ OK → writer.old.raw.value ≢ None → Leads writer.old.raw.value writer.new.raw.value Stays }
    ensures when { MayWriteText field text.now writer.old.raw.value → result ≡ OK }
{
    if !writer.full {
        return BAD_HANDLE;
    }
    writer.raw.open().try_bytes(field, text)
}

/// Begins a nested message.
#[unsafe(no_mangle)]
pub extern "C" fn tracesmb_writer_begin_nested(writer: &mut WriterHandle, field: u32) -> u32
    requires ready { IfSome writer.old.raw.value IsReady }
    ensures ready { IfSome writer.new.raw.value IsReady }
    ensures done { result ≡ OK → Leads writer.old.raw.value writer.new.raw.value (λ old new. NotesField old new (call.Nested field)) }
    ensures refused { result ≢ OK → writer.old.raw.value ≢ None → Leads writer.old.raw.value writer.new.raw.value Stays }
    ensures when { MayNest field writer.old.raw.value → result ≡ OK }
{
    if !writer.full {
        return BAD_HANDLE;
    }
    writer.raw.open().try_begin_nested(field)
}

/// Ends the innermost message.
#[unsafe(no_mangle)]
pub extern "C" fn tracesmb_writer_end_nested(writer: &mut WriterHandle) -> u32
    requires ready { IfSome writer.old.raw.value IsReady }
    ensures ready { IfSome writer.new.raw.value IsReady }
    ensures done { result ≡ OK → Leads writer.old.raw.value writer.new.raw.value (λ old new. Notes old new (call.Ended ∷ [])) }
    ensures refused { result ≢ OK → writer.new.raw.value ≡ writer.old.raw.value }
    ensures when { MayEnd writer.old.raw.value → result ≡ OK }
{
    if !writer.full {
        return BAD_HANDLE;
    }
    writer.raw.open().try_end_nested()
}

/// Ends the packet.
#[unsafe(no_mangle)]
pub extern "C" fn tracesmb_writer_finish(writer: &mut WriterHandle) -> u32
    requires ready { IfSome writer.old.raw.value IsReady }
    ensures ready { IfSome writer.new.raw.value IsReady }
    ensures done { result ≡ OK → Leads writer.old.raw.value writer.new.raw.value (λ old new. Notes old new (call.Finished ∷ [])) }
    ensures refused { result ≢ OK → writer.new.raw.value ≡ writer.old.raw.value }
    ensures when { MayFinish writer.old.raw.value → result ≡ OK }
{
    if !writer.full {
        return BAD_HANDLE;
    }
    writer.raw.open().try_finish()
}

/// Completes the chunk that the writer holds, between two packets.
#[unsafe(no_mangle)]
pub extern "C" fn tracesmb_writer_flush(writer: &mut WriterHandle) -> u32
    requires ready { IfSome writer.old.raw.value IsReady }
    ensures ready { IfSome writer.new.raw.value IsReady }
    ensures done { result ≡ OK → Leads writer.old.raw.value writer.new.raw.value (λ old new. Notes old new (call.Flushed ∷ [])) }
    ensures refused { result ≢ OK → writer.new.raw.value ≡ writer.old.raw.value }
    ensures when { MayFlush writer.old.raw.value → result ≡ OK }
{
    if !writer.full {
        return BAD_HANDLE;
    }
    writer.raw.open().try_flush()
}
