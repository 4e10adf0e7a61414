//! The exports of a session. Each tests its handle, and answers a stated fault where the call isn't possible.
ghost use Rattle.std.specs.Prelude.{◌≡◌, ◌≢◌, ◌-◌, ◌<◌, true, false, [], length, drop};
ghost use Rattle.std.specs.Prelude.{IfSome, Some, None};
ghost use Rattle.tracesmb_c.specs.declared.codes.TheConstants.{OK, NO_MEMORY, BAD_HANDLE, BAD_NUMBER, WRONG_STATE, BUSY};
ghost use Rattle.tracesmb_c.specs.Collecting.{TakesOrScrapes, MayCollect};
ghost use Rattle.tracesmb_c.specs.Lending.{IsReady};
ghost use Rattle.tracesmb_c.specs.Planning.{IsSetup};
ghost use Rattle.tracesmb_c.specs.Sessions.{IsSession, IsUntouched, HasGiven, IsMadeFor, KeepsGiven, KeepsWaiting};
ghost use Rattle.tracesmb_c.specs.Sessions.{KeepsOthers, KeepsWriters, HasStopped, AreAllHome, HasClosed};
ghost use Rattle.tracesmb_c.specs.Served.{HasSession, LeadsSession, IsLentBy, IsBackIn, SameTable, MayLend, MayTakeBack};
ghost use Rattle.tracesmb_c.specs.Served.{GivesNext, IsCloseAnswer};

use crate::closing::Losses;
use crate::codes::{BAD_HANDLE, BAD_NUMBER, BUSY, NO_MEMORY, OK, WRONG_STATE};
use crate::planning::SessionSetup;
use crate::session_handle::SessionHandle;
use crate::writer_handle::WriterHandle;
use std::alloc::Global;
use std::sync::Arc;

/// Makes a session in an empty handle.
#[unsafe(no_mangle)]
pub extern "C" fn tracesmb_session_create(
    alloc: Global,
    session: &mut SessionHandle,
    setup: &SessionSetup,
) -> u32
    requires session { IfSome session.old.raw.value IsSession }
    ensures session { IfSome session.new.raw.value IsSession }
    ensures done { result ≡ OK → HasSession session.new.raw.value (λ made. IsUntouched made × HasGiven made []) }
    ensures setup { result ≡ OK → ∥ IsSetup setup.now ∥₁ }
    ensures made { result ≡ OK → HasSession session.new.raw.value (IsMadeFor setup.now) }
    ensures refused { result ≢ OK → session.new.raw.value ≡ session.old.raw.value }
    ensures when { session.old.raw.value ≡ None → IsSetup setup.now → result ≢ OK → result ≡ NO_MEMORY }
{
    if session.full {
        return BAD_HANDLE;
    }
    let plan = match setup.plan(alloc) {
        Ok(plan) => plan,
        Err(code) => return code,
    };
    let Ok(made) = plan.make(alloc) else {
        return NO_MEMORY;
    };
    match Box::new(alloc, made) {
        Ok(whole) => {
            *session = SessionHandle::of(whole);
            OK
        }
        Err(failed) => {
            drop(failed.value);
            NO_MEMORY
        }
    }
}

/// Lends the writer with this number into an empty handle.
#[unsafe(no_mangle)]
pub extern "C" fn tracesmb_session_lend(
    alloc: Global,
    session: &mut SessionHandle,
    number: u32,
    writer: &mut WriterHandle,
) -> u32
    requires session { IfSome session.old.raw.value IsSession }
    requires ready { IfSome writer.old.raw.value IsReady }
    ensures session { IfSome session.new.raw.value IsSession }
    ensures ready { IfSome writer.new.raw.value IsReady }
    ensures done { result ≡ OK → IsLentBy number session.old.raw.value session.new.raw.value writer.new.raw.value }
    ensures refused { result ≢ OK → writer.new.raw.value ≡ writer.old.raw.value }
    ensures kept { result ≢ OK → session.old.raw.value ≢ None
        → LeadsSession session.old.raw.value session.new.raw.value (λ old new. (new.homes.items ≡ old.homes.items) × KeepsOthers old new) }
    ensures when { writer.old.raw.value ≡ None → HasSession session.old.raw.value (MayLend number) → result ≢ OK → result ≡ NO_MEMORY }
{
    if !session.full || writer.full {
        return BAD_HANDLE;
    }
    match session.raw.open().lend(alloc, number) {
        Ok(lent) => {
            *writer = WriterHandle::of(lent);
            OK
        }
        Err(code) => code,
    }
}

/// Takes a writer back that stands between two packets. Its handle is empty then.
#[unsafe(no_mangle)]
pub extern "C" fn tracesmb_session_take_back(
    alloc: Global,
    session: &mut SessionHandle,
    writer: &mut WriterHandle,
) -> u32
    requires session { IfSome session.old.raw.value IsSession }
    requires ready { IfSome writer.old.raw.value IsReady }
    requires table { SameTable session.old.raw.value writer.old.raw.value }
    ensures session { IfSome session.new.raw.value IsSession }
    ensures done { result ≡ OK → (writer.new.raw.value ≡ None) × IsBackIn writer.old.raw.value session.old.raw.value session.new.raw.value }
    ensures refused { result ≢ OK → (writer.new.raw.value ≡ writer.old.raw.value) × (session.new.raw.value ≡ session.old.raw.value) }
    ensures when { MayTakeBack session.old.raw.value writer.old.raw.value → result ≡ OK }
{
    if !session.full || !writer.full {
        return BAD_HANDLE;
    }
    let held = session.raw.open();
    let code = held.take_back_code(writer.raw.open());
    if code != OK {
        return code;
    }
    match writer.take(alloc) {
        Some(owned) => {
            held.take_back(Box::into_inner(owned));
            OK
        }
        None => BAD_HANDLE,
    }
}

/// Takes what a producer's writers completed, and with `held` what they have finished beside it.
#[unsafe(no_mangle)]
pub extern "C" fn tracesmb_session_collect(
    session: &mut SessionHandle,
    producer: u32,
    held: bool,
    taken: &mut u64,
) -> u32
    requires session { IfSome session.old.raw.value IsSession }
    ensures session { IfSome session.new.raw.value IsSession }
    ensures takes { result ≡ OK → LeadsSession session.old.raw.value session.new.raw.value (TakesOrScrapes held producer taken.new) }
    ensures refused { result ≢ OK → (session.new.raw.value ≡ session.old.raw.value) × (taken.new ≡ taken.old) }
    ensures given { session.old.raw.value ≢ None → LeadsSession session.old.raw.value session.new.raw.value KeepsGiven }
    ensures waits { session.old.raw.value ≢ None → LeadsSession session.old.raw.value session.new.raw.value KeepsWaiting }
    ensures writers { session.old.raw.value ≢ None → LeadsSession session.old.raw.value session.new.raw.value KeepsWriters }
    ensures when { HasSession session.old.raw.value (MayCollect producer) → result ≡ OK }
{
    if !session.full {
        return BAD_HANDLE;
    }
    let open = session.raw.open();
    if open.stopped {
        return WRONG_STATE;
    }
    if producer < 1 || producer > u32::from(open.producers) {
        return BAD_NUMBER;
    }
    *taken = open.collect(producer as u16, held);
    OK
}

/// Puts what comes next of the trace into the room.
#[unsafe(no_mangle)]
pub extern "C" fn tracesmb_session_read(
    session: &mut SessionHandle,
    room: &mut [u8],
    given: &mut usize,
) -> u32
    requires session { IfSome session.old.raw.value IsSession }
    ensures session { IfSome session.new.raw.value IsSession }
    ensures gives { result ≡ OK → LeadsSession session.old.raw.value session.new.raw.value (GivesNext given.new room.old room.new) }
    ensures untouched { result ≢ OK → (given.new ≡ given.old) × (room.new ≡ room.old) }
    ensures torn { result ≡ NO_MEMORY → HasSession session.new.raw.value (λ new. new.torn ≡ true) }
    ensures refused { result ≢ OK → session.old.raw.value ≢ None → LeadsSession session.old.raw.value session.new.raw.value KeepsGiven }
    ensures writers { session.old.raw.value ≢ None → LeadsSession session.old.raw.value session.new.raw.value KeepsWriters }
    ensures when { session.old.raw.value ≢ None → 0 < length room.old → result ≢ OK → result ≡ NO_MEMORY }
{
    if !session.full {
        return BAD_HANDLE;
    }
    if room.is_empty() {
        return BAD_NUMBER;
    }
    match session.raw.open().read(room) {
        Some(count) => {
            *given = count;
            OK
        }
        None => NO_MEMORY,
    }
}

/// Takes all that the writers completed, and closes their sequences.
#[unsafe(no_mangle)]
pub extern "C" fn tracesmb_session_stop(alloc: Global, session: &mut SessionHandle) -> u32
    requires session { IfSome session.old.raw.value IsSession }
    ensures session { IfSome session.new.raw.value IsSession }
    ensures done { result ≡ OK → LeadsSession session.old.raw.value session.new.raw.value HasStopped }
    ensures refused { result ≢ OK → session.new.raw.value ≡ session.old.raw.value }
    ensures given { session.old.raw.value ≢ None → LeadsSession session.old.raw.value session.new.raw.value KeepsGiven }
    ensures waits { session.old.raw.value ≢ None → LeadsSession session.old.raw.value session.new.raw.value KeepsWaiting }
    ensures when { HasSession session.old.raw.value (λ old. (old.stopped ≡ false) × AreAllHome old) → result ≡ OK }
{
    if !session.full {
        return BAD_HANDLE;
    }
    let open = session.raw.open();
    if open.stopped {
        return WRONG_STATE;
    }
    if !open.all_home() {
        return BUSY;
    }
    open.stop(alloc);
    OK
}

/// Ends a stopped session, and frees all that it had. Where it answers anything but `OK` or `BAD_HANDLE`,
/// it leaves all as it was. It answers `BAD_HANDLE` to an empty handle. And once more where the table has
/// an owner that isn't counted, which can't be while a program keeps what it owes: then the session is
/// let go, its handle is empty, and nothing is counted.
#[unsafe(no_mangle)]
pub extern "C" fn tracesmb_session_close(
    alloc: Global,
    session: &mut SessionHandle,
    losses: &mut [Losses],
) -> u32
    requires session { IfSome session.old.raw.value IsSession }
    ensures session { IfSome session.new.raw.value IsSession }
    ensures closed { result ≡ OK → HasSession session.old.raw.value (λ old. HasClosed old losses.new) }
    ensures empty { result ≡ OK → session.new.raw.value ≡ None }
    ensures gone { result ≡ BAD_HANDLE → session.new.raw.value ≡ None }
    ensures refused { result ≢ OK → result ≢ BAD_HANDLE → session.new.raw.value ≡ session.old.raw.value }
    ensures uncounted { result ≢ OK → losses.new ≡ losses.old }
    ensures answers { IfSome session.old.raw.value (IsCloseAnswer result (length losses.old)) }
{
    if !session.full {
        return BAD_HANDLE;
    }
    let open = session.raw.open();
    if !open.stopped {
        return WRONG_STATE;
    }
    if losses.len() != open.seats.len() {
        return BAD_NUMBER;
    }
    if Arc::strong_count(&open.table) != 1 || !(open.torn || open.waiting.is_done()) {
        return BUSY;
    }
    match session.take(alloc) {
        Some(whole) => {
            if Box::into_inner(whole).close(losses) {
                OK
            } else {
                BAD_HANDLE
            }
        }
        None => BAD_HANDLE,
    }
}
