//! What an export answers, as numbers that a C enum has too.
ghost use Rattle.std.specs.Prelude.{◌≡◌};
ghost use Rattle.tracesmb_c.specs.Lending.{field_answer, begin_answer};

use trace_writer::{Begun, CallFault};

/// It was done.
pub const OK: u32 = 0;
/// Memory ran out.
pub const NO_MEMORY: u32 = 1;
/// A handle is empty that has to be full, or the other way round.
pub const BAD_HANDLE: u32 = 2;
/// A number is out of its range.
pub const BAD_NUMBER: u32 = 3;
/// The call isn't possible where the writer or the session stands.
pub const WRONG_STATE: u32 = 4;
/// The field isn't written: it is the service's own, or the packet would be too long or too deep.
pub const REFUSED: u32 = 5;
/// The writer has no chunk ids left for a packet.
pub const USED_UP: u32 = 6;
/// No chunk is free: the packet is begun, and thrown away as a whole.
pub const DROPPING: u32 = 7;
/// A writer is still lent, or bytes are still to be read.
pub const BUSY: u32 = 8;

/// What is answered to a field that was written or refused. A writer that drops packets never stalls.
pub fn field_code(answer: Result<(), CallFault>) -> u32
    ensures { result ≡ field_answer answer }
{
    match answer {
        Ok(()) => OK,
        Err(_) => REFUSED,
    }
}

/// What is answered to a packet's begin.
pub fn begin_code(begun: Begun) -> u32
    ensures { result ≡ begin_answer begun }
{
    match begun {
        Begun::Kept => OK,
        Begun::Dropping => DROPPING,
    }
}
