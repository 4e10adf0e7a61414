//! Why a scenario isn't played to its end.
use byte_io::put::WriteFault;
use thiserror::Error;

/// Why a scenario isn't played to its end. Writers count from 1.
#[derive(Debug, Drop, Error)]
pub enum HostFault {
    #[error("out of memory")]
    OutOfMemory,
    #[error("writing the trace failed")]
    WriteFault,
    #[error("writer {writer} stalled")]
    Stalled { writer: u16 },
}
