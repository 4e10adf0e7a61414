//! Why a text gives no configuration.

use std::alloc::AllocError;

/// What is wrong with a text, or with a block of it. The variants stand in the order in which they
/// count for one block.
#[derive(Clone, Copy, Debug, PartialEq, Eq)]
pub enum ConfigReason {
    /// The text isn't of the form.
    BadText,
    /// A field has no value of its kind, or a block in place of a value, or the other way round.
    WrongKind,
    /// A buffer has no size.
    MissingSize,
    /// A size is outside its range.
    OutOfRange,
    /// One buffer, producer or source more than a configuration may have.
    TooMany,
    /// The source's target names none.
    NoSuchBuffer,
    /// A record of the source's would be larger than its buffer.
    ChunkLargerThanBuffer,
}

/// Why a text gives no configuration.
#[derive(Clone, Copy, Debug, PartialEq, Eq)]
pub enum ConfigFault {
    OutOfMemory,
    /// The first fault: its line, counted from 1, and the first reason that holds there.
    BadConfig { line: u32, reason: ConfigReason },
}

impl From<AllocError> for ConfigFault {
    ghost use Rattle.std.specs.Prelude.{◌≡◌};
    ghost use Rattle.config_text.specs.declared.reason.ConfigFault.TheVariants.{OutOfMemory};

    ghost from_gives = { λ _ e. e ≡ OutOfMemory };

    fn from(_failed: AllocError) -> ConfigFault {
        ConfigFault::OutOfMemory
    }
}
