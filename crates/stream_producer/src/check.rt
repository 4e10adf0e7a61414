//! A whole stream that is looked at, with nothing played.
ghost use Rattle.std.specs.Prelude.{◌≡◌};
ghost use Rattle.config_text.specs.Configs.{parts_of};
ghost use Rattle.config_text.specs.Writing.{IsWritable};
ghost use Rattle.stream_frames.specs.Framing.{verdict_on};
ghost use Rattle.stream_producer.specs.Faults.{faults_of};
ghost use Rattle.stream_producer.specs.Setups.{config_limits};

use crate::fault::{StreamFault, of_frames};
use crate::making::frame_limits;
use config_text::Config;
use stream_frames::check_frames;

/// Looks at all frames of a stream. Where none is at fault, `feed` and `finish` meet no fault in the same
/// stream but of the sink.
pub fn check_stream(config: &Config, stream: &[u8]) -> Result<(), StreamFault>
    requires { IsWritable (parts_of config.now) }
    ensures { result ≡ faults_of (verdict_on (config_limits (parts_of config.now)) stream.now) }
{
    match check_frames(&frame_limits(config), stream) {
        Ok(()) => Ok(()),
        Err(fault) => Err(of_frames(fault)),
    }
}
