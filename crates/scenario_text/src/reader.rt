//! What the lines so far have set up and done.
ghost use Rattle.std.specs.Prelude.{◌≡◌};
ghost use Rattle.scenario_text.specs.Sound.{IsSound};

use crate::line_list::LineList;
use crate::open_packet::OpenPacket;
use crate::scenario::Scenario;
use std::alloc::Global;

#[derive(Drop)]
pub struct Reader {
    pub scenario: Scenario,
    /// Of each producer, whether it is closed.
    pub closed: Vec<bool>,
    /// Of each writer, the packet that is begun.
    pub packets: Vec<Option<OpenPacket>>,
    /// The sum of the lengths of all packets.
    pub bytes: u32,
    /// How many clones of buffers are asked for.
    pub clones: u8,
    ghost sound: { IsSound scenario.buffers.items scenario.producers.items scenario.writers.items packets.items },
}

impl Reader {
    ghost use Rattle.std.specs.Prelude.{◌≡◌};
    ghost use Rattle.scenario_text.specs.State.{beginning};
    ghost use Rattle.scenario_text.specs.Scenario.{parts_of, parts_said};
    ghost use Rattle.scenario_text.specs.View.{state_of};

    pub fn new(alloc: Global) -> Self
        ensures { state_of result ≡ beginning }
    {
        Reader {
            scenario: Scenario {
                buffers: Vec::new(alloc),
                producers: Vec::new(alloc),
                writers: Vec::new(alloc),
                lines: LineList::new(alloc),
            },
            closed: Vec::new(alloc),
            packets: Vec::new(alloc),
            bytes: 0,
            clones: 0,
        }
    }

    /// What the lines have said.
    pub fn into_scenario(self) -> Scenario
        ensures { parts_of result ≡ parts_said (state_of self) }
    {
        let Reader {
            scenario,
            closed: _,
            packets: _,
            bytes: _,
            clones: _,
        } = self;
        scenario
    }
}
