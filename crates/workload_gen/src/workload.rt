//! The whole text of a workload, written in pieces.
ghost use Rattle.std.specs.Prelude.{◌≡◌, ◌≤◌, OnOk, OnErr};
ghost use Rattle.byte_io.specs.Bytes.{after_told, CountsFaults, TakesPart};
ghost use Rattle.workload_gen.specs.Workload.{workload};

use crate::batch::{Batch, LONGEST_LINE, ROOM, add_line, add_set_up};
use crate::draw::{drawn_of, next_state};
use byte_io::put::{WriteFault, put_all};
use byte_io::traits::Sink;
use trace_base::limits::{MAX_GENERATED_PACKETS, MAX_GENERATED_WRITERS};

/// Writes the scenario of a number: so many writers, from 1 to 64, with so many packets each, from 1 to 100,000.
pub fn generate<O: Sink>(
    number: u64,
    writers: u8,
    packets: u32,
    out: &mut O,
) -> Result<(), WriteFault>
    requires writers { (1 ≤ writers) × (writers ≤ MAX_GENERATED_WRITERS) }
    requires packets { (1 ≤ packets) × (packets ≤ MAX_GENERATED_PACKETS) }
    requires may { O.may_write out.old }
    ensures all { OnOk result (O.taken out.new ≡ after_told (O.taken out.old) (workload number writers packets)) }
    ensures part { OnErr result (TakesPart (O.taken out.old) (O.taken out.new) (workload number writers packets)) }
    ensures count { CountsFaults (O.faults out.old) (O.faults out.new) result }
    ensures goes_on { OnOk result (O.may_write out.new) }
{
    let writers_of_turn = u32::from(writers);
    let mut batch = Batch::new();
    add_set_up(&mut batch, writers);
    let mut state = number;
    for k in 0..packets * writers_of_turn {
        if batch.len() > ROOM - LONGEST_LINE {
            put_all(out, batch.as_slice())?;
            batch.clear();
        }
        state = next_state(state);
        let writer = (k % writers_of_turn + 1) as u8;
        add_line(
            &mut batch,
            k,
            writer,
            k / writers_of_turn + 1,
            drawn_of(state),
        );
    }
    put_all(out, batch.as_slice())
}
