//! A writer that is polled for flush requests again and again, where none was made.
ghost use Rattle.std.specs.Prelude.{◌≡◌};
ghost use Rattle.page_geometry.specs.Sizes.{payload_size};
ghost use Rattle.table_speed.specs.Timed.{IsFresh};

use crate::places::{Place, Tally, geometry, make, next_place};
use crate::writers::writer_for;
use chunk_words::HostTable;
use page_geometry::Geometry;
use std::alloc::Global;

/// Polls the writer of a seat with which nothing was done. What it answered counts as taken.
fn poll_writer(host: &HostTable, place: Place, geometry: Geometry, polls: u32) -> Tally
    requires fresh { IsFresh host.now place }
    requires size { payload_size geometry.page_size geometry.chunks ≡ 284 }
{
    let mut writer = writer_for(host, place, geometry);
    let mut answers: u32 = 0;
    for _ in 0..polls {
        if writer.poll_flush(host).is_some() {
            answers = answers.wrapping_add(1);
        }
    }
    writer.flush(host);
    let _seat = writer.into_seat();
    Tally {
        written: 0,
        chunks: 0,
        taken: answers,
    }
}

/// None where no memory is left.
pub fn poll_often(alloc: Global, polls: u32) -> Option<Tally> {
    let geometry = geometry()?;
    let (host, mut seats, _service) = make(alloc, geometry, true)?;
    let place = next_place(&host, &mut seats, true)?;
    Some(poll_writer(&host, place, geometry, polls))
}
