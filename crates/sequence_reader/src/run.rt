//! The packets that lie whole in one chunk, one behind another: most packets do.
ghost use Rattle.std.specs.Prelude.{◌≡◌, ◌-◌, ◌/◌, ◌%◌, ◌<◌, ◌≤◌, ◌^◌, true, length, Some, IfSome};
ghost use Rattle.trace_model.specs.Buffers.{live_at};
ghost use Rattle.trace_model.specs.Reading.{reading_of, is_readable};
ghost use Rattle.trace_buffer.specs.Calls.{place_in};
ghost use Rattle.trace_buffer.specs.Records.{chunk_of};
ghost use Rattle.sequence_reader.specs.Spots.{FitsChunk};
ghost use Rattle.sequence_reader.specs.Steps.{IsPieceIn};
ghost use Rattle.sequence_reader.specs.Turns.{IsAt};
ghost use Rattle.sequence_reader.specs.Runs.{IsPlain, MayBePlain, Runs, PutsRun, CountsRun, UnlessRunFails};

use crate::bools::both;
use crate::progress::Progress;
use crate::spot::{Bounds, Spot};
use crate::step::{Piece, spot_behind};
use byte_io::put::WriteFault;
use byte_io::traits::Sink;
use chunk_image::read_fragment;
use packet_check::accepts_packet;
use page_geometry::{FIRST_CONTINUES, LAST_CONTINUES};
use ring_bytes::RecordKey;
use trace_buffer::TraceBuffer;
use trace_file::put_packet;

/// Why a run ended.
#[derive(Clone, Copy, Debug, PartialEq, Eq)]
pub enum RunEnd {
    /// All of its chunk was passed.
    Chunk,
    /// What comes next isn't such a packet, or isn't due.
    Other,
    /// A write failed in the next record.
    Fault,
}

/// How far a run came, and why it ended there.
#[derive(Clone, Copy, Debug, PartialEq, Eq)]
pub struct Ran {
    pub progress: Progress,
    pub end: RunEnd,
}

/// Delivers the packets that come next, as long as each lies whole in the chunk where the read stands.
/// The buffer learns of all of them at once.
#[inline(always)]
pub fn pass_run<O: Sink>(
    buffer: &mut TraceBuffer,
    bounds: Bounds,
    limit: u64,
    progress: Progress,
    out: &mut O,
) -> Ran
    requires at { IsAt buffer.old bounds progress }
    requires most { progress.delivered ≤ limit }
    requires may { O.may_write out.old }
    ensures runs { Runs buffer.old buffer.new (O.taken out.old) (O.taken out.new) bounds limit progress result }
    ensures count { CountsRun (O.faults out.old) (O.faults out.new) result.end }
    ensures goes_on { UnlessRunFails (O.may_write out.new) result.end }
{
    let ran = find_run(buffer, bounds, limit, progress, out);
    let count = ran.progress.delivered - progress.delivered;
    buffer.deliver(bounds.sequence, ran.progress.at.cursor(), count);
    ran
}

/// Writes their records.
#[inline(always)]
fn find_run<O: Sink>(
    buffer: &TraceBuffer,
    bounds: Bounds,
    limit: u64,
    progress: Progress,
    out: &mut O,
) -> Ran
    requires at { IsAt buffer.now bounds progress }
    requires most { progress.delivered ≤ limit }
    requires may { O.may_write out.old }
    ensures puts { PutsRun buffer.now (O.taken out.old) (O.taken out.new) bounds limit progress result }
    ensures count { CountsRun (O.faults out.old) (O.faults out.new) result.end }
    ensures goes_on { UnlessRunFails (O.may_write out.new) result.end }
{
    let held = progress.held.at(buffer, bounds, progress.at.chunk_id);
    let progress = Progress { held, ..progress };
    match held.place {
        Some(place) if progress.at.chunk_id < bounds.end => {
            put_run(buffer, bounds, place, limit, progress, out)
        }
        _ => Ran {
            progress,
            end: RunEnd::Other,
        },
    }
}

/// The same of a chunk whose record lies at this place.
#[inline(always)]
fn put_run<O: Sink>(
    buffer: &TraceBuffer,
    bounds: Bounds,
    place: u32,
    limit: u64,
    progress: Progress,
    out: &mut O,
) -> Ran
    requires at { IsAt buffer.now bounds progress }
    requires before { progress.at.chunk_id < bounds.end }
    requires place { place_in (live_at buffer.now bounds.sequence progress.at.chunk_id) ≡ Some place }
    requires most { progress.delivered ≤ limit }
    requires may { O.may_write out.old }
    ensures puts { PutsRun buffer.now (O.taken out.old) (O.taken out.new) bounds limit progress result }
    ensures count { CountsRun (O.faults out.old) (O.faults out.new) result.end }
    ensures goes_on { UnlessRunFails (O.may_write out.new) result.end }
{
    let chunk_id = progress.at.chunk_id;
    let (key, payload) = buffer.image_at(bounds.sequence, chunk_id, place);
    let mut progress = progress;
    while progress.delivered < limit {
        let Some(piece) = plain_at(key, payload, bounds.closed, progress.at) else {
            return Ran {
                progress,
                end: RunEnd::Other,
            };
        };
        match put_packet(out, piece.bytes, bounds.sequence, progress.marked) {
            Ok(()) => {
                progress = Progress {
                    at: piece.behind,
                    held: progress.held,
                    marked: false,
                    delivered: progress.delivered + 1,
                }
            }
            Err(WriteFault) => {
                return Ran {
                    progress,
                    end: RunEnd::Fault,
                };
            }
        }
        if piece.behind.chunk_id != chunk_id {
            return Ran {
                progress,
                end: RunEnd::Chunk,
            };
        }
    }
    Ran {
        progress,
        end: RunEnd::Other,
    }
}

/// The fragment at a spot of a chunk with this header and this payload, where it is a packet by itself
/// that is delivered. It asks the header once for all fragments of the chunk, and not for each as `present`.
#[inline(always)]
fn plain_at(key: RecordKey, payload: &[u8], closed: bool, spot: Spot) -> Option<Piece<'_>>
    requires small { length payload.now ≤ 2 ^ 26 }
    requires reads { is_readable (reading_of key.count payload.now) ≡ true }
    requires fits { FitsChunk closed (chunk_of key payload.now) spot }
    requires low { spot.chunk_id < 2 ^ 33 }
    ensures here { IfSome result (λ piece. IsPieceIn closed (chunk_of key payload.now) spot piece) }
    ensures plain { IfSome result (λ piece. IsPlain piece) }
{
    if !may_be_plain(key, spot.passed) {
        return None;
    }
    let last = spot.passed + 1 == key.count;
    let Some(fragment) = read_fragment(&payload[spot.offset as usize..], spot.offset, last) else {
        unreachable!()
    };
    if fragment.dropped || !accepts_packet(fragment.bytes) {
        return None;
    }
    let end = fragment.offset + fragment.bytes.len() as u32;
    let stays = both(key.partial, !closed);
    Some(Piece {
        bytes: fragment.bytes,
        dropped: false,
        headless: false,
        runs_on: false,
        awaits: false,
        behind: spot_behind(spot, end, both(last, !stays)),
    })
}

/// Whether the header leaves it open that the fragment with this number is a packet by itself.
#[inline(always)]
fn may_be_plain(key: RecordKey, passed: u16) -> bool
    ensures { result ≡ true → MayBePlain key passed }
{
    if passed < plain_start(key) {
        return false;
    }
    passed < plain_end(key)
}

/// The first fragment of a chunk that doesn't continue the packet of the chunk before.
#[inline(always)]
fn plain_start(key: RecordKey) -> u16
    ensures { key.flags % 2 ≡ 1 → result ≡ 1 }
{
    u16::from(key.flags % 2 == FIRST_CONTINUES)
}

/// Behind the last fragment of a chunk that neither runs on into the next one nor awaits a patch.
#[inline(always)]
fn plain_end(key: RecordKey) -> u16
    ensures within { result ≤ key.count }
    ensures ends { key.flags / 2 % 2 ≡ 1 → result ≡ key.count - 1 }
    ensures done { key.awaits ≡ true → result ≡ key.count - 1 }
{
    if key.awaits || key.flags / LAST_CONTINUES % 2 == 1 {
        return key.count.saturating_sub(1);
    }
    key.count
}
