//! The 16 bytes in front of each part of a ring.
ghost use Rattle.std.specs.Prelude.{◌≡◌, ℕ, ◌+◌, ◌≤◌, length};
ghost use Rattle.ring_bytes.specs.Bytes.{SameOutside};
ghost use Rattle.ring_bytes.specs.Value.{put_at};
ghost use Rattle.ring_bytes.specs.Header as spec;
ghost use Rattle.ring_bytes.specs.Header.{IsHeader, header_at, StandsAt};

use crate::key::RecordKey;
use page_geometry::{MAX_FLAGS, RECORD_HEADER_SIZE};
use trace_base::limits::MAX_FRAGMENTS;

/// The first number that a count of fragments can't be: the flags stand above it.
const COUNT_LIMIT: u16 = MAX_FRAGMENTS + 1;

/// What a header says. Padding and what is dead have no payload to be read.
#[derive(Clone, Copy, Debug, PartialEq, Eq)]
pub struct Header {
    /// Bytes behind the header, without the unused ones up to a whole record.
    pub len: u32,
    pub key: RecordKey,
    pub padding: bool,
    pub dead: bool,
}

pub fn is_live(header: Header) -> bool
    ensures { result ≡ spec.is_live header }
{
    !(header.padding || header.dead)
}

/// Count and flags in one word.
fn word_of(key: RecordKey) -> u16
    requires count { key.count ≤ MAX_FRAGMENTS }
    requires flags { key.flags ≤ MAX_FLAGS }
    ensures { result ≡ spec.word_of key }
{
    key.count + u16::from(key.flags) * COUNT_LIMIT
}

/// The four bits that are the ring's own.
fn own_bits(header: Header) -> u16
    ensures { result ≡ spec.own_bits header }
{
    u16::from(header.key.partial)
        + 2 * u16::from(header.key.awaits)
        + 4 * u16::from(header.padding)
        + 8 * u16::from(header.dead)
}

pub fn read_header(bytes: &[u8], at: u32) -> Header
    requires { at + RECORD_HEADER_SIZE ≤ length bytes.now }
    ensures header { result ≡ header_at bytes.now at }
    ensures fits { IsHeader result }
{
    let at = at as usize;
    let h = &bytes[at..at + RECORD_HEADER_SIZE as usize];
    let word = u16::from_le_bytes([h[12], h[13]]);
    let own = u16::from_le_bytes([h[14], h[15]]);
    Header {
        len: u32::from_le_bytes([h[0], h[1], h[2], h[3]]),
        key: RecordKey {
            sequence: u32::from_le_bytes([h[4], h[5], h[6], h[7]]),
            chunk_id: u32::from_le_bytes([h[8], h[9], h[10], h[11]]),
            count: word % COUNT_LIMIT,
            flags: (word / COUNT_LIMIT) as u8,
            partial: own % 2 == 1,
            awaits: own / 2 % 2 == 1,
        },
        padding: own / 4 % 2 == 1,
        dead: own / 8 % 2 == 1,
    }
}

/// Copies the piece to a place.
pub fn put(bytes: &mut [u8], at: u32, piece: &[u8])
    requires { at + length piece.now ≤ length bytes.old }
    ensures { bytes.new ≡ put_at at piece.now bytes.old }
{
    let at = at as usize;
    bytes[at..at + piece.len()].copy_from_slice(piece);
}

pub fn put_header(bytes: &mut [u8], at: u32, header: Header)
    requires room { at + RECORD_HEADER_SIZE ≤ length bytes.old }
    requires header { IsHeader header }
    ensures same { SameOutside at (at + RECORD_HEADER_SIZE) bytes.old bytes.new }
    ensures there { header_at bytes.new at ≡ header }
    ensures bytes { StandsAt bytes.new at header }
{
    let len = header.len.to_le_bytes();
    let sequence = header.key.sequence.to_le_bytes();
    let chunk_id = header.key.chunk_id.to_le_bytes();
    let word = word_of(header.key).to_le_bytes();
    let own = own_bits(header).to_le_bytes();
    let head = [
        len[0],
        len[1],
        len[2],
        len[3],
        sequence[0],
        sequence[1],
        sequence[2],
        sequence[3],
        chunk_id[0],
        chunk_id[1],
        chunk_id[2],
        chunk_id[3],
        word[0],
        word[1],
        own[0],
        own[1],
    ];
    put(bytes, at, &head);
}
