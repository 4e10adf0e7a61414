//! Chunks that lines `raw` ask to be committed. A chunk is kept as the text of its line, so that no memory
//! is taken for its bytes before they are played.
ghost use Rattle.std.specs.Prelude.{◌≡◌, ◌++◌, ◌≤◌, length, drop};
ghost use Rattle.std.specs.Prelude.{ℕ, ◌^◌, ◌<◌, List, true, Some};
ghost use Rattle.scenario_text.specs.RawChunks as asked;
ghost use Rattle.scenario_text.specs.RawChunks.{chunk_in, IsRawLine};
ghost use Rattle.scenario_text.specs.RawRanges.{are_patch_numbers, are_raw_numbers};
ghost use Rattle.scenario_text.specs.Ranges.{value};
ghost use Rattle.scenario_text.specs.RawForms.{payload_part};
ghost use Rattle.scenario_text.specs.Hex.{hex_of};

use crate::effects::small;
use crate::form::{Form, NamedPatch, NamedRaw};
use crate::hex::put_hex;
use crate::pieces::next_piece;
use crate::reading::form;
use std::marker::Model;

/// Four bytes of a chunk that are put in place of those that are there.
#[derive(Clone, Copy, Debug, PartialEq, Eq)]
pub struct RawPatch {
    /// The id of the chunk.
    pub chunk_id: u32,
    /// Where the bytes stand in the chunk's payload.
    pub offset: u32,
    pub bytes: [u8; 4],
    /// No later patch is for this chunk.
    pub last: bool,
}

/// What a chunk has beside its payload.
#[derive(Clone, Copy, Debug, PartialEq, Eq)]
pub struct RawHeader {
    pub chunk_id: u32,
    pub count: u16,
    pub flags: u8,
    /// The buffer that it is for, counted from 1.
    pub buffer: u8,
    /// How many bytes its payload begins with. Zeros stand behind them.
    pub len: usize,
    pub patch: Option<RawPatch>,
}

/// A chunk that is asked for. Contracts see its parts.
#[derive(Drop)]
pub struct RawChunk<'c> {
    text: &'c [u8],
}

impl<'c> Model for RawChunk<'c> {
    ghost use Rattle.scenario_text.specs.RawChunks.{chunk_in, AskedChunk, IsRawLine};

    ghost Value = { AskedChunk };

    ghost view = { λ chunk. chunk_in chunk.text.now };

    ghost invariant = { λ chunk. IsRawLine chunk.text.now };
}

/// The patch that is named, with numbers that are known to be small.
#[tactic(auto, using(crate::proofs::RawNumbers::patch_id, crate::proofs::RawNumbers::patch_offset), unfolding(crate::specs::RawChunks::patch_asked))]
fn patch_asked(patch: Option<NamedPatch>) -> Option<RawPatch>
    requires { are_patch_numbers patch ≡ true }
    ensures { result ≡ asked.patch_asked patch }
{
    match patch {
        None => None,
        Some(patch) => {
            let bytes = patch.bytes;
            Some(RawPatch {
                chunk_id: small(patch.chunk_id),
                offset: small(patch.offset),
                bytes,
                last: patch.last,
            })
        }
    }
}

/// The word of a line that says the payload: its seventh.
fn payload_word(line: &[u8]) -> &[u8]
    requires { IsRawLine line.now }
    ensures { hex_of result.now ≡ Some (payload_part line.now) }
{
    let mut rest = line;
    for _ in 0..6usize {
        let (_word, more) = next_piece(rest, b' ');
        match more {
            Some(behind) => rest = behind,
            None => unreachable!(),
        }
    }
    let (word, _more) = next_piece(rest, b' ');
    word
}

impl<'c> RawChunk<'c> {
    ghost use Rattle.std.specs.Prelude.{◌≡◌, ◌++◌, ◌≤◌, length, drop};
    ghost use Rattle.scenario_text.specs.RawChunks.{chunk_in, IsRawLine};

    /// The chunk that a line asks for.
    pub(crate) fn new(line: &'c [u8]) -> RawChunk<'c>
        requires { IsRawLine line.now }
        ensures { result ≡ chunk_in line.now }
    {
        RawChunk { text: line }
    }

    /// The line.
    pub(crate) fn line(&self) -> &'c [u8]
        ensures says { chunk_in result.now ≡ self.now }
        ensures is { IsRawLine result.now }
    {
        self.text
    }

    /// The same chunk once more.
    pub fn chunk(&self) -> RawChunk<'c>
        ensures { result ≡ self.now }
    {
        RawChunk { text: self.text }
    }

    /// What it has beside its payload.
    pub fn header(&self) -> RawHeader
        ensures chunk_id { result.chunk_id ≡ self.now.chunk_id }
        ensures count { result.count ≡ self.now.count }
        ensures flags { result.flags ≡ self.now.flags }
        ensures buffer { result.buffer ≡ self.now.buffer }
        ensures len { result.len ≡ length self.now.payload }
        ensures patch { result.patch ≡ self.now.patch }
    {
        let (form, _fields) = form(self.text);
        match form {
            Some(Form::Raw { raw }) => header_of(raw),
            _ => unreachable!(),
        }
    }

    /// Puts what its payload begins with into a room, from its beginning on.
    pub fn put_payload(&self, room: &mut [u8])
        requires { length self.now.payload ≤ length room.old }
        ensures { room.new ≡ self.now.payload ++ drop (length self.now.payload) room.old }
    {
        put_hex(payload_word(self.text), room);
    }
}

/// The parts that are named, with numbers that are known to be small.
fn header_of(raw: NamedRaw) -> RawHeader
    requires numbers { are_raw_numbers raw ≡ true }
    requires buffer { value raw.buffer < 2 ^ 8 }
    ensures chunk_id { result.chunk_id ≡ value raw.chunk_id }
    ensures count { result.count ≡ value raw.count }
    ensures flags { result.flags ≡ value raw.flags }
    ensures buffer { result.buffer ≡ value raw.buffer }
    ensures len { result.len ≡ raw.len }
    ensures patch { result.patch ≡ asked.patch_asked raw.patch }
{
    let NamedRaw {
        writer: _,
        chunk_id,
        count,
        flags,
        buffer,
        len,
        patch,
    } = raw;
    RawHeader {
        chunk_id: small(chunk_id),
        count: small(count) as u16,
        flags: small(flags) as u8,
        buffer: small(buffer) as u8,
        len,
        patch: patch_asked(patch),
    }
}
