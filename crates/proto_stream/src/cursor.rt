//! A cursor in the payload of a chunk that is lent to it.
ghost use Rattle.std.specs.Prelude.{◌≡◌, ℕ, ◌+◌, ◌-◌, ◌<◌, ◌≤◌, ◌↔◌, [], ◌∷◌, List, length, min, take, Some, IsNone, IfSome, IfNone, OnSome};
ghost use Rattle.trace_base.specs.declared.limits.TheConstants.{MAX_INPUT};
ghost use Rattle.trace_model.specs.Packets.{open_length};
ghost use Rattle.trace_model.specs.Images.{with_bytes};

use trace_base::limits::MAX_INPUT;

/// A nested length whose message goes on: four bytes that read as 0.
const OPEN_LENGTH: [u8; 4] = [0x80, 0x80, 0x80, 0x00];

/// Puts bytes into a payload at a place.
fn write_at(payload: &mut [u8], at: usize, bytes: &[u8])
    requires { at + length bytes.now ≤ length payload.old }
    ensures { payload.new ≡ with_bytes payload.old at bytes.now }
{
    payload[at..at + bytes.len()].copy_from_slice(bytes);
}

/// A place in a payload, from which on bytes are written.
pub struct ChunkCursor<'c> {
    payload: &'c mut [u8],
    at: usize,
    ghost within: { at ≤ length payload.now },
    ghost small: { length payload.now ≤ MAX_INPUT },
}

impl<'c> ChunkCursor<'c> {
    ghost use Rattle.proto_stream.specs.Cursor.{cursor_payload, cursor_at};

    /// A cursor at a place of a payload. The payload is what was lent again, with what was
    /// written, once the cursor is gone.
    pub fn new(payload: &'c mut [u8], at: u32) -> ChunkCursor<'c>
        requires within { at ≤ length payload.old }
        requires small { length payload.old ≤ MAX_INPUT }
        ensures same_payload { (cursor_payload result).ghost_name ≡ payload.entry.ghost_name }
        ensures payload { (cursor_payload result).now ≡ payload.old }
        ensures at { cursor_at result ≡ at }
    {
        ChunkCursor {
            payload,
            at: at as usize,
        }
    }

    /// The place of the next byte.
    pub fn at(&self) -> u32
        ensures { result ≡ cursor_at self.now }
    {
        self.at as u32
    }

    /// How many bytes can be written.
    pub fn left(&self) -> u32
        ensures { result ≡ length (cursor_payload self.now).now - cursor_at self.now }
    {
        (self.payload.len() - self.at) as u32
    }

    /// Writes the first bytes of the piece, as many as fit, and says how many.
    pub fn put(&mut self, piece: &[u8]) -> usize
        ensures same_payload { (cursor_payload self.new).ghost_name ≡ (cursor_payload self.old).ghost_name }
        ensures count { result ≡ min (length piece.now) (length (cursor_payload self.old).now - cursor_at self.old) }
        ensures bytes { (cursor_payload self.new).now
            ≡ with_bytes (cursor_payload self.old).now (cursor_at self.old) (take result piece.now) }
        ensures at { cursor_at self.new ≡ cursor_at self.old + result }
    {
        let count = piece.len().min(self.payload.len() - self.at);
        write_at(self.payload, self.at, &piece[..count]);
        self.at += count;
        count
    }

    /// Sets aside the four bytes of a nested length whose message goes on, and answers their
    /// place. None where they don't fit.
    pub fn put_hole(&mut self) -> Option<u32>
        ensures same_payload { (cursor_payload self.new).ghost_name ≡ (cursor_payload self.old).ghost_name }
        ensures none { IsNone result ↔ (length (cursor_payload self.old).now < cursor_at self.old + 4) }
        ensures unchanged { IfNone result (self.new ≡ self.old) }
        ensures offset { IfSome result (λ offset. offset ≡ cursor_at self.old) }
        ensures bytes { OnSome result ((cursor_payload self.new).now
            ≡ with_bytes (cursor_payload self.old).now (cursor_at self.old) open_length) }
        ensures at { OnSome result (cursor_at self.new ≡ cursor_at self.old + 4) }
    {
        if self.payload.len() - self.at < OPEN_LENGTH.len() {
            return None;
        }
        let offset = self.at as u32;
        write_at(self.payload, self.at, &OPEN_LENGTH);
        self.at += OPEN_LENGTH.len();
        Some(offset)
    }

    /// Puts four bytes in place of four that were written.
    pub fn set_four(&mut self, offset: u32, bytes: [u8; 4])
        requires { offset + 4 ≤ cursor_at self.old }
        ensures same_payload { (cursor_payload self.new).ghost_name ≡ (cursor_payload self.old).ghost_name }
        ensures bytes { (cursor_payload self.new).now ≡ with_bytes (cursor_payload self.old).now offset bytes }
        ensures at { cursor_at self.new ≡ cursor_at self.old }
    {
        write_at(self.payload, offset as usize, &bytes);
    }
}

impl Drop for ChunkCursor<'_> {
    ghost use Rattle.proto_stream.specs.Cursor.{cursor_payload};

    fn drop(self)
        ensures { self.exit.0.now ≡ (cursor_payload self.entry).now }
    {
        let ChunkCursor { payload: _, at: _ } = self;
    }
}

#[cfg(test)]
mod tests {
    use super::*;
    use crate::{head_bytes, head_nested, head_number};
    use std::test::Fail;

    // A packet with a number in a nested message, whose length is put in once it has ended; and
    // a text that doesn't fit.
    #[test]
    fn streams_a_packet(rt: HostRuntime) -> Result<(), Fail> {
        let mut payload = [0xEE; 16];
        let mut cursor = ChunkCursor::new(&mut payload, 1);
        assert_eq!(rt; cursor.put(head_nested(900).as_slice()), 2);
        assert_eq!(rt; cursor.put_hole(), Some(3));
        assert_eq!(rt; cursor.put(head_number(2, 300).as_slice()), 3);
        cursor.set_four(3, [0x83, 0x80, 0x80, 0x00]);
        assert_eq!(rt; (cursor.at(), cursor.left()), (10, 6));
        assert_eq!(rt; cursor.put(head_bytes(1, 200).as_slice()), 3);
        assert_eq!(rt; cursor.put_hole(), None);
        assert_eq!(rt; cursor.put(b"abcdef"), 3);
        assert_eq!(rt; cursor.put(b"g"), 0);
        drop(cursor);
        assert_eq!(rt;
            payload.as_slice(),
            b"\xEE\xA2\x38\x83\x80\x80\x00\x10\xAC\x02\x0A\xC8\x01abc".as_slice()
        );
        Ok(())
    }
}
