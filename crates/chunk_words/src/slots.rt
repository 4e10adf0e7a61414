//! What a seat does with the slot that is out with it: the body goes out, or comes in.
ghost use Rattle.std.specs.Prelude.{◌≡◌, Some, None, [], ◌∷◌, IsSome};
ghost use Rattle.atomic_table.specs.Table.{rest};
ghost use Rattle.chunk_words.specs.Moves.{body_in};

use crate::host::HostTable;
use crate::steps::ChunkSeat;
use commit_body::CommitBody;

impl HostTable {
    /// Takes the body out of the slot of a chunk.
    pub(crate) fn body_out(&self, seat: &mut ChunkSeat, chunk: u32) -> CommitBody
        requires seat { seat.old.table_id ≡ self.now.table.shared.table_id }
        requires slot { seat.old.me.1 ≡ (chunk, body_in seat.old.me.1) ∷ [] }
        requires body { IsSome (body_in seat.old.me.1) }
        ensures seat { seat.new.table_id ≡ seat.old.table_id }
        ensures body { body_in seat.old.me.1 ≡ Some result }
        ensures me { seat.new.me ≡ (seat.old.me.0, (chunk, None) ∷ []) }
    {
        let table = &self.table;
        let Some(body) = table.shared.exchange(seat, chunk as usize, None) else {
            unreachable!()
        };
        body
    }

    /// Puts the body into the slot of a chunk. What was in it is dropped; that is nothing.
    pub(crate) fn body_in(&self, seat: &mut ChunkSeat, chunk: u32, body: CommitBody)
        requires seat { seat.old.table_id ≡ self.now.table.shared.table_id }
        requires slot { seat.old.me.1 ≡ (chunk, body_in seat.old.me.1) ∷ [] }
        ensures seat { seat.new.table_id ≡ seat.old.table_id }
        ensures me { seat.new.me ≡ (seat.old.me.0, (chunk, Some body) ∷ []) }
    {
        let table = &self.table;
        table.shared.exchange(seat, chunk as usize, Some(body));
    }
}
