//! The steps of a writer's seat: each is one atomic step on the table.
ghost use Rattle.std.specs.Prelude.{◌≡◌, ◌+◌, ◌<◌, Some, None, length, IsSome, IfSome};
ghost use Rattle.chunk_plain.specs.declared.tokens.TheConstants.{POSITION_LIMIT};
ghost use Rattle.chunk_plain.specs.Setup.{spot, producer_of, IsChunkOf, id_at};
ghost use Rattle.chunk_plain.specs.Drafts.{draft_at, IsHolding};
ghost use Rattle.chunk_plain.specs.Plain.{StandsWhole};
ghost use Rattle.chunk_plain.specs.Words.{HasClaimed, call_of};
ghost use Rattle.chunk_plain.specs.Calls.{MayGetHead};
ghost use Rattle.chunk_words.specs.Knows.{view_of};
ghost use Rattle.chunk_words.specs.Moves.{Asks, Claims, Stamps, Begins, SetsHeader, Publishes, KeepsWord, Fetches, Completes, Notes, body_in};
ghost use Rattle.chunk_words.specs.Places.{payload_start, payload_words};
ghost use Rattle.chunk_words.specs.Seats.{HasOut};
ghost use Rattle.chunk_words.specs.Sits.{CanStep, WriterLeaves};

use crate::host::HostTable;
use crate::moves::Move;
use crate::seats::WriterSeat;
use crate::steps::{make_load, make_or, make_store};
use chunk_plain::WriterCall;
use page_geometry::ChunkHeader;
use page_geometry::masks::{begin_mask, claim_mask, complete_mask};

impl HostTable {
    /// Reads the page word of a chunk. Where it has the chunk's claim bit, this is the claim, and it is
    /// lost; else the seat knows what it knew.
    pub(crate) fn step_ask(&self, seat: &mut WriterSeat, chunk: u32) -> u64
        requires seat { CanStep self.now seat.old }
        requires chunk { IsChunkOf self.now.layout (producer_of self.now.layout seat.old.place) chunk }
        ensures { WriterLeaves seat.old seat.new (λ me new. Asks self.now.layout chunk me result new) }
    {
        let spot = self.layout.spot(chunk);
        let step = Move::Ask {
            layout: &self.layout,
            chunk,
        };
        let table = &self.table;
        make_load(
            &table.shared,
            &mut seat.seat,
            self.page_index(spot.page),
            &step,
        )
    }

    /// Sets the claim bit of a chunk, and the layout of its page.
    pub(crate) fn step_claim(&self, seat: &mut WriterSeat, chunk: u32) -> u64
        requires seat { CanStep self.now seat.old }
        requires chunk { IsChunkOf self.now.layout (producer_of self.now.layout seat.old.place) chunk }
        ensures { WriterLeaves seat.old seat.new (λ me new. Claims self.now.layout chunk me result new) }
    {
        let spot = self.layout.spot(chunk);
        let mask = claim_mask(spot.place, spot.layout);
        let step = Move::Claim {
            layout: &self.layout,
            chunk,
        };
        let at = self.page_index(spot.page);
        let table = &self.table;
        make_or(&table.shared, &mut seat.seat, at, mask, &step)
    }

    /// Stores the header of a claimed chunk, with count 0, and takes its slot.
    pub(crate) fn step_stamp(&self, seat: &mut WriterSeat, chunk: u32, id: u32)
        requires seat { CanStep self.now seat.old }
        requires place { seat.old.place < length self.now.layout.writers }
        requires chunk { chunk < length self.now.layout.spots }
        requires claimed { HasClaimed (view_of seat.old.seat.me.0) chunk }
        requires unstamped { (view_of seat.old.seat.me.0).stamped ≡ None }
        requires id { id ≡ id_at self.now.layout seat.old.place (length (view_of seat.old.seat.me.0).begun) }
        requires few_begun { length (view_of seat.old.seat.me.0).begun < POSITION_LIMIT }
        ensures { WriterLeaves seat.old seat.new (Stamps chunk (spot self.now.layout chunk).payload_size) }
    {
        let spot = self.layout.spot(chunk);
        let header = ChunkHeader {
            chunk_id: id,
            writer_id: seat.place + 1,
            count: 0,
            flags: 0,
        };
        let step = Move::Stamp {
            chunk,
            payload_size: spot.payload_size,
        };
        let table = &self.table;
        make_store(
            &table.shared,
            &mut seat.seat,
            self.header_index(chunk),
            header.pack(),
            &step,
        );
    }

    /// Begins a chunk whose header is stored and whose slot is out, and puts the slot back empty.
    pub(crate) fn step_begin(&self, seat: &mut WriterSeat, chunk: u32)
        requires seat { seat.old.seat.table_id ≡ self.now.table.shared.table_id }
        requires out { HasOut seat.old.place chunk None seat.old.seat.me }
        requires chunk { chunk < length self.now.layout.spots }
        requires stamped { (view_of seat.old.seat.me.0).stamped ≡ Some (record {
          chunk = chunk;
          position = length (view_of
              seat.old.seat.me.0).begun;
        }) }
        ensures { WriterLeaves seat.old seat.new (Begins chunk (spot self.now.layout chunk).payload_size) }
    {
        let spot = self.layout.spot(chunk);
        let step = Move::Begin {
            chunk,
            payload_size: spot.payload_size,
        };
        let table = &self.table;
        make_or(
            &table.shared,
            &mut seat.seat,
            self.page_index(spot.page),
            begin_mask(spot.place),
            &step,
        );
    }

    /// Stores the header of a held chunk.
    pub(crate) fn step_header(
        &self,
        seat: &mut WriterSeat,
        chunk: u32,
        position: u32,
        count: u16,
        flags: u8,
    )
        requires seat { CanStep self.now seat.old }
        requires place { seat.old.place < length self.now.layout.writers }
        requires chunk { chunk < length self.now.layout.spots }
        requires head { MayGetHead self.now.layout (view_of seat.old.seat.me.0) chunk position (record { count = count; flags = flags }) }
        ensures { WriterLeaves seat.old seat.new (SetsHeader chunk position (record { count = count; flags = flags })) }
    {
        let header = ChunkHeader {
            chunk_id: self.layout.id_at(seat.place, position),
            writer_id: seat.place + 1,
            count,
            flags,
        };
        let step = Move::SetHeader {
            chunk,
            position,
            count,
            flags,
        };
        let table = &self.table;
        make_store(
            &table.shared,
            &mut seat.seat,
            self.header_index(chunk),
            header.pack(),
            &step,
        );
    }

    /// Stores a payload word of a held chunk, whose first one has this index.
    pub(crate) fn step_publish(
        &self,
        seat: &mut WriterSeat,
        chunk: u32,
        position: u32,
        start: usize,
        index: usize,
        word: u64,
    )
        requires seat { CanStep self.now seat.old }
        requires chunk { chunk < length self.now.layout.spots }
        requires start { start ≡ payload_start self.now.layout chunk }
        requires held { IsHolding (view_of seat.old.seat.me.0) chunk position }
        requires index { index < payload_words self.now.layout chunk }
        requires kept { KeepsWord (draft_at (view_of seat.old.seat.me.0) position) index word }
        ensures { WriterLeaves seat.old seat.new (Publishes chunk position index word) }
    {
        let step = Move::Publish {
            chunk,
            position,
            index,
            word,
        };
        let table = &self.table;
        make_store(
            &table.shared,
            &mut seat.seat,
            self.payload_index(chunk, start, index),
            word,
            &step,
        );
    }

    /// Takes the slot of a held chunk.
    pub(crate) fn step_fetch(&self, seat: &mut WriterSeat, chunk: u32, position: u32)
        requires seat { CanStep self.now seat.old }
        requires chunk { chunk < length self.now.layout.spots }
        requires held { IsHolding (view_of seat.old.seat.me.0) chunk position }
        ensures { WriterLeaves seat.old seat.new (Fetches chunk) }
    {
        let _ = position;
        let table = &self.table;
        make_load(
            &table.shared,
            &mut seat.seat,
            self.header_index(chunk),
            &Move::Fetch { chunk },
        );
    }

    /// Completes a chunk whose slot is out with its body in it, and puts the slot back.
    pub(crate) fn step_complete(&self, seat: &mut WriterSeat, chunk: u32, position: u32)
        requires seat { seat.old.seat.table_id ≡ self.now.table.shared.table_id }
        requires chunk { chunk < length self.now.layout.spots }
        requires held { IsHolding (view_of seat.old.seat.me.0) chunk position }
        requires body { IsSome (body_in seat.old.seat.me.1) }
        requires out { HasOut seat.old.place chunk (body_in seat.old.seat.me.1) seat.old.seat.me }
        requires whole { IfSome (body_in seat.old.seat.me.1) (λ body. StandsWhole (spot self.now.layout chunk).payload_size (view_of
            seat.old.seat.me.0) position body) }
        ensures { WriterLeaves seat.old seat.new (λ me new. IfSome (body_in me.1)
            (λ body. Completes self.now.layout chunk position body me new)) }
    {
        let spot = self.layout.spot(chunk);
        let table = &self.table;
        make_or(
            &table.shared,
            &mut seat.seat,
            self.page_index(spot.page),
            complete_mask(spot.place),
            &Move::Complete {
                layout: &self.layout,
                chunk,
                position,
            },
        );
    }

    /// Notes a call.
    pub(crate) fn step_call(&self, seat: &mut WriterSeat, call: WriterCall<'_>)
        requires seat { CanStep self.now seat.old }
        ensures { WriterLeaves seat.old seat.new (Notes (call_of call.entry)) }
    {
        let table = &self.table;
        make_load(
            &table.shared,
            &mut seat.seat,
            self.spare,
            &Move::Call { call },
        );
    }
}
