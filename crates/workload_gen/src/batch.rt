//! Lines that wait to be written together.
ghost use Rattle.std.specs.Prelude.{◌≡◌, ◌+◌, ◌*◌, ◌≤◌, ◌<◌, ◌^◌, [], ◌∷◌, ◌++◌, length, codes, decimal};
ghost use Rattle.arrayvec.specs.ArrayVec.{array_vec_len};
ghost use Rattle.workload_gen.specs.Workload.{packet_line, set_up_lines, IsAdded};

use arrayvec::ArrayVec;
use itoa::Integer;
use trace_base::limits::MAX_GENERATED_WRITERS;

/// How many bytes wait at most.
pub const ROOM: usize = 16_384;

/// No line of a packet has more bytes.
pub const LONGEST_LINE: usize = 64;

/// Text that waits to be written.
pub type Batch = ArrayVec<u8, ROOM>;

/// Adds the lines before the first packet.
#[tactic(auto, unfolding(crate::specs::Workload::set_up_lines, crate::specs::Workload::repeated))]
pub fn add_set_up(batch: &mut Batch, writers: u8)
    requires empty { batch.old.items ≡ [] }
    requires few { writers ≤ MAX_GENERATED_WRITERS }
    ensures text { batch.new.items ≡ set_up_lines writers }
{
    add(batch, b"buffer 65536 ring\nproducer 16 4096 14\n");
    for _writer in 0..writers {
        add(batch, b"writer 1 1 stall\n");
    }
}

/// Adds the line of packet `k`, which is one of this writer in this turn.
#[tactic(auto, unfolding(crate::specs::Workload::packet_line))]
pub fn add_line(batch: &mut Batch, k: u32, writer: u8, turn: u32, drawn: u32)
    requires room { array_vec_len batch.old + LONGEST_LINE ≤ ROOM }
    ensures { IsAdded batch.old.items (packet_line k writer turn drawn) batch.new.items }
{
    add(batch, b"p ");
    add_number(batch, writer);
    add(batch, b" 8:");
    add_number(batch, u64::from(k) * 100 + u64::from(drawn % 100));
    add(batch, b" 900{1:\"");
    add(batch, &[b'a' + (drawn / 24 % 26) as u8]);
    add(batch, b"\"*");
    add_number(batch, (drawn % 24 + 1) as u8);
    add(batch, b" 2:");
    add_number(batch, turn);
    add(batch, b"}\n");
}

fn add_number<I: Integer>(batch: &mut Batch, number: I)
    requires { array_vec_len batch.old + I.MAX_STR_LEN ≤ ROOM }
    ensures text { IsAdded batch.old.items (I.text number) batch.new.items }
    ensures len { array_vec_len batch.new ≤ array_vec_len batch.old + I.MAX_STR_LEN }
{
    let mut digits = itoa::Buffer::new();
    add(batch, digits.format(number).as_bytes());
}

fn add(batch: &mut Batch, piece: &[u8])
    requires { array_vec_len batch.old + length piece.now ≤ ROOM }
    ensures text { IsAdded batch.old.items piece.now batch.new.items }
    ensures len { array_vec_len batch.new ≡ array_vec_len batch.old + length piece.now }
{
    let _ = batch.try_extend_from_slice(piece);
}
