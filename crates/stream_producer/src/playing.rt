//! A frame that is played.
ghost use Rattle.std.specs.Prelude.{◌≡◌, ◌-◌, ◌≤◌, ◌++◌, [], ◌∷◌, length, replicate, vec_capacity, OnOk, OnErr};
ghost use Rattle.byte_io.specs.Bytes.{CountsFaults, TakesPart, Intake};
ghost use Rattle.stream_frames.specs.Frames as frames;
ghost use Rattle.stream_frames.specs.Frames.{IsFrame, IsCommit};
ghost use Rattle.stream_frames.specs.Values.{limits_value, commit_value, frame_value};
ghost use Rattle.stream_producer.specs.History.{is_refusal_answer};

use crate::player::Player;
use byte_io::put::WriteFault;
use byte_io::traits::Sink;
use chunk_image::Image;
use chunk_plain::Words;
use service_core::WrongTarget;
use stream_frames::{Commit, Frame, FrameLimits};
use trace_buffer::Arrived;

/// Puts the payload into the room, with zeros behind it up to this size.
fn fill(room: &mut Vec<u8>, payload: &[u8], size: usize)
    requires fits { length payload.now ≤ size }
    requires room { size ≤ vec_capacity room.old }
    ensures bytes { room.new.items ≡ payload.now ++ replicate (size - length payload.now) 0 }
    ensures capacity { vec_capacity room.old ≤ vec_capacity room.new }
{
    room.clear();
    let Ok(()) = room.extend_from_slice(payload) else {
        unreachable!()
    };
    let Ok(()) = room.resize(size, 0) else {
        unreachable!()
    };
}

/// Whether a commit with this answer was refused.
fn is_refused(answer: Result<Arrived, WrongTarget>) -> bool
    ensures { result ≡ is_refusal_answer answer }
{
    match answer {
        Ok(arrived) => match arrived {
            Arrived::Kept | Arrived::Rewritten | Arrived::Discarded => false,
            Arrived::Duplicate | Arrived::TooFar | Arrived::BadChunk { .. } => true,
        },
        Err(_) => true,
    }
}

impl<W: Words> Player<W, W::Service> {
    ghost use Rattle.stream_producer.specs.Standing.{Stands, FitsSetup, Plays, due_of};

    /// An image arrives, with its patches. It is no call, so that what its frame says stays in registers.
    #[inline(always)]
    fn play_commit(&mut self, limits: &FrameLimits, commit: Commit<'_>)
        requires stands { Stands W.means self.old }
        requires fits { FitsSetup (limits_value limits.now) (W.means.setup self.old.table) }
        requires frame { IsCommit (limits_value limits.now) (commit_value commit) }
        ensures plays { (taken : Intake)
            → Plays W.means (limits_value limits.now) (frames.Commits (commit_value commit.entry) ∷ []) self.old self.new taken taken }
    {
        let header = commit.header;
        let size = limits.payload_sizes[usize::from(header.writer_id) - 1] as usize;
        fill(&mut self.payload, commit.payload, size);
        commit.patches.put_into(&mut self.patches);
        let image = Image {
            sequence: u32::from(header.writer_id) + 1,
            chunk_id: header.chunk_id,
            count: header.count,
            flags: header.flags,
            payload: &self.payload,
        };
        let answer = self
            .service
            .commit(&mut self.table, commit.target, &image, &self.patches);
        self.commits = self.commits.saturating_add(1);
        if is_refused(answer) {
            self.refused = self.refused.saturating_add(1);
        }
    }

    /// A buffer is read without limit.
    pub(crate) fn play_read<O: Sink>(&mut self, buffer: u8, out: &mut O) -> Result<(), WriteFault>
        requires stands { Stands W.means self.old }
        requires may { O.may_write out.old }
        ensures plays { (limits : frames.Limits) → OnOk result (Plays W.means limits (frames.Reads buffer ∷ [])
            self.old self.new (O.taken out.old) (O.taken out.new)) }
        ensures part { (limits : frames.Limits) → OnErr result (TakesPart (O.taken out.old) (O.taken out.new)
            (due_of W.means limits self.old (frames.Reads buffer ∷ []))) }
        ensures count { CountsFaults (O.faults out.old) (O.faults out.new) result }
        ensures goes_on { OnOk result (O.may_write out.new) }
    {
        match self
            .service
            .read_buffer(&mut self.table, buffer, u64::MAX, out)
        {
            Ok(_) => Ok(()),
            Err(WriteFault) => Err(WriteFault),
        }
    }

    /// Plays a frame. A close plays nothing: its sequences are closed when the stream is finished.
    #[inline(always)]
    pub(crate) fn play<O: Sink>(
        &mut self,
        limits: &FrameLimits,
        frame: Frame<'_>,
        out: &mut O,
    ) -> Result<(), WriteFault>
        requires stands { Stands W.means self.old }
        requires fits { FitsSetup (limits_value limits.now) (W.means.setup self.old.table) }
        requires frame { IsFrame (limits_value limits.now) (frame_value frame) }
        requires may { O.may_write out.old }
        ensures plays { OnOk result (Plays W.means (limits_value limits.now) (frame_value frame.entry ∷ [])
            self.old self.new (O.taken out.old) (O.taken out.new)) }
        ensures part { OnErr result (TakesPart (O.taken out.old) (O.taken out.new)
            (due_of W.means (limits_value limits.now) self.old (frame_value frame.entry ∷ []))) }
        ensures count { CountsFaults (O.faults out.old) (O.faults out.new) result }
        ensures goes_on { OnOk result (O.may_write out.new) }
    {
        match frame {
            Frame::Commit(commit) => {
                self.play_commit(limits, commit);
                Ok(())
            }
            Frame::Read { buffer } => self.play_read(buffer, out),
            Frame::Close => Ok(()),
        }
    }
}
