//! The chunks that a writer completed, as the service takes them.
ghost use Rattle.std.specs.Prelude.{◌≡◌, ◌<◌};

use crate::calls::{CLOSE, COLLECT, FINISH, FLUSH, OPEN, PACKET, number, text};
use crate::collector::Image;
use crate::setting::{Collected, FROM, left_collected};
use commit_body::Patch;
use std::alloc::Global;
use std::marker::Brand;
use std::process::Abort;
use std::sync::ledger::{Blank, Ledger};
use std::test::Fail;
use trace_base::ids::id_of;
use trace_base::policy::WriterPolicy;
use trace_base::steps::Steps;

/// Packets that run on, and one that is given up behind a small one.
fn packets<R: Abort, L: Ledger>(rt: &R, alloc: Global, blank: Blank) -> Result<[Collected; 4], Fail>
    requires name { blank.name ≡ L.name }
    requires parts { blank.parts ≡ L.parts }
    requires some_part { 0 < L.parts }
{
    let mut steps = Steps::<L>::new(blank);
    let drops = WriterPolicy::Drops;
    let end = [FLUSH, COLLECT];
    let long = [PACKET, text(1, 297), FINISH];
    let crosses = [PACKET, OPEN, text(1, 300), CLOSE, FINISH, COLLECT];
    let ends_early = [PACKET, text(1, 273), OPEN, number(2, 7), CLOSE, FINISH];
    let small = [PACKET, number(8, 1), FINISH];
    let given_up = [PACKET, OPEN, text(1, 5000), CLOSE, FINISH, COLLECT];
    let behind = [PACKET, number(8, 2), FINISH, FLUSH, COLLECT];
    Ok([
        left_collected(rt, alloc, 14, drops, [&long, &end, &[]], &mut steps)?,
        left_collected(rt, alloc, 14, drops, [&crosses, &end, &[]], &mut steps)?,
        left_collected(rt, alloc, 14, drops, [&ends_early, &end, &[]], &mut steps)?,
        left_collected(
            rt,
            alloc,
            2,
            drops,
            [&small, &given_up, &behind],
            &mut steps,
        )?,
    ])
}

/// What a chunk is to have.
#[derive(Clone, Copy)]
struct Want {
    /// Whose script it is of, and its position.
    script: usize,
    position: u32,
    count: u16,
    flags: u8,
    front: &'static [u8],
    patch: Option<Patch>,
}

impl Want {
    fn is_seen(&self, image: &Image) -> bool {
        let header = image.header;
        header.chunk_id == id_of(FROM, self.position)
            && header.writer_id == 1
            && header.count == self.count
            && header.flags == self.flags
            && image.front.starts_with(self.front)
            && image.first_patch == self.patch
            && image.patches == usize::from(self.patch.is_some())
    }
}

/// The last patch for the first chunk.
fn patch(offset: u32, bytes: [u8; 4]) -> Option<Patch> {
    Some(Patch {
        chunk_id: FROM,
        offset,
        bytes,
        last: true,
    })
}

fn make_want(
    script: usize,
    position: u32,
    count: u16,
    flags: u8,
    front: &'static [u8],
    patch: Option<Patch>,
) -> Want {
    Want {
        script,
        position,
        count,
        flags,
        front,
        patch,
    }
}

fn wants() -> [Want; 9] {
    [
        make_want(0, 0, 1, 2, b"\x98\x82\x80\x00\x0a\xa9\x02xxx", None),
        make_want(0, 1, 1, 1, b"\x94\x80\x80\x00xxx", None),
        make_want(
            1,
            0,
            1,
            6,
            b"\x98\x82\x80\x00\xa2\x38\x80\x80\x80\x00\x0a\xac\x02xxx",
            None,
        ),
        make_want(
            1,
            1,
            1,
            1,
            b"\x9d\x80\x80\x00xxx",
            patch(6, *b"\xaf\x82\x80\x00"),
        ),
        make_want(2, 0, 1, 2, b"\x96\x82\x80\x00\x0a\x91\x02xxx", None),
        make_want(
            2,
            1,
            1,
            1,
            b"\x86\x80\x80\x00\x82\x80\x80\x00\x10\x07",
            None,
        ),
        make_want(
            3,
            0,
            2,
            6,
            b"\x82\x80\x80\x00\x40\x01\xea\x8f\x80\x00\xa2\x38\x80\x80\x80\x00",
            None,
        ),
        make_want(
            3,
            1,
            1,
            1,
            b"\xff\xff\xff\x7fxxx",
            patch(12, *b"\x80\x80\x80\x00"),
        ),
        make_want(3, 2, 1, 0, b"\x85\x80\x80\x00\xd0\x02\x01\x40\x02", None),
    ]
}

fn image_of(collected: &[Collected; 4], script: usize, position: u32) -> Option<Image> {
    *collected.get(script)?.images.get(position as usize)?
}

#[test]
fn completes_what_was_written(rt: HostRuntime) -> Result<(), Fail> {
    let collected = packets::<_, Brand>(&rt, rt.alloc(), Blank::new(1))?;
    for want in wants() {
        let seen = match image_of(&collected, want.script, want.position) {
            Some(image) => want.is_seen(&image),
            None => false,
        };
        assert!(rt; seen, "script {} chunk {}", want.script, want.position);
    }
    let counts = collected.map(|one| (one.left.wrong, one.left.begun, one.left.dropped, one.taken));
    assert_eq!(rt;
        counts,
        [
            (None, 1, 0, 2),
            (None, 1, 0, 2),
            (None, 1, 0, 2),
            (None, 3, 0, 3)
        ]
    );
    Ok(())
}
