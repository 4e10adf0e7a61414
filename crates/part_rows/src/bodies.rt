//! Lives of a patch list, worked by hand.
use arrayvec::ArrayVec;
use commit_body::{Closed, CommitBody, Patch, PatchList};
use std::test::Fail;

enum Step {
    Open(u32, u32),
    /// The writer's chunk, the length, and the answer.
    Close(u32, u32, Closed),
    /// The id of the first chunk, and the patches that are sent.
    Drain(u32, &'static [Patch]),
}

/// A length of 303 in the chunk before; holes of chunks 0 to 2 closed in chunks 2 and 3, the inner
/// ones first, whose patches go out where the second chunk has the id 0; and a packet that was given
/// up, whose lengths are 0.
static STEPS: [Step; 16] = [
    Step::Open(0, 6),
    Step::Close(1, 303, Closed::Later),
    Step::Drain(
        0,
        &[Patch {
            chunk_id: 0,
            offset: 6,
            bytes: [0xAF, 0x82, 0x80, 0x00],
            last: true,
        }],
    ),
    Step::Drain(0, &[]),
    Step::Open(0, 8),
    Step::Open(0, 30),
    Step::Open(1, 4),
    Step::Open(2, 9),
    Step::Close(
        2,
        5,
        Closed::Here {
            offset: 9,
            bytes: [0x85, 0x80, 0x80, 0x00],
        },
    ),
    Step::Close(2, 128, Closed::Later),
    Step::Close(2, 268_435_455, Closed::Later),
    Step::Drain(
        u32::MAX,
        &[
            Patch {
                chunk_id: 0,
                offset: 4,
                bytes: [0x80, 0x81, 0x80, 0x00],
                last: true,
            },
            Patch {
                chunk_id: 4_294_967_295,
                offset: 30,
                bytes: [0xFF, 0xFF, 0xFF, 0x7F],
                last: false,
            },
        ],
    ),
    Step::Open(3, 12),
    Step::Close(4, 0, Closed::Later),
    Step::Close(4, 0, Closed::Later),
    Step::Drain(
        0,
        &[
            Patch {
                chunk_id: 3,
                offset: 12,
                bytes: [0x80, 0x80, 0x80, 0x00],
                last: true,
            },
            Patch {
                chunk_id: 0,
                offset: 8,
                bytes: [0x80, 0x80, 0x80, 0x00],
                last: true,
            },
        ],
    ),
];

#[test]
fn closed_holes_are_written_or_sent_once(rt: HostRuntime) -> Result<(), Fail> {
    let mut list = PatchList::new();
    for step in &STEPS {
        match step {
            Step::Open(chunk_id, offset) => {
                assert!(rt; list.open_count() < 16);
                list.add_hole(*chunk_id, *offset);
            }
            Step::Close(held, value, wanted) => {
                assert!(rt; list.open_count() > 0 && *value < 1 << 28);
                assert!(rt; list.unsent() + list.open_count() <= 16);
                assert_eq!(rt; list.close_hole(*held, *value), *wanted);
            }
            Step::Drain(from, wanted) => {
                let mut body = CommitBody {
                    payload: Vec::new(rt.alloc()),
                    patches: Box::new(rt.alloc(), ArrayVec::new())?,
                    target: 1,
                };
                list.drain_into(&mut body, *from);
                assert_eq!(rt; body.patches.as_slice(), *wanted);
                assert_eq!(rt; list.unsent(), 0);
            }
        }
    }
    assert_eq!(rt; list.open_count(), 0);
    Ok(())
}
