//! What is finished of a chunk, by its state and its count.
use crate::finished_of;
use chunk_plain::Seen;
use page_geometry::{ChunkHeader, PageWord};

#[test]
fn takes_all_but_the_last_fragment(rt: HostRuntime) {
    // The chunk at place 1 of a page is free, being written, being read, and complete.
    for (word, count, finished) in [
        (0x0, 5, None),
        (0x4, 0, None),
        (0x4, 1, None),
        (0x4, 2, Some(1)),
        (0x4, 1023, Some(1022)),
        (0x8, 5, None),
        (0xC, 5, None),
    ] {
        let header = ChunkHeader {
            chunk_id: 0,
            writer_id: 1,
            count,
            flags: 0,
        };
        let seen = Seen {
            word: PageWord(word),
            header,
        };
        assert_eq!(rt; finished_of(seen, 1), finished);
    }
}
