//! The numbers of the format's tables, the words of a chunk's life, and the bytes of two headers.
use page_geometry::masks::{begin_mask, claim_mask, complete_mask, release_mask, take_mask};
use page_geometry::{
    ChunkHeader, ChunkState, FIRST_CONTINUES, Geometry, GeometryFault, LAST_CONTINUES, PageWord,
};
use std::test::Fail;

#[test]
fn sizes_of_a_page_of_4096_bytes(rt: HostRuntime) -> Result<(), Fail> {
    // chunks, layout number, chunk size, payload size, record size, place of the last chunk
    let rows = [
        (1, 1, 4088, 4080, 4096, 8),
        (2, 2, 2044, 2036, 2064, 2052),
        (4, 3, 1020, 1012, 1040, 3068),
        (7, 4, 584, 576, 592, 3512),
        (14, 5, 292, 284, 304, 3804),
    ];
    for (chunks, layout, chunk_size, payload_size, record_size, last) in rows {
        let geometry = Geometry::new(4096, chunks)?;
        assert_eq!(rt; geometry.page_size(), 4096);
        assert_eq!(rt; geometry.chunks(), chunks);
        assert_eq!(rt; geometry.layout_number(), layout);
        assert_eq!(rt; geometry.chunk_size(), chunk_size, "{chunks} chunks");
        assert_eq!(rt; geometry.payload_size(), payload_size, "{chunks} chunks");
        assert_eq!(rt; geometry.record_size(), record_size, "{chunks} chunks");
        assert_eq!(rt;
            geometry.chunk_place(geometry.chunks() - 1),
            last,
            "{chunks} chunks"
        );
    }
    Ok(())
}

#[test]
fn refusals(rt: HostRuntime) {
    let rows = [
        (0, 1, GeometryFault::BadPageSize),
        (4095, 1, GeometryFault::BadPageSize),
        (6144, 3, GeometryFault::BadPageSize),
        (69632, 14, GeometryFault::BadPageSize),
        (65536, 0, GeometryFault::BadLayout),
        (4096, 3, GeometryFault::BadLayout),
        (4096, 15, GeometryFault::BadLayout),
    ];
    for (page_size, chunks, fault) in rows {
        assert_eq!(rt;
            Geometry::new(page_size, chunks),
            Err(fault),
            "{page_size} {chunks}"
        );
    }
}

#[test]
fn words_of_a_chunk(rt: HostRuntime) {
    let claimed = claim_mask(0, 5);
    let begun = claimed | begin_mask(0);
    let complete = begun | complete_mask(0);
    let taken = complete & take_mask(0);
    let released = taken & release_mask(0);
    let rows = [
        (claimed, 0x0000_0001_5000_0000, ChunkState::Free, true),
        (begun, 0x0000_0001_5000_0001, ChunkState::BeingWritten, true),
        (complete, 0x0000_0001_5000_0003, ChunkState::Complete, true),
        (taken, 0x0000_0001_5000_0002, ChunkState::BeingRead, true),
        (released, 0x0000_0000_5000_0000, ChunkState::Free, false),
    ];
    for (word, expected, state, is_claimed) in rows {
        assert_eq!(rt; word, expected);
        assert_eq!(rt; PageWord(word).layout(), 5);
        assert_eq!(rt; PageWord(word).state(0), state);
        assert_eq!(rt; PageWord(word).claimed(0), is_claimed);
        assert_eq!(rt; PageWord(claimed).with_state(0, state).state(0), state);
    }
    assert_eq!(rt; complete.to_le_bytes(), [3, 0, 0, 0x50, 1, 0, 0, 0]);
    let last = PageWord(released).with_state(13, ChunkState::Complete);
    assert_eq!(rt; last, PageWord(0x5c00_0000));
}

#[test]
fn bytes_of_headers(rt: HostRuntime) {
    let rows = [
        (0, LAST_CONTINUES, [0, 0, 0, 0, 1, 0, 1, 8]),
        (1, FIRST_CONTINUES, [1, 0, 0, 0, 1, 0, 1, 4]),
    ];
    for (chunk_id, flags, bytes) in rows {
        let header = ChunkHeader {
            chunk_id,
            writer_id: 1,
            count: 1,
            flags,
        };
        assert!(rt; flags <= 63);
        assert_eq!(rt; header.pack().to_le_bytes(), bytes);
        assert_eq!(rt; ChunkHeader::unpack(u64::from_le_bytes(bytes)), header);
    }
}
