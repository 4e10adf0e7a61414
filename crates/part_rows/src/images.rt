//! Payloads by hand, most of them as no writer leaves them.
ghost use Rattle.std.specs.Prelude.{◌≡◌, ◌≤◌, List, length};
ghost use Rattle.std.specs.List.{list_any};
ghost use Rattle.trace_model.specs.Images as model;
ghost use Rattle.trace_model.specs.Fragments.{ReadsAs};

use chunk_image::{Fragment, Image, ImageFault};
use std::test::Fail;
use trace_base::limits::MAX_INPUT;

struct Row {
    name: &'static str,
    count: u16,
    payload: &'static [u8],
    wanted: Result<&'static [Fragment<'static>], ImageFault>,
}

static ROWS: [Row; 17] = [
    Row {
        name: "no fragment",
        count: 0,
        payload: b"\x01a",
        wanted: Err(ImageFault::BadChunk { fragment: 0 }),
    },
    Row {
        name: "no byte",
        count: 1,
        payload: b"",
        wanted: Err(ImageFault::BadChunk { fragment: 0 }),
    },
    Row {
        name: "a writer's fragment, and unused bytes",
        count: 1,
        payload: b"\x86\x80\x80\x00\x82\x80\x80\x00\x10\x07\xEE\xEE",
        wanted: Ok(&[Fragment {
            bytes: b"\x82\x80\x80\x00\x10\x07",
            dropped: false,
            offset: 4,
        }]),
    },
    Row {
        name: "sizes of one to four bytes",
        count: 4,
        payload: b"\x01a\x82\x00bc\x80\x80\x00\x81\x80\x80\x00d",
        wanted: Ok(&[
            Fragment {
                bytes: b"a",
                dropped: false,
                offset: 1,
            },
            Fragment {
                bytes: b"bc",
                dropped: false,
                offset: 4,
            },
            Fragment {
                bytes: b"",
                dropped: false,
                offset: 9,
            },
            Fragment {
                bytes: b"d",
                dropped: false,
                offset: 13,
            },
        ]),
    },
    Row {
        name: "a size of five bytes",
        count: 1,
        payload: b"\x81\x80\x80\x80\x00a",
        wanted: Err(ImageFault::BadChunk { fragment: 0 }),
    },
    Row {
        name: "a size that ends short",
        count: 1,
        payload: b"\x81\x80\x80",
        wanted: Err(ImageFault::BadChunk { fragment: 0 }),
    },
    Row {
        name: "a size past the end",
        count: 1,
        payload: b"\x82\x80\x80\x00a",
        wanted: Err(ImageFault::BadChunk { fragment: 0 }),
    },
    Row {
        name: "the greatest size without the mark",
        count: 1,
        payload: b"\xFE\xFF\xFF\x7Fa",
        wanted: Err(ImageFault::BadChunk { fragment: 0 }),
    },
    Row {
        name: "a second size past the end",
        count: 2,
        payload: b"\x01a\x02b",
        wanted: Err(ImageFault::BadChunk { fragment: 1 }),
    },
    Row {
        name: "nothing behind the first",
        count: 3,
        payload: b"\x01a",
        wanted: Err(ImageFault::BadChunk { fragment: 1 }),
    },
    Row {
        name: "fewer than there are",
        count: 1,
        payload: b"\x01a\x01b",
        wanted: Ok(&[Fragment {
            bytes: b"a",
            dropped: false,
            offset: 1,
        }]),
    },
    Row {
        name: "the drop mark alone",
        count: 1,
        payload: b"\xFF\xFF\xFF\x7F",
        wanted: Ok(&[Fragment {
            bytes: b"",
            dropped: true,
            offset: 4,
        }]),
    },
    Row {
        name: "the drop mark with all that follows",
        count: 2,
        payload: b"\x01a\xFF\xFF\xFF\x7F\x01b\xEE",
        wanted: Ok(&[
            Fragment {
                bytes: b"a",
                dropped: false,
                offset: 1,
            },
            Fragment {
                bytes: b"\x01b\xEE",
                dropped: true,
                offset: 6,
            },
        ]),
    },
    Row {
        name: "the drop mark before the last",
        count: 2,
        payload: b"\xFF\xFF\xFF\x7F\x01b",
        wanted: Err(ImageFault::BadChunk { fragment: 0 }),
    },
    Row {
        name: "the most fragments",
        count: 1023,
        payload: &[0x80; 1022],
        wanted: Err(ImageFault::BadChunk { fragment: 0 }),
    },
    Row {
        name: "one fewer than the most",
        count: 1023,
        payload: &[0; 1022],
        wanted: Err(ImageFault::BadChunk { fragment: 1022 }),
    },
    Row {
        name: "more than a header can count",
        count: 65535,
        payload: &[0; 1023],
        wanted: Err(ImageFault::BadChunk { fragment: 1023 }),
    },
];

fn image(count: u16, payload: &[u8]) -> Image<'_>
    ensures payload { result.payload.now ≡ payload.now }
{
    Image {
        sequence: 2,
        chunk_id: 7,
        count,
        flags: 0,
        payload,
    }
}

/// A caller's loop, which learns which fragments come.
fn has_mark(image: &Image<'_>) -> bool
    requires { length image.now.payload.now ≤ MAX_INPUT }
    ensures { (fragments : List model.Fragment) → ReadsAs image.now.payload.now fragments
        → length fragments ≡ image.now.count → result ≡ list_any (λ fragment. fragment.dropped) fragments }
{
    match image.fragments() {
        Ok(fragments) => {
            for fragment in fragments {
                if fragment.dropped {
                    return true;
                }
            }
            false
        }
        Err(_) => false,
    }
}

#[test]
fn payloads_read_as_their_fragments(rt: HostRuntime) -> Result<(), Fail> {
    for row in &ROWS {
        assert!(rt; row.payload.len() <= MAX_INPUT);
        match image(row.count, row.payload).fragments() {
            Ok(fragments) => {
                let mut wanted = row.wanted.unwrap_or(&[]).iter();
                for fragment in fragments {
                    assert_eq!(rt; wanted.next(), Some(&fragment), "{}", row.name);
                }
                assert_eq!(rt; wanted.next(), None, "{}", row.name);
                assert!(rt; row.wanted.is_ok(), "{}", row.name);
            }
            Err(fault) => assert_eq!(rt; row.wanted.err(), Some(fault), "{}", row.name),
        }
    }
    assert!(rt; has_mark(&image(1, b"\xFF\xFF\xFF\x7F")));
    let most = image(1023, &[0; 1023]).fragments()?;
    assert_eq!(rt; most.count(), 1023);
    Ok(())
}
