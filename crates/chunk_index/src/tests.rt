//! Indexes as they are used, also where all keys have one home.
ghost use Rattle.std.specs.Prelude.{◌≡◌, ℕ, ◌+◌, ◌<◌};
ghost use Rattle.std.specs.FinMap as map;

use super::*;
use crate::slot::{home_of, key_number};
use std::process::Abort;
use std::test::Fail;

fn add_new(rt: &impl Abort, index: &mut Index, sequence: u32, chunk_id: u32, place: u32)
    requires { map.len index.old.places < index.old.capacity }
    ensures count { map.len index.new.places ≡ map.len index.old.places + 1 }
    ensures capacity { index.new.capacity ≡ index.old.capacity }
{
    assert_eq!(rt; index.find(sequence, chunk_id), None);
    index.add(sequence, chunk_id, place);
    assert_eq!(rt; index.find(sequence, chunk_id), Some(place));
}

fn take_out(rt: &impl Abort, index: &mut Index, sequence: u32, chunk_id: u32)
    ensures count { map.len index.new.places + 1 ≡ map.len index.old.places }
    ensures capacity { index.new.capacity ≡ index.old.capacity }
{
    assert!(rt; index.find(sequence, chunk_id).is_some());
    index.remove(sequence, chunk_id);
    assert_eq!(rt; index.find(sequence, chunk_id), None);
}

/// Sixteen positions in sequence 1 whose keys have one home, the tenth last of the 33 that there are.
fn positions_of_one_home(rt: &impl Abort) -> [u32; 16] {
    let mut positions = [0; 16];
    let mut found = 0;
    for position in 0..2000 {
        if found < 16 && home_of(key_number(1, position), 16) == 23 {
            positions[found] = position;
            found += 1;
        }
    }
    assert_eq!(rt; found, 16);
    positions
}

#[test]
fn keys_with_one_home_are_kept_apart(rt: HostRuntime) -> Result<(), Fail> {
    let mut index = Index::make(rt.alloc(), 16)?;
    let positions = positions_of_one_home(&rt);
    for position in positions {
        add_new(&rt, &mut index, 1, position, position / 3);
    }
    take_out(&rt, &mut index, 1, positions[3]);
    take_out(&rt, &mut index, 1, positions[7]);
    for (i, position) in positions.iter().enumerate() {
        let place = if i == 3 || i == 7 {
            None
        } else {
            Some(*position / 3)
        };
        assert_eq!(rt; index.find(1, *position), place, "position {position}");
    }
    assert_eq!(rt;
        index.first_from(1, positions[7]),
        Some((positions[8], positions[8] / 3))
    );

    // Far ahead, at the greatest position and in the greatest sequence.
    assert_eq!(rt; index.first_from(1, 5000), None);
    assert_eq!(rt; index.first_from(0, u32::MAX), None);
    add_new(&rt, &mut index, 1, u32::MAX, 9);
    add_new(&rt, &mut index, u32::MAX, u32::MAX, 8);
    assert_eq!(rt; index.first_from(1, 5000), Some((u32::MAX, 9)));
    assert_eq!(rt; index.first_from(u32::MAX, 5000), Some((u32::MAX, 8)));
    assert_eq!(rt; index.first_from(u32::MAX, u32::MAX), Some((u32::MAX, 8)));
    Ok(())
}

#[test]
fn an_index_may_have_no_room(rt: HostRuntime) -> Result<(), Fail> {
    let index = Index::make(rt.alloc(), 0)?;
    assert_eq!(rt; index.find(1, 1), None);
    assert_eq!(rt; index.first_from(1, 0), None);
    Ok(())
}
